//! Set LAN Configuration Parameters.
ghost use Rattle.std.specs.Prelude.{◌≡◌, true};
ghost use Rattle.lan_dest.specs.Parameters.{is_channel};
ghost use Rattle.lan_dest.specs.Rows.{Sets};

use crate::code::{DONE, FIELD, LENGTH, NO_PARAMETER, READ_ONLY, SELECTOR};
use crate::lan::{DESTINATIONS, Lan, is_channel};

impl Lan {
    /// Writes a parameter of a channel, with the octets behind its number, and answers the completion code. Another code
    /// than 00h changes nothing.
    pub fn set(&mut self, channel: u8, parameter: u8, payload: &[u8]) -> u8
        ensures { Sets channel parameter payload.now self.old self.new result }
    {
        if !is_channel(channel) {
            return FIELD;
        }
        match parameter {
            16 => self.set_community(channel, payload),
            17 => READ_ONLY,
            18 => self.set_kind(channel, payload),
            19 => self.set_address(channel, payload),
            _ => NO_PARAMETER,
        }
    }

    fn set_community(&mut self, channel: u8, payload: &[u8]) -> u8
        requires { is_channel channel ≡ true }
        ensures { Sets channel 16 payload.now self.old self.new result }
    {
        if payload.len() != 18 {
            return LENGTH;
        }
        let mut octets = [0; 18];
        octets.copy_from_slice(payload);
        self.put_community(channel, octets);
        DONE
    }

    fn set_kind(&mut self, channel: u8, payload: &[u8]) -> u8
        requires { is_channel channel ≡ true }
        ensures { Sets channel 18 payload.now self.old self.new result }
    {
        if payload.len() != 4 {
            return LENGTH;
        }
        let number = payload[0] % 16;
        if number >= DESTINATIONS {
            return SELECTOR;
        }
        let mut octets = [0; 3];
        octets.copy_from_slice(&payload[1..]);
        self.put_kind(channel, number, octets);
        DONE
    }

    fn set_address(&mut self, channel: u8, payload: &[u8]) -> u8
        requires { is_channel channel ≡ true }
        ensures { Sets channel 19 payload.now self.old self.new result }
    {
        if payload.len() != 13 {
            return LENGTH;
        }
        let number = payload[0] % 16;
        if number >= DESTINATIONS {
            return SELECTOR;
        }
        if payload[1] / 16 != 0 {
            return FIELD;
        }
        let mut octets = [0; 12];
        octets.copy_from_slice(&payload[1..]);
        self.put_address(channel, number, octets);
        DONE
    }
}

//! Get LAN Configuration Parameters.
ghost use Rattle.std.specs.Prelude.{◌≡◌, ◌≤◌, [], ◌∷◌, ◌++◌, length};
ghost use Rattle.lan_dest.specs.Kept.{kept};
ghost use Rattle.lan_dest.specs.Rows.{get_reply};

use crate::code::{DONE, FIELD, NO_PARAMETER, SELECTOR};
use crate::lan::{DESTINATIONS, Lan, is_channel};
use board_core::Octets;

/// The parameter revision that is answered.
const REVISION: u8 = 0x11;

impl Lan {
    /// Reads a parameter of a channel, and answers the whole reply from the completion code on. The selector is bits 3:0
    /// of `set`.
    pub fn get(&self, channel: u8, parameter: u8, set: u8, revision_only: bool) -> Octets
        ensures { result ≡ get_reply (kept self.now) channel parameter set revision_only }
    {
        if !is_channel(channel) {
            return reply_of(&[FIELD], &[]);
        }
        if parameter < 16 || parameter > 19 {
            return reply_of(&[NO_PARAMETER], &[]);
        }
        if revision_only {
            return reply_of(&[DONE, REVISION], &[]);
        }
        let number = set % 16;
        match parameter {
            16 => reply_of(&[DONE, REVISION], &self.community(channel)),
            17 => reply_of(&[DONE, REVISION], &[DESTINATIONS - 1]),
            _ if number >= DESTINATIONS => reply_of(&[SELECTOR], &[]),
            18 => reply_of(&[DONE, REVISION, number], &self.kind(channel, number)),
            _ => reply_of(&[DONE, REVISION, number], &self.address(channel, number)),
        }
    }
}

/// A reply of these octets, one list behind the other.
fn reply_of(front: &[u8], octets: &[u8]) -> Octets
    requires front { length front.now ≤ 3 }
    requires octets { length octets.now ≤ 18 }
    ensures { result ≡ front.now ++ octets.now }
{
    let mut reply = Octets::new();
    reply.extend(front);
    reply.extend(octets);
    reply
}

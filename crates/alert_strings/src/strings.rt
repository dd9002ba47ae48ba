//! The alert strings and their keys.
ghost use Rattle.std.specs.Prelude.{◌≡◌, ◌≤◌, length, replicate, slice_get, slice_set, IfOk, OnOk, OnErr};
ghost use Rattle.std.specs.Option.{ForSome};
ghost use Rattle.std.specs.Result.{result_err};
ghost use Rattle.alert_strings.specs.Kept.{blocks, keys};
ghost use Rattle.alert_strings.specs.Table.{number_fault, block_fault, block_place, filled, octets_of, text_of};
ghost use Rattle.alert_strings.specs.Lookup.{string_for};

use crate::fault::StringFault;
use crate::numbers::{asks_for_set, place_of, places_of, string_numbered};
use crate::text::{filled, first_with, text_in};
use board_core::{Bytes, Text};

/// Alert strings 0 to 8, of four blocks of 16 octets each, with a key each (IPMI 2.0, section 30.3).
#[derive(Debug, Drop)]
pub struct Strings {
    blocks: [[u8; 16]; 36],
    keys: [(u8, u8); 9],
}

impl Strings {
    /// Strings of 00h, with keys of 0.
    pub fn new() -> Strings
        ensures blocks { blocks result ≡ replicate 36 (replicate 16 0) }
        ensures keys { keys result ≡ replicate 9 (0, 0) }
    {
        Strings {
            blocks: [[0; 16]; 36],
            keys: [(0, 0); 9],
        }
    }

    /// Replaces a block of a string by these 1 to 16 octets, filled up with 00h. A number is refused before a block, and
    /// a refusal changes nothing.
    pub fn set_block(&mut self, number: u8, block: u8, part: &[u8]) -> Result<(), StringFault>
        requires some { 1 ≤ length part.now }
        requires within { length part.now ≤ 16 }
        ensures refused { result_err result ≡ block_fault 8 4 number block }
        ensures replaced { OnOk result (blocks self.new ≡ slice_set (blocks self.old) (block_place 4 number block) (filled 16 part.now)) }
        ensures keys { keys self.new ≡ keys self.old }
        ensures count { length (blocks self.new) ≡ 36 }
        ensures kept { OnErr result (self.new ≡ self.old) }
    {
        let (place, block) = places_of(number, block)?;
        self.blocks[4 * place + block] = filled(part);
        Ok(())
    }

    /// The 16 octets of a block of a string.
    pub fn get_block(&self, number: u8, block: u8) -> Result<[u8; 16], StringFault>
        ensures refused { result_err result ≡ block_fault 8 4 number block }
        ensures found { IfOk result (λ octets. slice_get (blocks self.now) (block_place 4 number block) ≡ Some octets) }
    {
        let (place, block) = places_of(number, block)?;
        Ok(self.blocks[4 * place + block])
    }

    /// Gives a string a key: the number of an event filter and that of a string set, in bits 6:0 each. A refusal changes
    /// nothing.
    pub fn set_key(&mut self, number: u8, filter: u8, set: u8) -> Result<(), StringFault>
        ensures refused { result_err result ≡ number_fault 8 number }
        ensures replaced { OnOk result (keys self.new ≡ slice_set (keys self.old) number (filter, set)) }
        ensures blocks { blocks self.new ≡ blocks self.old }
        ensures count { length (keys self.new) ≡ 9 }
        ensures kept { OnErr result (self.new ≡ self.old) }
    {
        let place = place_of(number)?;
        self.keys[place] = (filter, set);
        Ok(())
    }

    /// A string's key: the octets of the filter and of the set.
    pub fn get_key(&self, number: u8) -> Result<(u8, u8), StringFault>
        ensures refused { result_err result ≡ number_fault 8 number }
        ensures found { IfOk result (λ key. slice_get (keys self.now) number ≡ Some key) }
    {
        let place = place_of(number)?;
        Ok(self.keys[place])
    }

    /// The string, 1 to 8, that a string key of a policy entry names for an event of this filter; none where it names
    /// none.
    pub fn text_for(&self, key: u8, filter: u8) -> Option<u8>
        ensures named { result ≡ string_for 8 (keys self.now) key filter }
        ensures within { ForSome result (λ number. number ≤ 8) }
        ensures count { length (keys self.now) ≡ 9 }
    {
        let wanted = key % 128;
        if asks_for_set(key) {
            first_with(&self.keys, filter, wanted)
        } else {
            string_numbered(wanted)
        }
    }

    /// The text of a string: the octets before the first 00h, cut to 61.
    pub fn text(&self, number: u8) -> Text
        requires { number ≤ 8 }
        ensures text { result ≡ text_of 4 (blocks self.now) number }
        ensures count { length (blocks self.now) ≡ 36 }
    {
        text_in(self.octets(number))
    }

    /// All octets of a string.
    fn octets(&self, number: u8) -> Bytes<64>
        requires { number ≤ 8 }
        ensures { result ≡ octets_of 4 (blocks self.now) number }
    {
        let first = 4 * usize::from(number);
        let mut octets = Bytes::new();
        octets.extend(&self.blocks[first]);
        octets.extend(&self.blocks[first + 1]);
        octets.extend(&self.blocks[first + 2]);
        octets.extend(&self.blocks[first + 3]);
        octets
    }
}

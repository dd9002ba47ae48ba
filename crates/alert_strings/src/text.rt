//! Octets of strings, and which string a key names.
ghost use Rattle.std.specs.Prelude.{◌≡◌, ◌==◌, ◌<◌, ◌≤◌, length, take};
ghost use Rattle.std.specs.List.{before_first, position, position_or_len};
ghost use Rattle.std.specs.Option.{ForSome};
ghost use Rattle.alert_strings.specs.Table.{filled};
ghost use Rattle.alert_strings.specs.Lookup.{has_key, first_with};

use board_core::{Bytes, Text};

/// These octets, filled up with 00h.
pub(crate) fn filled(part: &[u8]) -> [u8; 16]
    requires { length part.now ≤ 16 }
    ensures { result ≡ filled 16 part.now }
{
    let mut octets = [0; 16];
    octets[..part.len()].copy_from_slice(part);
    octets
}

/// The least string, from 1 on, of which the key is of this filter and set.
pub(crate) fn first_with(keys: &[(u8, u8)], filter: u8, set: u8) -> Option<u8>
    requires some { 1 ≤ length keys.now }
    requires few { length keys.now ≤ 9 }
    ensures { result ≡ first_with keys.now filter set }
{
    match place_with(&keys[1..], filter, set) {
        Some(place) => Some(place as u8 + 1),
        None => None,
    }
}

/// The place of the first of these keys that is of this filter and set.
fn place_with(keys: &[(u8, u8)], filter: u8, set: u8) -> Option<usize>
    ensures place { result ≡ position (has_key filter set) keys.now }
    ensures below { ForSome result (λ place. place < length keys.now) }
{
    keys.iter().position(|key| is_of(*key, filter, set))
}

/// Whether a key is of this filter and set.
fn is_of(key: (u8, u8), filter: u8, set: u8) -> bool
    ensures { result ≡ has_key filter set key }
{
    key.0 % 128 == filter && key.1 % 128 == set
}

/// The octets before the first 00h, cut to 61.
pub(crate) fn text_in(octets: Bytes<64>) -> Text
    ensures { result ≡ take 61 (before_first (λ octet. octet == 0) octets) }
{
    let mut octets = octets;
    let end = text_end(octets.as_slice());
    octets.truncate(end);
    octets.truncate(61);
    let mut text = Text::new();
    text.extend(octets.as_slice());
    text
}

/// How many octets stand before the first 00h.
fn text_end(octets: &[u8]) -> usize
    ensures { result ≡ position_or_len (λ octet. octet == 0) octets.now }
{
    octets.iter().take_while(|octet| **octet != 0).count()
}

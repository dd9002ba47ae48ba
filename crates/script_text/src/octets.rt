// Octets as pairs of hexadecimal digits.
ghost use Rattle.std.specs.Prelude.{◌≡◌, ◌≤◌, Option, Some, None, MatchOption, length, take};
ghost use Rattle.script_text.specs.Forms.{octets_exactly, octets_up_to, decoded_up_to, octets_by};
ghost use Rattle.hex.specs.Hex.{decode_sized};

use board_core::Bytes;
use hex::decode_to_slice;

/// `N` octets, each as two hexadecimal digits of either case.
pub fn octets_exactly<const N: usize>(word: &[u8]) -> Option<[u8; N]>
    ensures { result ≡ octets_exactly N word.now }
{
    let mut octets = [0u8; N];
    match decode_to_slice(word, &mut octets) {
        Ok(()) => Some(octets),
        Err(_) => None,
    }
}

/// `-` for no octets, or 1 to `N` octets, each as two hexadecimal digits of either case.
pub fn octets_up_to<const N: usize>(word: &[u8]) -> Option<Bytes<N>>
    ensures { result ≡ octets_up_to N word.now }
{
    if word == b"-".as_slice() {
        return Some(Bytes::new());
    }
    let mut room = [0u8; N];
    let count = decode_front(word, &mut room)?;
    let mut octets = Bytes::new();
    let _ = octets.extend(front(&room, count));
    Some(octets)
}

// Decodes 1 octet to as many as there is room for into the front of the room, and answers how many.
fn decode_front(word: &[u8], room: &mut [u8]) -> Option<usize>
    ensures { MatchOption result (decoded_up_to (length room.old) word.now ≡ None) (λ count. (count ≤ length room.new) × (decoded_up_to (length room.old) word.now ≡ Some (take count room.new))) }
{
    let count = word.len() / 2;
    if count == 0 || count > room.len() {
        return None;
    }
    match decode_to_slice(word, &mut room[..count]) {
        Ok(()) => Some(count),
        Err(_) => None,
    }
}

fn front(room: &[u8], count: usize) -> &[u8]
    requires { count ≤ length room.now }
    ensures { result.now ≡ take count room.now }
{
    &room[..count]
}

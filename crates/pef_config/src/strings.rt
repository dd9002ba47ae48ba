//! The alert strings and their keys, by parameters 12 and 13.
ghost use Rattle.std.specs.Prelude.{◌≡◌, ◌≢◌, ℕ, ◌&&◌, ◌==◌, not, nat_le, [], ◌∷◌, drop, length};
ghost use Rattle.alert_strings.specs.Table.{filled};
ghost use Rattle.event_record.specs.Fields.{octet};
ghost use Rattle.filter_table.specs.Filters.{is_number};
ghost use Rattle.pef_config.specs.Kept.{key_at, block_at};
ghost use Rattle.pef_config.specs.Places.{selector, selects, selects_block, only_if, last_or};
ghost use Rattle.pef_config.specs.Rows.{answer_if};

use crate::parameter::{DONE, LENGTH, REVISION, SELECTOR};
use crate::reading::{entry_reply, refusal};
use alert_strings::Strings;
use board_core::Octets;

/// Writes the key of a string: its selector, in bits 6:0, the number of a filter and that of a string set.
pub(crate) fn put_key(strings: &mut Strings, payload: &[u8]) -> u8
    ensures code { result ≡ answer_if (not (length payload.now == 3)) 0xC7 (
        answer_if (not (nat_le (selector (octet 1 payload.now)) 8)) 0xC9 0x00) }
    ensures written { result ≡ 0x00 → (n : ℕ)
        → key_at strings.new n ≡ last_or (key_at strings.old n) (only_if (selects payload.now n) (drop 1 payload.now)) }
    ensures blocks { (n block : ℕ) → block_at strings.new n block ≡ block_at strings.old n block }
    ensures kept { result ≢ 0x00 → strings.new ≡ strings.old }
{
    let [selector, filter, set] = payload else {
        return LENGTH;
    };
    match strings.set_key(selector % 128, *filter, *set) {
        Ok(()) => DONE,
        Err(_) => SELECTOR,
    }
}

/// Writes a block of a string: its selector, in bits 6:0, the number of the block, and 1 to 16 octets.
pub(crate) fn put_block(strings: &mut Strings, payload: &[u8]) -> u8
    ensures code { result ≡ answer_if (not (nat_le 3 (length payload.now) && nat_le (length payload.now) 18)) 0xC7 (
        answer_if (not (nat_le (selector (octet 1 payload.now)) 8)) 0xC9 (
        answer_if (not (is_number 4 (octet 2 payload.now))) 0xC9 0x00)) }
    ensures written { result ≡ 0x00 → (n block : ℕ)
        → block_at strings.new n block ≡ last_or (block_at strings.old n block) (only_if (selects_block payload.now n block) (filled 16 (drop 2 payload.now))) }
    ensures keys { (n : ℕ) → key_at strings.new n ≡ key_at strings.old n }
    ensures kept { result ≢ 0x00 → strings.new ≡ strings.old }
{
    let [selector, block, part @ ..] = payload else {
        return LENGTH;
    };
    if part.is_empty() || part.len() > 16 {
        return LENGTH;
    }
    match strings.set_block(selector % 128, *block, part) {
        Ok(()) => DONE,
        Err(_) => SELECTOR,
    }
}

/// Reads the key of a string.
pub(crate) fn key_reply(strings: &Strings, selector: u8) -> Octets
    ensures { result ≡ answer_if (not (nat_le selector 8)) (0xC9 ∷ [])
        (0x00 ∷ 0x11 ∷ selector ∷ key_at strings.now selector) }
{
    match strings.get_key(selector) {
        Ok((filter, set)) => entry_reply(selector, &[filter, set]),
        Err(_) => refusal(SELECTOR),
    }
}

/// Reads a block of a string, with its number.
pub(crate) fn block_reply(strings: &Strings, selector: u8, block: u8) -> Octets
    ensures { result ≡ answer_if (not (nat_le selector 8)) (0xC9 ∷ []) (
        answer_if (not (is_number 4 block)) (0xC9 ∷ [])
        (0x00 ∷ 0x11 ∷ selector ∷ block ∷ block_at strings.now selector block)) }
{
    let Ok(octets) = strings.get_block(selector, block) else {
        return refusal(SELECTOR);
    };
    let mut reply = Octets::new();
    reply.extend(&[DONE, REVISION, selector, block]);
    reply.extend(&octets);
    reply
}

//! Writes of one parameter. Each answers its completion code, and a code other than 00h changes nothing.
ghost use Rattle.std.specs.Prelude.{◌≡◌, ◌≢◌, ◌%◌, ◌&&◌, ◌==◌, not, nat_le, [], ◌∷◌, ◌++◌, drop, length};
ghost use Rattle.event_record.specs.Fields.{octet};
ghost use Rattle.filter_table.specs.Filters.{is_number, numbered, Replaces};
ghost use Rattle.pef_config.specs.Places.{selector};
ghost use Rattle.pef_config.specs.Rows.{answer_if, progress};

use crate::parameter::{DONE, FIELD, IN_PROGRESS, LENGTH, SELECTOR};
use filter_table::{Filter, Filters};

/// A parameter of one octet.
pub(crate) fn put_octet(into: &mut u8, payload: &[u8]) -> u8
    ensures code { result ≡ answer_if (not (length payload.now == 1)) 0xC7 0x00 }
    ensures written { result ≡ 0x00 → into.new ∷ [] ≡ payload.now }
    ensures kept { result ≢ 0x00 → into.new ≡ into.old }
{
    let [octet] = payload else {
        return LENGTH;
    };
    *into = *octet;
    DONE
}

/// The system GUID: bit 0 of the first octet says whether it is to be used, and 16 octets follow.
pub(crate) fn put_guid(into: &mut [u8; 17], payload: &[u8]) -> u8
    ensures code { result ≡ answer_if (not (length payload.now == 17)) 0xC7 0x00 }
    ensures written { result ≡ 0x00 → into.new ≡ payload.now }
    ensures kept { result ≢ 0x00 → into.new ≡ into.old }
{
    if payload.len() != into.len() {
        return LENGTH;
    }
    into.copy_from_slice(payload);
    DONE
}

/// Set in progress: bits 1:0 are 0 or 1, and not 1 where they are 1 already.
pub(crate) fn put_progress(into: &mut u8, payload: &[u8]) -> u8
    ensures code { result ≡ answer_if (not (length payload.now == 1)) 0xC7 (
        answer_if (nat_le 2 (progress (octet 1 payload.now))) 0xCC (
        answer_if ((progress (octet 1 payload.now) == 1) && (progress into.old == 1)) 0x81 0x00)) }
    ensures written { result ≡ 0x00 → into.new ∷ [] ≡ payload.now }
    ensures kept { result ≢ 0x00 → into.new ≡ into.old }
{
    let [octet] = payload else {
        return LENGTH;
    };
    if octet % 4 >= 2 {
        return FIELD;
    }
    if octet % 4 == 1 && *into % 4 == 1 {
        return IN_PROGRESS;
    }
    *into = *octet;
    DONE
}

/// A filter: its selector, in bits 6:0, and its 20 octets.
pub(crate) fn put_filter(filters: &mut Filters, payload: &[u8]) -> u8
    ensures code { result ≡ answer_if (not (length payload.now == 21)) 0xC7 (
        answer_if (not (is_number 16 (selector (octet 1 payload.now)))) 0xC9 0x00) }
    ensures written { result ≡ 0x00 → Replaces filters.old filters.new (selector (octet 1 payload.now)) (drop 1 payload.now) }
    ensures kept { result ≢ 0x00 → filters.new ≡ filters.old }
{
    let [selector, octets @ ..] = payload else {
        return LENGTH;
    };
    let mut filter = [0; 20];
    if octets.len() != filter.len() {
        return LENGTH;
    }
    filter.copy_from_slice(octets);
    match filters.set(selector % 128, Filter::read(&filter)) {
        Ok(()) => DONE,
        Err(_) => SELECTOR,
    }
}

/// The first octet of a filter: its selector, in bits 6:0, and the octet.
pub(crate) fn put_first_octet(filters: &mut Filters, payload: &[u8]) -> u8
    ensures code { result ≡ answer_if (not (length payload.now == 2)) 0xC7 (
        answer_if (not (is_number 16 (selector (octet 1 payload.now)))) 0xC9 0x00) }
    ensures written { result ≡ 0x00 → let n = selector (octet 1 payload.now) in
        Replaces filters.old filters.new n (octet 2 payload.now ∷ drop 1 (numbered filters.old n)) }
    ensures kept { result ≢ 0x00 → filters.new ≡ filters.old }
{
    let [selector, octet] = payload else {
        return LENGTH;
    };
    match filters.set_first(selector % 128, *octet) {
        Ok(()) => DONE,
        Err(_) => SELECTOR,
    }
}

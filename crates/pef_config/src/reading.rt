//! Replies to reads of one parameter.
ghost use Rattle.std.specs.Prelude.{◌≡◌, ◌+◌, ◌≤◌, not, [], ◌∷◌, take, length};
ghost use Rattle.filter_table.specs.Filters.{is_number, numbered};
ghost use Rattle.pef_config.specs.Rows.{answer_if, is_parameter as is_parameter_of};

use crate::parameter::{DELAY, DONE, FILTER_COUNT, REVISION, SELECTOR, SET_IN_PROGRESS, STRING};
use board_core::Octets;
use filter_table::Filters;

/// Whether there is such a parameter.
pub(crate) fn is_parameter(parameter: u8) -> bool
    ensures { result ≡ is_parameter_of parameter }
{
    matches!(parameter, SET_IN_PROGRESS..=DELAY | FILTER_COUNT..=STRING)
}

/// A completion code alone.
pub(crate) fn refusal(code: u8) -> Octets
    ensures { result ≡ code ∷ [] }
{
    let mut reply = Octets::new();
    reply.push(code);
    reply
}

/// A value behind the code and the revision.
pub(crate) fn reply_with(value: &[u8]) -> Octets
    requires { length value.now ≤ 64 }
    ensures { result ≡ 0x00 ∷ 0x11 ∷ value.now }
{
    let mut reply = Octets::new();
    reply.extend(&[DONE, REVISION]);
    reply.extend(value);
    reply
}

/// An entry of a table: its selector, and its value.
pub(crate) fn entry_reply(selector: u8, value: &[u8]) -> Octets
    requires { length value.now ≤ 64 }
    ensures { result ≡ 0x00 ∷ 0x11 ∷ selector ∷ value.now }
{
    let mut reply = Octets::new();
    reply.extend(&[DONE, REVISION, selector]);
    reply.extend(value);
    reply
}

/// A whole filter.
pub(crate) fn filter_reply(filters: &Filters, selector: u8) -> Octets
    ensures { result ≡ answer_if (not (is_number 16 selector)) (0xC9 ∷ [])
        (0x00 ∷ 0x11 ∷ selector ∷ numbered filters.now selector) }
{
    match filters.get(selector) {
        Ok(filter) => entry_reply(selector, &filter.write()),
        Err(_) => refusal(SELECTOR),
    }
}

/// The first octet of a filter.
pub(crate) fn first_octet_reply(filters: &Filters, selector: u8) -> Octets
    ensures { result ≡ answer_if (not (is_number 16 selector)) (0xC9 ∷ [])
        (0x00 ∷ 0x11 ∷ selector ∷ take 1 (numbered filters.now selector)) }
{
    match filters.get(selector) {
        Ok(filter) => entry_reply(selector, &filter.write()[..1]),
        Err(_) => refusal(SELECTOR),
    }
}

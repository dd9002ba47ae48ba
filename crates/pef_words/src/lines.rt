//! What a line says.
ghost use Rattle.std.specs.Prelude.{◌≡◌, ◌∷◌, []};
ghost use Rattle.script_text.specs.Forms.{words_of};
ghost use Rattle.pef_words.specs.Lines.{trap_in, record_in, lone, event_line, datagram_line, send_line, is_told, are_key, row_line, said_of_row, said_of_words, said_of_line};

use crate::codes::{number_said, record_said, trap_said};
use crate::numbers::decimal;
use crate::said::Said;
use script_text::{address, first_word, octets_exactly, octets_up_to};

/// What a line says: a record's octets alone or behind `event`, a trap's alone or in a line `datagram` or `send`, or a row of `list`.
#[tactic(auto, unfolding(crate::specs::Lines::said_of_line))]
pub fn said_in(line: &[u8]) -> Option<Said>
    ensures { result ≡ said_of_line line.now }
{
    let (first, rest) = first_word(line);
    match rest {
        None => lone(first),
        Some(rest) => behind_one(first, rest),
    }
}

fn behind_one(first: &[u8], rest: &[u8]) -> Option<Said>
    ensures { result ≡ said_of_words (first.now ∷ words_of rest.now) }
{
    let (second, rest) = first_word(rest);
    match rest {
        None => event_line(first, second),
        Some(rest) => behind_two(first, second, rest),
    }
}

fn behind_two(first: &[u8], second: &[u8], rest: &[u8]) -> Option<Said>
    ensures { result ≡ said_of_words (first.now ∷ second.now ∷ words_of rest.now) }
{
    let (third, rest) = first_word(rest);
    match rest {
        None => datagram_line(first, second, third),
        Some(rest) => behind_three(first, second, third, rest),
    }
}

fn behind_three(first: &[u8], second: &[u8], third: &[u8], rest: &[u8]) -> Option<Said>
    ensures { result ≡ said_of_words (first.now ∷ second.now ∷ third.now ∷ words_of rest.now) }
{
    let (fourth, rest) = first_word(rest);
    match rest {
        None => send_line(first, second, third, fourth),
        Some(rest) => behind_four(first, second, third, fourth, rest),
    }
}

fn behind_four(
    first: &[u8],
    second: &[u8],
    third: &[u8],
    fourth: &[u8],
    rest: &[u8],
) -> Option<Said>
    ensures { result ≡ said_of_words (first.now ∷ second.now ∷ third.now ∷ fourth.now ∷ words_of rest.now) }
{
    let (fifth, rest) = first_word(rest);
    if !are_key(first, second, third, fourth, fifth) {
        return None;
    }
    row_said(rest?)
}

// Octets alone.
fn lone(word: &[u8]) -> Option<Said>
    ensures { result ≡ lone word.now }
{
    match octets_exactly::<16>(word) {
        Some(octets) => record_said(&octets),
        None => trap_in(word),
    }
}

fn trap_in(word: &[u8]) -> Option<Said>
    ensures { result ≡ trap_in word.now }
{
    match octets_up_to::<512>(word) {
        Some(octets) => trap_said(octets.as_slice()),
        None => None,
    }
}

// `event OCTETS`
fn event_line(word: &[u8], octets: &[u8]) -> Option<Said>
    ensures { result ≡ event_line word.now octets.now }
{
    if word != b"event".as_slice() {
        return None;
    }
    match octets_exactly::<16>(octets) {
        Some(octets) => record_said(&octets),
        None => None,
    }
}

// `datagram ADDRESS OCTETS`
fn datagram_line(word: &[u8], from: &[u8], octets: &[u8]) -> Option<Said>
    ensures { result ≡ datagram_line word.now from.now octets.now }
{
    if word == b"datagram".as_slice() && address(from).is_some() {
        trap_in(octets)
    } else {
        None
    }
}

// `send ADDRESS OCTETS TOLD`
fn send_line(word: &[u8], to: &[u8], octets: &[u8], told: &[u8]) -> Option<Said>
    ensures { result ≡ send_line word.now to.now octets.now told.now }
{
    if word == b"send".as_slice() && address(to).is_some() && is_told(told) {
        trap_in(octets)
    } else {
        None
    }
}

fn is_told(word: &[u8]) -> bool
    ensures { result ≡ is_told word.now }
{
    word == b"done".as_slice() || word == b"failed".as_slice()
}

// Whether these can be the first words of a row of `list`.
fn are_key(number: &[u8], guid: &[u8], sequence: &[u8], stamp: &[u8], from: &[u8]) -> bool
    ensures { result ≡ are_key number.now guid.now sequence.now stamp.now from.now }
{
    decimal(number, 5, 65_536).is_some()
        && guid.len() == 36
        && decimal(sequence, 5, 65_535).is_some()
        && decimal(stamp, 10, u32::MAX).is_some()
        && address(from).is_some()
}

// What a row says, from its sixth word on.
fn row_said(rest: &[u8]) -> Option<Said>
    ensures { result ≡ said_of_row (words_of rest.now) }
{
    let (specific, rest) = first_word(rest);
    let (severity, rest) = first_word(rest?);
    let (device, rest) = first_word(rest?);
    let (sensor, rest) = first_word(rest?);
    let (event_data, rest) = first_word(rest?);
    let (_tail, _) = first_word(rest?);
    fields_said(specific, severity, device, sensor, event_data)
}

fn fields_said(
    specific: &[u8],
    severity: &[u8],
    device: &[u8],
    sensor: &[u8],
    event_data: &[u8],
) -> Option<Said>
    ensures { result ≡ said_of_row (specific.now ∷ severity.now ∷ device.now ∷ sensor.now ∷ event_data.now ∷ [] ∷ []) }
{
    let specific = decimal(specific, 10, u32::MAX)?;
    let [severity] = octets_exactly::<1>(severity)?;
    let [_device] = octets_exactly::<1>(device)?;
    let [sensor] = octets_exactly::<1>(sensor)?;
    let event_data = octets_exactly::<3>(event_data)?;
    number_said(specific, severity, sensor, event_data)
}

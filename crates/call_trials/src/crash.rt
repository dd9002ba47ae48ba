//! A call that is crashed at each of its moments, and made again.
use crate::entries::arrivals_stored;
use crate::play::{Played, play};
use crate::runs::Runs;
use crate::supply::Supply;
use crate::telling::{first_line, tell_line};
use board_core::{Act, Address, MemBoard, Sent, Step};
use pef_call::{Form, paths};
use std::alloc::{AllocError, Global};

// The octets that a torn place may hold here.
const TORN: [u8; 4] = [0x00, 0x37, 0xa5, 0xff];

/// A call that was made.
#[derive(Drop)]
pub struct Life {
    /// The board behind it.
    pub board: MemBoard,
    /// What it was given.
    pub supply: Supply,
    /// How many arrivals the file had stored before it.
    pub stored: usize,
}

/// Adds what comes of crashes of this call with these words: lines for each torn octet at which they differ from those before.
pub fn tell_crashes(
    alloc: Global,
    told: &mut Vec<u8>,
    words: &[String],
    life: &Life,
) -> Result<(), AllocError> {
    let mut heading = String::from_str(alloc, "crash torn")?;
    let mut lines = Vec::new(alloc);
    for torn in TORN {
        let next = crash_lines(alloc, words, life, torn)?;
        if next.as_slice() != lines.as_slice() && !lines.is_empty() {
            tell_group(told, heading.as_str(), lines.as_slice())?;
            heading = String::from_str(alloc, "crash torn")?;
        }
        heading.push_str(format!(in alloc; " {torn:02x}")?.as_str())?;
        lines = next;
    }
    tell_group(told, heading.as_str(), lines.as_slice())
}

fn tell_group(told: &mut Vec<u8>, heading: &str, lines: &[u8]) -> Result<(), AllocError> {
    tell_line(told, heading)?;
    told.extend_from_slice(lines)
}

// The lines for one torn octet.
fn crash_lines(
    alloc: Global,
    words: &[String],
    life: &Life,
    torn: u8,
) -> Result<Vec<u8>, AllocError> {
    let mut runs = Runs::new(alloc);
    for moment in 0..u64::MAX {
        let Some(mut left) = life.board.crash(alloc, moment, torn)? else {
            break;
        };
        let outcome = outcome_behind(alloc, words, life, &mut left)?;
        runs.add(moment, outcome)?;
    }
    runs.end()
}

// Makes the call again on the board that a crash left, and says what came of it.
fn outcome_behind(
    alloc: Global,
    words: &[String],
    life: &Life,
    left: &mut MemBoard,
) -> Result<String, AllocError> {
    let supply = supply_behind(alloc, words, life, left.octets())?;
    let played = play(alloc, words, left, &supply)?;
    let status = played.status;
    let line = line_of(alloc, &played)?;
    let steps = left.issued().len();
    let again = repeats(left.issued());
    let file = if left.octets().starts_with(life.board.octets()) {
        "as without a crash"
    } else {
        "other"
    };
    format!(in alloc; "status {status}, from \"{line}\", steps {steps}, again {again}, file {file}")
}

// What the call behind a crash is given, which left this file.
fn supply_behind(
    alloc: Global,
    words: &[String],
    life: &Life,
    file: &[u8],
) -> Result<Supply, AllocError> {
    let (count, seconds) = match paths(words) {
        Some(paths) => (paths.arrivals as usize, paths.form == Form::Live),
        None => (0, false),
    };
    let stored = arrivals_stored(file).saturating_sub(life.stored);
    let arrivals = life.supply.arrivals.behind(alloc, count, stored, seconds)?;
    life.supply.again(alloc, arrivals)
}

// The first line that was written.
fn line_of(alloc: Global, played: &Played) -> Result<String, AllocError> {
    let written = played.out.written();
    let line = match first_line(written) {
        Some((line, _)) => line,
        None => written,
    };
    match str::from_utf8(line) {
        Ok(line) => String::from_str(alloc, line),
        Err(_) => String::from_str(alloc, "no text"),
    }
}

// How many steps are the same as the one right before them.
fn repeats(issued: &[Sent]) -> usize {
    let mut count = 0usize;
    let mut before: Option<&Sent> = None;
    for sent in issued {
        if let Some(before) = before {
            if is_same(&before.step, &sent.step) {
                count = count.saturating_add(1);
            }
        }
        before = Some(sent);
    }
    count
}

fn is_same(one: &Step, other: &Step) -> bool {
    match one {
        Step::Act { kind, id } => is_act(other, *kind, *id),
        Step::Datagram { to, octets } => is_datagram(other, to, octets.as_slice()),
    }
}

fn is_act(step: &Step, act: Act, record: u16) -> bool {
    match step {
        Step::Act { kind, id } => *kind == act && *id == record,
        Step::Datagram { .. } => false,
    }
}

fn is_datagram(step: &Step, address: &Address, content: &[u8]) -> bool {
    match step {
        Step::Datagram { to, octets } => *to == *address && octets.as_slice() == content,
        Step::Act { .. } => false,
    }
}

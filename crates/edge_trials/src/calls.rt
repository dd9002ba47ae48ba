// What the trials of calls can't say: files and texts that fill all room, odd words and lines, out of memory, a crash behind a crash, and
// the law of two runs.
mod again;
mod full;
mod full_console;
mod lives;
mod memory;
mod odd;

use board_core::{Act, MemBoard, MemFeed, MemSink, MemSource, Sent, Step};
use pef_call::top;
use std::alloc::{AllocError, Global};

// The header of a controller's file, these settings with the defaults, and a closed gate.
const MADE: [u8; 60] = [
    0xa5, 1, 55, 0, // mark, kind, settings length
    0, 0x11, 0x22, 0x33, 0x44, 0x55, 0x66, 0x77, 0x88, 0x99, 0xaa, 0xbb, 0xcc, 0xdd, 0xee, 0xff, // system GUID
    10, 0, 0, 2, // agent address
    0, 0, 0, 0, // manufacturer ID
    0, 0, // system ID
    162, 0, 162, 0, 162, 0, // ports
    1, 63, 0, // PEF control, actions, startup delay
    0x80, 0x20, 0, 0x10, 0xff, 0xff, 4, 0xff, 1, 4, 0, 0, 0, 0, 0, 0, 0, 0, 0, 0, // filter
    0, // gate
];

// A script of one event that the filter asks a diagnostic interrupt for.
const SCRIPT: &str = "script 00000001 1\nevent 01000200ca9a3b200004043001521020\nend\n";

// Entries with their gates: a script of one item is opened, a fan's event, what its step was told, and the script is
// closed.
const OPENED: [u8; 12] = [0xa5, 9, 0, 5, 1, 0, 0, 0, 1, 0, 0, 0];

const EVENT: [u8; 20] = [
    0xa5, 17, 0, 1, 1, 0, 2, 0, 0xca, 0x9a, 0x3b, 0x20, 0, 4, 4, 0x30, 1, 0x52, 0x10, 0x20,
];

const DONE: [u8; 5] = [0xa5, 2, 0, 0x10, 0];

const FAILED: [u8; 5] = [0xa5, 2, 0, 0x10, 1];

const CLOSED: [u8; 4] = [0xa5, 1, 0, 6];

// The entry of a fan's event with this ID and event data 1. The filter asks for an action at 52h, and not at 53h.
fn event(id: u8, data: u8) -> [u8; 20] {
    [
        0xa5, 17, 0, 1, id, 0, 2, 0, 0xca, 0x9a, 0x3b, 0x20, 0, 4, 4, 0x30, 1, data, 0x10, 0x20,
    ]
}

// A controller's file with these entries.
fn file_with(alloc: Global, entries: &[&[u8]]) -> Result<Vec<u8>, AllocError> {
    let mut file = MADE[..59].to_vec(alloc)?;
    for entry in entries {
        file.extend_from_slice(entry)?;
    }
    file.push(0)?;
    Ok(file)
}

fn words_in(alloc: Global, words: &[&str]) -> Result<Vec<String>, AllocError> {
    let mut all = Vec::new(alloc);
    for word in words {
        all.push(String::from_str(alloc, word)?)?;
    }
    Ok(all)
}

// The records whose diagnostic interrupts these are; another step counts as one for 0000h.
fn records_of(alloc: Global, sent: &[Sent]) -> Result<Vec<u16>, AllocError> {
    let mut records = Vec::new(alloc);
    for one in sent {
        let record = match &one.step {
            Step::Act {
                kind: Act::DiagInt,
                id,
            } => *id,
            _ => 0,
        };
        records.push(record)?;
    }
    Ok(records)
}

// A call with these words and this text on a board, without arrivals: the status, and what it wrote.
fn call(
    alloc: Global,
    words: &[&str],
    board: &mut MemBoard,
    text: &str,
) -> Result<(u8, MemSink), AllocError> {
    let words = words_in(alloc, words)?;
    let mut source = MemSource::new(alloc, text.as_bytes(), &[])?;
    let mut feed = MemFeed::new(alloc, &[], &[])?;
    let mut out = MemSink::new(alloc, None);
    let status = top(
        alloc,
        words.as_slice(),
        board,
        &mut source,
        &mut feed,
        &mut out,
    );
    Ok((status, out))
}

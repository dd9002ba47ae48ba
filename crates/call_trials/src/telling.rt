//! What is told of a call.
use crate::play::Played;
use board_core::{Address, MemBoard, Sent, Step, Told};
use std::alloc::{AllocError, Global};

// A longer file is told by its length.
const LONGEST: usize = 2_000;

/// Adds what came of a call on a board whose file was this one before it.
pub fn tell_call(
    alloc: Global,
    told: &mut Vec<u8>,
    played: &Played,
    before: &[u8],
    board: &MemBoard,
) -> Result<(), AllocError> {
    let status = played.status;
    tell_line(told, format!(in alloc; "status {status}")?.as_str())?;
    tell_written(told, played.out.written())?;
    for sent in board.issued() {
        tell_step(alloc, told, sent)?;
    }
    tell_file(alloc, told, before, board.octets())
}

/// Adds a line.
pub fn tell_line(told: &mut Vec<u8>, line: &str) -> Result<(), AllocError> {
    tell_parts(told, "", line.as_bytes())
}

// Adds a line of a text and octets.
fn tell_parts(told: &mut Vec<u8>, text: &str, octets: &[u8]) -> Result<(), AllocError> {
    told.extend_from_slice(text.as_bytes())?;
    told.extend_from_slice(octets)?;
    told.extend_from_slice(b"\n")
}

// Adds the lines that were written.
fn tell_written(told: &mut Vec<u8>, written: &[u8]) -> Result<(), AllocError> {
    let mut left = written;
    for _ in 0..written.len() {
        let Some((line, behind)) = first_line(left) else {
            break;
        };
        tell_parts(told, "| ", line)?;
        left = behind;
    }
    if left.is_empty() {
        return Ok(());
    }
    tell_parts(told, "|. ", left)
}

/// The first line of a text without its end, and what stands behind it: None where no line ends.
pub fn first_line(text: &[u8]) -> Option<(&[u8], &[u8])> {
    let at = text.iter().position(|octet| *octet == b'\n')?;
    let (line, rest) = text.split_at_checked(at)?;
    let (_, behind) = rest.split_first()?;
    Some((line, behind))
}

// Adds a step and its outcome.
fn tell_step(alloc: Global, told: &mut Vec<u8>, sent: &Sent) -> Result<(), AllocError> {
    let outcome = match sent.told {
        Told::Done => "done",
        Told::Failed => "failed",
    };
    match &sent.step {
        Step::Act { kind, id } => {
            told.extend_from_slice(b"issued act ")?;
            told.extend_from_slice(kind.word())?;
            tell_line(told, format!(in alloc; " {id:04x} {outcome}")?.as_str())
        }
        Step::Datagram { to, octets } => {
            let to = address_text(alloc, to)?;
            let digits = hex::encode(alloc, octets.as_slice())?;
            tell_line(
                told,
                format!(in alloc; "issued send {to} {digits} {outcome}")?.as_str(),
            )
        }
    }
}

fn address_text(alloc: Global, address: &Address) -> Result<String, AllocError> {
    let [first, second, third, fourth] = address.ip;
    let port = address.port;
    format!(in alloc; "{first}.{second}.{third}.{fourth}:{port}")
}

// Adds the file behind a call.
fn tell_file(
    alloc: Global,
    told: &mut Vec<u8>,
    before: &[u8],
    file: &[u8],
) -> Result<(), AllocError> {
    if file == before {
        return tell_line(told, "file as before");
    }
    let length = file.len();
    if length > LONGEST {
        return tell_line(told, format!(in alloc; "file of {length} octets")?.as_str());
    }
    let digits = hex::encode(alloc, file)?;
    tell_line(told, format!(in alloc; "file {digits}")?.as_str())
}

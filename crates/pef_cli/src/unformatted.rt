//! Where a file stops making sense as the state file of a machine.
use board_core::{Board, Payload};
use pef_engine::{Engine, EngineFault, Machine};
use pef_journal::{Journal, JournalFault, MAX_SETTINGS};
use std::alloc::Global;
use thiserror::Error;

/// Why a file isn't the state file of a machine. Places are in octets from 0 on.
#[derive(Clone, Copy, Debug, PartialEq, Eq, Error)]
pub enum Unformatted {
    /// It has no header of one.
    #[error("no header of a {machine}'s state file at octet 0; is it the right file, and was it made by {init}?")]
    Header {
        machine: &'static str,
        init: &'static str,
    },
    /// No whole entry stands here.
    #[error("broken at octet {at}: no whole entry stands there")]
    Broken {
        at: u64,
    },
    /// The entry that stands here is unknown, or may not come behind those before it.
    #[error("broken at octet {at}: the entry there is whole, but unknown or out of order")]
    Misplaced {
        at: u64,
    },
}

/// Looks for the place again, as the machine of this name reads the file that this form of `init` makes. None where the file could not be
/// read, or there was no memory. Writes nothing.
pub fn why_unformatted<M: Machine, B: Board>(
    alloc: Global,
    board: &mut B,
    machine: &'static str,
    init: &'static str,
) -> Option<Unformatted> {
    match Engine::<M>::open(alloc, board) {
        Ok(_) => None,
        Err(EngineFault::NotFormatted) => Some(Unformatted::Header { machine, init }),
        Err(EngineFault::Corrupt { at }) => why_corrupt::<M, B>(board, at),
        Err(_) => None,
    }
}

// Reads the entries before this place, and looks whether a whole one stands there.
fn why_corrupt<M: Machine, B: Board>(board: &mut B, at: u64) -> Option<Unformatted> {
    let mut settings = [0; MAX_SETTINGS];
    let mut journal = Journal::open(board, M::kind(), &mut settings[..M::kind().settings]).ok()?;
    let mut entry = Payload::new();
    for _ in 0..at {
        if journal.place() >= at {
            break;
        }
        let _ = journal.entry(board, &mut entry).ok()?;
    }
    match journal.entry(board, &mut entry) {
        Ok(_) => Some(Unformatted::Misplaced { at }),
        Err(JournalFault::Corrupt { at }) => Some(Unformatted::Broken { at }),
        Err(_) => None,
    }
}

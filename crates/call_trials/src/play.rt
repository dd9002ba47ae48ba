//! A call of the program on objects in memory.
use crate::supply::Supply;
use board_core::{MemBoard, MemSink, MemSource};
use pef_call::top;
use std::alloc::{AllocError, Global};

/// What a call answered and wrote.
#[derive(Drop)]
pub struct Played {
    pub status: u8,
    pub out: MemSink,
}

/// Calls the program with these words on the board, and with what else it is given.
pub fn play(
    alloc: Global,
    words: &[String],
    board: &mut MemBoard,
    supply: &Supply,
) -> Result<Played, AllocError> {
    let failing = &supply.failing;
    let mut source = MemSource::new(alloc, &supply.text, &failing.input)?;
    let mut feed = supply.arrivals.feed(alloc, &failing.feed)?;
    let mut out = MemSink::new(alloc, failing.output);
    let status = top(alloc, words, board, &mut source, &mut feed, &mut out);
    Ok(Played { status, out })
}

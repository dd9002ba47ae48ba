//! The form `listen`: taking what arrives at an address into a console's ledger.
ghost use Rattle.feed_run.specs.Top.{FeedCall, around};
ghost use Rattle.trap_console.specs.Arriving.{item_at};
ghost use Rattle.pef_call.specs.Receiving.{console_kind, AcksAreKeptOver};

use board_core::{Board, Feed, Sink};
use feed_run::listen;
use std::alloc::Global;
use trap_console::Console;

/// Takes the datagrams that the feed gives into the console of the board's file, up to so many arrivals or the end, acknowledges the
/// traps among them, and answers the status.
pub fn listen_to_traps<B: Board, F: Feed, K: Sink>(
    alloc: Global,
    board: &mut B,
    feed: &mut F,
    out: &mut K,
    arrivals: u32,
) -> u8
    ensures call { FeedCall console_kind item_at arrivals
        (around (B.view board.old) (F.arrivals feed.old) (F.faults feed.old) (K.written out.old) (K.faults out.old))
        (around (B.view board.new) (F.arrivals feed.new) (F.faults feed.new) (K.written out.new) (K.faults out.new)) result }
    ensures acks { AcksAreKeptOver (F.arrivals feed.old) (B.view board.old) (B.view board.new) }
{
    listen::<Console, B, F, K>(alloc, board, feed, out, arrivals)
}

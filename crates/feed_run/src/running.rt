//! Opening the state file, running over the feed, and the last line.
ghost use Rattle.std.specs.Prelude.{◌≡◌};
ghost use Rattle.script_run.specs.Going.{kind};
ghost use Rattle.feed_run.specs.Top.{FeedCall, around};
ghost use Rattle.feed_run.specs.Performing.{Performs, feed_ending};

use crate::listening::follow;
use crate::stop::FeedStop;
use board_core::{Board, Feed, Sink};
use pef_engine::{Engine, Fed};
use report_line::{Ending, finish};
use script_run::{ending_at_opening, ending_of_step};
use std::alloc::Global;

/// Takes what the feed gives on the machine of the board's file, up to so many arrivals or the end, and answers the status.
pub fn listen<M: Fed, B: Board, F: Feed, K: Sink>(
    alloc: Global,
    board: &mut B,
    feed: &mut F,
    out: &mut K,
    arrivals: u32,
) -> u8
    ensures { FeedCall (kind M.rules M.view M.scripts) M.item_at arrivals
        (around (B.view board.old) (F.arrivals feed.old) (F.faults feed.old) (K.written out.old) (K.faults out.old))
        (around (B.view board.new) (F.arrivals feed.new) (F.faults feed.new) (K.written out.new) (K.faults out.new)) result }
{
    let end = perform::<M, B, F, K>(alloc, board, feed, out, arrivals);
    finish(out, end)
}

// Opens the machine's file and takes what the feed gives.
fn perform<M: Fed, B: Board, F: Feed, K: Sink>(
    alloc: Global,
    board: &mut B,
    feed: &mut F,
    out: &mut K,
    arrivals: u32,
) -> Ending
    ensures { Performs (kind M.rules M.view M.scripts) M.item_at arrivals
        (around (B.view board.old) (F.arrivals feed.old) (F.faults feed.old) (K.written out.old) (K.faults out.old))
        (around (B.view board.new) (F.arrivals feed.new) (F.faults feed.new) (K.written out.new) (K.faults out.new)) result }
{
    match Engine::<M>::open(alloc, board) {
        Ok(mut engine) => ending_of(follow(&mut engine, board, feed, out, arrivals)),
        Err(fault) => ending_at_opening(fault),
    }
}

// How a run ends that was over its feed.
fn ending_of(followed: Result<u32, FeedStop>) -> Ending
    ensures { result ≡ feed_ending followed }
{
    match followed {
        Ok(count) => Ending::Done { count },
        Err(FeedStop::Unfinished { id, count }) => Ending::Unfinished { id, count },
        Err(FeedStop::Failed) => Ending::Input,
        Err(FeedStop::Step(stop)) => ending_of_step(stop),
    }
}

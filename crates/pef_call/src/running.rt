//! The forms `run` and `live`: a controller's script, and what arrives at its address.
ghost use Rattle.script_run.specs.Top.{RunCall, outside};
ghost use Rattle.script_run.specs.Going.{kind};
ghost use Rattle.feed_run.specs.Top.{FeedCall, around};
ghost use Rattle.pef_core.specs.Arriving.{item_at};
ghost use Rattle.pef_core.specs.Histories.{controller_rules};
ghost use Rattle.pef_core.specs.Report.{controller_scripts};
ghost use Rattle.pef_core.specs.View.{view_of};

use board_core::{Board, Feed, Sink, Source};
use feed_run::listen;
use pef_core::Controller;
use script_run::run;
use std::alloc::Global;

/// Runs the script that the source gives on the controller of the board's file, and answers the status.
pub fn run_script<B: Board, S: Source, K: Sink>(
    alloc: Global,
    board: &mut B,
    source: &mut S,
    out: &mut K,
) -> u8
    ensures call { RunCall (kind controller_rules view_of controller_scripts)
        (outside (B.view board.old) (S.left source.old) (S.faults source.old) (K.written out.old) (K.faults out.old))
        (outside (B.view board.new) (S.left source.new) (S.faults source.new) (K.written out.new) (K.faults out.new)) result }
{
    run::<Controller, B, S, K>(alloc, board, source, out)
}

/// Gives the frames that arrive at the feed to the controller of the board's file, up to so many arrivals or the end, and answers the
/// status.
pub fn listen_to_frames<B: Board, F: Feed, K: Sink>(
    alloc: Global,
    board: &mut B,
    feed: &mut F,
    out: &mut K,
    arrivals: u32,
) -> u8
    ensures call { FeedCall (kind controller_rules view_of controller_scripts) item_at arrivals
        (around (B.view board.old) (F.arrivals feed.old) (F.faults feed.old) (K.written out.old) (K.faults out.old))
        (around (B.view board.new) (F.arrivals feed.new) (F.faults feed.new) (K.written out.new) (K.faults out.new)) result }
{
    listen::<Controller, B, F, K>(alloc, board, feed, out, arrivals)
}

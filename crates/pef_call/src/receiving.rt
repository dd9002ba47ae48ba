//! The form `receive`: taking a capture into a console's ledger.
ghost use Rattle.script_run.specs.Top.{RunCall, outside};
ghost use Rattle.pef_call.specs.Receiving.{console_kind, AcksAreKept};

use board_core::{Board, Sink, Source};
use script_run::run;
use std::alloc::Global;
use trap_console::Console;

/// Takes the datagrams of the capture that the source gives into the console of the board's file, acknowledges the traps among them,
/// and answers the status.
pub fn receive<B: Board, S: Source, K: Sink>(
    alloc: Global,
    board: &mut B,
    source: &mut S,
    out: &mut K,
) -> u8
    ensures call { RunCall console_kind
        (outside (B.view board.old) (S.left source.old) (S.faults source.old) (K.written out.old) (K.faults out.old))
        (outside (B.view board.new) (S.left source.new) (S.faults source.new) (K.written out.new) (K.faults out.new)) result }
    ensures acks { AcksAreKept (S.left source.old) (B.view board.old) (B.view board.new) }
{
    run::<Console, B, S, K>(alloc, board, source, out)
}

//! Opening the state file, running a script, and the last line.
ghost use Rattle.std.specs.Prelude.{◌≡◌, ℕ, List};
ghost use Rattle.script_run.specs.Going.{kind};
ghost use Rattle.script_run.specs.Top.{RunCall, outside};
ghost use Rattle.script_run.specs.Performing.{Performs, script_ending, step_ending, open_ending};

use crate::playing::play;
use crate::stop::{LineStop, ScriptStop, StepStop};
use board_core::{Board, Sink, Source};
use pef_engine::{Engine, EngineFault, Scripted};
use report_line::{Ending, finish};
use std::alloc::Global;

/// Runs the script that the source gives on the machine of the board's file, and answers the status.
pub fn run<M: Scripted, B: Board, S: Source, K: Sink>(
    alloc: Global,
    board: &mut B,
    source: &mut S,
    out: &mut K,
) -> u8
    ensures { RunCall (kind M.rules M.view M.scripts)
        (outside (B.view board.old) (S.left source.old) (S.faults source.old) (K.written out.old) (K.faults out.old))
        (outside (B.view board.new) (S.left source.new) (S.faults source.new) (K.written out.new) (K.faults out.new)) result }
{
    let end = perform::<M, B, S, K>(alloc, board, source, out);
    finish(out, end)
}

// Opens the machine's file and runs the script that the source gives.
fn perform<M: Scripted, B: Board, S: Source, K: Sink>(
    alloc: Global,
    board: &mut B,
    source: &mut S,
    out: &mut K,
) -> Ending
    ensures { Performs (kind M.rules M.view M.scripts)
        (outside (B.view board.old) (S.left source.old) (S.faults source.old) (K.written out.old) (K.faults out.old))
        (outside (B.view board.new) (S.left source.new) (S.faults source.new) (K.written out.new) (K.faults out.new)) result }
{
    match Engine::<M>::open(alloc, board) {
        Ok(mut engine) => ending_of(play(&mut engine, board, source, out)),
        Err(fault) => ending_at_opening(fault),
    }
}

/// How a run ends whose file isn't opened.
pub fn ending_at_opening(fault: EngineFault) -> Ending
    ensures { result ≡ open_ending fault }
{
    match fault {
        EngineFault::NotFormatted => Ending::Unformatted,
        EngineFault::Corrupt { .. } => Ending::Unformatted,
        EngineFault::DiskFault => Ending::Disk,
        EngineFault::Full => Ending::Full,
        EngineFault::Memory(_) => Ending::Memory,
    }
}

// How a run ends that ran its script.
fn ending_of(played: Result<u32, ScriptStop>) -> Ending
    ensures { result ≡ script_ending played }
{
    match played {
        Ok(count) => Ending::Done { count },
        Err(ScriptStop::Unfinished { id, count }) => Ending::Unfinished { id, count },
        Err(ScriptStop::Lines(LineStop::Line(number))) => Ending::Line(number),
        Err(ScriptStop::Lines(LineStop::Input)) => Ending::Input,
        Err(ScriptStop::Lines(LineStop::Step(stop))) => ending_of_step(stop),
    }
}

/// How a run ends that a step stopped.
pub fn ending_of_step(stop: StepStop) -> Ending
    ensures { result ≡ step_ending stop }
{
    match stop {
        StepStop::Disk => Ending::Disk,
        StepStop::Output => Ending::Output,
        StepStop::Full => Ending::Full,
        StepStop::Memory => Ending::Memory,
    }
}

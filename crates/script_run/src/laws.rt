//! The headline of runs on a board in memory, which needs no premise on what a board tells.
ghost use Rattle.std.specs.Prelude.{◌≡◌, ℕ, List, [], IfOk, IfSome};
ghost use Rattle.board_core.specs.MemoryBoard.{memory_view};
ghost use Rattle.pef_engine.specs.declared.entry.Entry.{Entry};
ghost use Rattle.pef_engine.specs.Rules.{Lawful, Stands};
ghost use Rattle.script_run.specs.Items.{items_of_text};
ghost use Rattle.script_run.specs.InMemory.{KeepsInMemory, Repeats};

use crate::running::run;
use board_core::{MemBoard, MemSink, MemSource};
use pef_engine::{Scripted, calls_law};
use std::alloc::{AllocError, Global};

/// Runs a script on a board in memory that has this file, where the calls of the disk in this list fail. Unless a step failed, the
/// headline holds at each moment.
pub fn run_in_memory<M: Scripted>(
    alloc: Global,
    file: &[u8],
    text: &[u8],
    failing_disk: &[u64],
) -> Result<MemBoard, AllocError>
    ensures { IfOk result (λ board. (memory_view board).issue_faults ≡ 0 → (Z : List ℕ) (H : List (Entry M.Item)) → Lawful M.rules Z H → Stands M.rules Z H file.now →
        KeepsInMemory M.rules Z H [] (items_of_text M.scripts text.now H) board) }
{
    let mut board = MemBoard::new(alloc, file, failing_disk, &[])?;
    let mut source = MemSource::new(alloc, text, &[])?;
    let mut out = MemSink::new(alloc, None);
    let _ = run::<M, MemBoard, MemSource, MemSink>(alloc, &mut board, &mut source, &mut out);
    Ok(board)
}

/// Lets a crash at a moment cut off such a run, which began with no entries, and runs a script on what it leaves. Unless a step failed,
/// the steps of both runs are those that the last history prescribes, but for a repeat in each. None where there is no such moment.
pub fn run_after_crash<M: Scripted>(
    alloc: Global,
    before: &MemBoard,
    moment: u64,
    torn: u8,
    text: &[u8],
) -> Result<Option<MemBoard>, AllocError>
    ensures { IfOk result (λ last. IfSome last (λ board. (memory_view board).issue_faults ≡ 0 → (Z : List ℕ) (items : List M.Item) →
        KeepsInMemory M.rules Z [] [] items before.now → Repeats M.rules Z 2 board)) }
{
    calls_law::<M>();
    let Some(mut board) = before.crash(alloc, moment, torn)? else {
        return Ok(None);
    };
    let mut source = MemSource::new(alloc, text, &[])?;
    let mut out = MemSink::new(alloc, None);
    let _ = run::<M, MemBoard, MemSource, MemSink>(alloc, &mut board, &mut source, &mut out);
    Ok(Some(board))
}

//! The form `show`: what a controller's state file says.
ghost use Rattle.std.specs.Prelude.{◌≡◌, ◌≢◌, ◌≤◌, ℕ, List};
ghost use Rattle.board_core.specs.Causes.{Rose};
ghost use Rattle.pef_engine.specs.declared.entry.Entry.{Entry};
ghost use Rattle.report_line.specs.declared.ending.Ending.TheVariants.{Done, Output};
ghost use Rattle.pef_core.specs.Shown.{shown_page};
ghost use Rattle.pef_core.specs.View.{ShowsController};
ghost use Rattle.pef_call.specs.Listing.{IsShownEnd, Lists, controller_page, Shows, Wrote, WrotePart, sourceless};

use board_core::{Board, Sink};
use pef_core::{Controller, Item};
use pef_engine::Engine;
use report_line::{Ending, finish};
use script_run::ending_at_opening;
use std::alloc::Global;

/// Writes the page of the controller of the board's file, and answers the status. The file stays as it is.
pub fn show<B: Board, K: Sink>(alloc: Global, board: &mut B, out: &mut K) -> u8
    ensures { Lists controller_page (sourceless (B.view board.old) (K.written out.old) (K.faults out.old))
        (sourceless (B.view board.new) (K.written out.new) (K.faults out.new)) result }
{
    let end = show_file(alloc, board, out);
    finish(out, end)
}

// Shows the page, and says how the call ends.
fn show_file<B: Board, K: Sink>(alloc: Global, board: &mut B, out: &mut K) -> Ending
    ensures { Shows controller_page (sourceless (B.view board.old) (K.written out.old) (K.faults out.old))
        (sourceless (B.view board.new) (K.written out.new) (K.faults out.new)) result }
{
    match Engine::<Controller>::open(alloc, board) {
        Ok(engine) => show_page(engine.machine(), out),
        Err(fault) => ending_at_opening(fault),
    }
}

// Shows the page of this controller.
fn show_page<K: Sink>(controller: &Controller, out: &mut K) -> Ending
    ensures is_end { IsShownEnd result }
    ensures count { (count : ℕ) → result ≡ Done count → count ≡ 0 }
    ensures rows { (count : ℕ) → result ≡ Done count → (Z : List ℕ) (H : List (Entry Item)) → ShowsController controller.now Z H → Wrote (shown_page Z H) (K.written out.old) (K.written out.new) }
    ensures cut { result ≡ Output → (Z : List ℕ) (H : List (Entry Item)) → ShowsController controller.now Z H → WrotePart (shown_page Z H) (K.written out.old) (K.written out.new) }
    ensures output { result ≡ Output → Rose (K.faults out.old) (K.faults out.new) }
    ensures same { result ≢ Output → K.faults out.new ≡ K.faults out.old }
    ensures later { K.faults out.old ≤ K.faults out.new }
{
    match out.write(controller.page().as_slice()) {
        Ok(()) => Ending::Done { count: 0 },
        Err(_) => Ending::Output,
    }
}

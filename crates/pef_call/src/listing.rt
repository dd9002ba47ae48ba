//! The form `list`: showing the rows of a console's ledger.
ghost use Rattle.std.specs.Prelude.{◌≡◌, ◌≢◌, ◌≤◌, ℕ, List, length};
ghost use Rattle.board_core.specs.Causes.{Rose};
ghost use Rattle.pef_engine.specs.declared.entry.Entry.{Entry};
ghost use Rattle.report_line.specs.declared.ending.Ending.TheVariants.{Done, Output};
ghost use Rattle.trap_console.specs.Heard.{rows_of};
ghost use Rattle.trap_console.specs.Listing.{listed};
ghost use Rattle.trap_console.specs.View.{ShowsConsole};
ghost use Rattle.pef_call.specs.Listing.{IsShownEnd, Lists, ledger, Shows, Wrote, WrotePart, sourceless};

use board_core::{Board, Sink};
use pef_engine::Engine;
use report_line::{Ending, finish};
use script_run::ending_at_opening;
use std::alloc::Global;
use trap_console::{Console, Item, list as list_rows};

/// Writes a line for each row of the console of the board's file, and answers the status. The file stays as it is.
pub fn list<B: Board, K: Sink>(alloc: Global, board: &mut B, out: &mut K) -> u8
    ensures { Lists ledger (sourceless (B.view board.old) (K.written out.old) (K.faults out.old))
        (sourceless (B.view board.new) (K.written out.new) (K.faults out.new)) result }
{
    let end = list_file(alloc, board, out);
    finish(out, end)
}

// Shows the rows, and says how the call ends.
fn list_file<B: Board, K: Sink>(alloc: Global, board: &mut B, out: &mut K) -> Ending
    ensures { Shows ledger (sourceless (B.view board.old) (K.written out.old) (K.faults out.old))
        (sourceless (B.view board.new) (K.written out.new) (K.faults out.new)) result }
{
    match Engine::<Console>::open(alloc, board) {
        Ok(engine) => show_rows(engine.machine(), out),
        Err(fault) => ending_at_opening(fault),
    }
}

// Shows the rows of this console.
fn show_rows<K: Sink>(console: &Console, out: &mut K) -> Ending
    ensures is_end { IsShownEnd result }
    ensures count { (count : ℕ) → result ≡ Done count → (Z : List ℕ) (H : List (Entry Item)) → ShowsConsole console.now Z H → count ≡ length (rows_of H) }
    ensures rows { (count : ℕ) → result ≡ Done count → (Z : List ℕ) (H : List (Entry Item)) → ShowsConsole console.now Z H → Wrote (listed (rows_of H)) (K.written out.old) (K.written out.new) }
    ensures cut { result ≡ Output → (Z : List ℕ) (H : List (Entry Item)) → ShowsConsole console.now Z H → WrotePart (listed (rows_of H)) (K.written out.old) (K.written out.new) }
    ensures output { result ≡ Output → Rose (K.faults out.old) (K.faults out.new) }
    ensures same { result ≢ Output → K.faults out.new ≡ K.faults out.old }
    ensures later { K.faults out.old ≤ K.faults out.new }
{
    let count = console.rows().len() as u32;
    match list_rows(console, out) {
        Ok(()) => Ending::Done { count },
        Err(_) => Ending::Output,
    }
}

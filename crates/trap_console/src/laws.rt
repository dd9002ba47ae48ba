// What holds of all datagrams and histories, over definitions alone.
ghost use Rattle.std.specs.Prelude.{◌≡◌, ℕ, List};
ghost use Rattle.board_core.specs.declared.step.Address.{Address};
ghost use Rattle.board_core.specs.declared.step.Step.{Step};
ghost use Rattle.pef_engine.specs.declared.entry.Entry.{Entry};
ghost use Rattle.trap_console.specs.Received.{received, ReceivesTraps};
ghost use Rattle.trap_console.specs.Heard.{rows_of};
ghost use Rattle.trap_console.specs.Firsts.{traps_of, firsts};
ghost use Rattle.trap_console.specs.Acks.{AcksAreRows};

use crate::item::Item;

/// A datagram is a row exactly where the grammar says that it is a trap, and is refused exactly where and why the grammar's refusals
/// say so.
pub fn received_law()
    ensures { (from : Address) (octets : List ℕ) → ReceivesTraps from octets (received from octets) }
{}

/// The rows of a history are its traps without repeats: of each key the first, in the order in which they arrived.
pub fn rows_law()
    ensures { (H : List (Entry Item)) → rows_of H ≡ firsts (traps_of H) }
{}

/// Whatever is issued while a console's file goes from one history to a longer one acknowledges a trap whose key has a row in the longer
/// one. So a crash at any moment leaves each acknowledged trap in the file.
pub fn acks_law()
    ensures { (Z : List ℕ) (H K : List (Entry Item)) (steps : List Step) → AcksAreRows Z H K steps }
{}

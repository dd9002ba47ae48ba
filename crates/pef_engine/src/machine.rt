//! A machine over a history of entries.
ghost use Rattle.std.specs.Prelude.{◌≡◌, ◌↔◌, ◌<◌, ◌≤◌, ℕ, List, [], ◌∷◌, ◌++◌, length, Option, Some, IfOk, OnOk, OnErr, IsErr, IsErrOf, IsTrue, IsSome};
ghost use Rattle.board_core.specs.declared.step.Step.{Step};
ghost use Rattle.pef_journal.specs.Image.{IsFileKind};
ghost use Rattle.pef_engine.specs.Rules.{Rules, Decodes, IsOutcome, Allowed};
ghost use Rattle.pef_engine.specs.declared.entry.Entry.{Entry};
ghost use Rattle.pef_engine.specs.declared.entry.Entry.TheVariants.{Outcome};
ghost use Rattle.board_core.specs.declared.step.Told.{Told};
ghost use Rattle.pef_engine.specs.MachineView.{MachineView, KeepsAllButReady, IsReadyFor, GoesOn, Agrees};

use crate::entry::Entry;
use crate::faults::MachineFault;
use board_core::{Payload, Step};
use pef_journal::FileKind;
use std::alloc::{AllocError, Global};

/// A state that a history of entries leads to, with the step that is due there. It knows nothing of files.
pub trait Machine: Sized + Drop {
    /// What it takes.
    type Item: Drop;

    /// What its histories mean.
    ghost rules: { Rules Self.Item };

    /// All that is said of one machine.
    ghost view: { Self → MachineView Self.Item };

    /// The kind of its state file.
    fn kind() -> FileKind
        ensures kind { result ≡ rules.kind }
        // a file has room for its settings
        ensures fits { IsFileKind rules.kind };

    /// The machine of the empty history.
    fn fresh(alloc: Global, settings: &[u8]) -> Result<Self, AllocError>
        requires { length settings.now ≡ rules.kind.settings }
        ensures { IfOk result (λ machine. (view machine).shows settings.now []) };

    /// True where the entry may come next: an outcome where a step is due, an item where none is and its own rule holds.
    fn allows(&self, entry: &Entry<Self::Item>) -> bool
        ensures { IsTrue result ↔ (view self.now).allowed entry.now };

    /// Makes the room that the item needs. `Full` exactly if the machine's own limit is exceeded, unless it is out of memory first,
    /// which only a machine that takes memory can be. Nothing but that room changes.
    fn prepare(&mut self, item: &Self::Item) -> Result<(), MachineFault>
        ensures same { KeepsAllButReady (view self.old) (view self.new) }
        ensures ready { OnOk result ((view self.new).ready item.now) }
        ensures full { IsErrOf result MachineFault.Full → (view self.old).over item.now }
        ensures over { (view self.old).over item.now → IsErr result }
        ensures memory { IsErr result → (IsErrOf result MachineFault.Full → ⊥) → IsTrue rules.takes_memory };

    /// Goes on with an entry that is allowed and, where it's an item, made ready. Takes no memory.
    fn apply(&mut self, entry: &Entry<Self::Item>)
        requires allowed { (view self.old).allowed entry.now }
        requires ready { IsReadyFor (view self.old) entry.now }
        ensures shows { GoesOn rules (view self.old) (view self.new) entry.now }
        ensures left { IsOutcome entry.now → (view self.new).left < (view self.old).left };

    /// The step that is due.
    fn next(&self) -> Option<Step>
        ensures { result ≡ (view self.now).due };

    /// The octets of an entry.
    fn encode_entry(entry: &Entry<Self::Item>) -> Payload
        ensures { result ≡ rules.encode entry.now };

    /// The entry whose octets these are, and None where they are those of none.
    fn decode_entry(octets: &[u8]) -> Option<Entry<Self::Item>>
        ensures { Decodes rules octets.now result };

    /// What it answers is what its history means.
    ghost agrees: { (machine : Self) → Agrees rules (view machine) };

    /// An outcome takes the same room whatever was told.
    ghost same_size: { (one other : Told) → length (rules.encode (Outcome one)) ≡ length (rules.encode (Outcome other)) };

    /// What a history may take is a value that the code can hold.
    ghost are_entries: { (Z : List ℕ) (H : List (Entry Self.Item)) (entry : Entry Self.Item) → Allowed rules Z H entry → rules.is_entry entry };

    /// No entry is without octets.
    ghost some_octet: { (entry : Entry Self.Item) → 1 ≤ length (rules.encode entry) };
}

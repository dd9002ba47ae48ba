//! A machine with its journal: each entry is stored before the next step is issued.
ghost use Rattle.std.specs.Prelude.{◌≡◌, ◌⊎◌, ◌↔◌, ◌<◌, ◌≤◌, ℕ, List, [], ◌∷◌, ◌++◌, length, Option, Some, None, IfOk, OnOk, OnErr, IsErr, IsErrOf, IsTrue, IsSome, Result};
ghost use Rattle.board_core.specs.Causes.{Rose};
ghost use Rattle.board_core.specs.declared.step.Sent.{Sent};
ghost use Rattle.board_core.specs.Board.{IsFileRun};
ghost use Rattle.pef_engine.specs.declared.entry.Entry.{Entry};
ghost use Rattle.pef_engine.specs.declared.entry.Entry.TheVariants.{Outcome};
ghost use Rattle.pef_engine.specs.Rules.{Rules, IsItem, IsOutcome};
ghost use Rattle.pef_engine.specs.MachineView.{MachineView, IsOverFor, IsReadyFor, KeepsAllButReady, GoesOn};
ghost use Rattle.pef_engine.specs.Engine.{Holds, IsLive, HasPlace, Counts, AfterStore, AfterTake, AfterSettle, HasRoomForOutcome, HasRoomForEntry};

use crate::entry::Entry;
use crate::faults::{EngineFault, MachineFault};
use crate::machine::Machine;
use board_core::{Board, Told};
use pef_journal::{Journal, JournalFault};

/// A machine and the journal of its history, open on a board.
#[derive(Drop)]
pub struct Engine<M: Machine> {
    pub(crate) machine: M,
    pub(crate) journal: Journal,
    // no append has failed
    pub(crate) live: bool,
}

impl<M: Machine> Engine<M> {
    /// Stores and applies one item. At `Ok` each crash leaves a file that has it, and on the way one that has it or not.
    /// `Full` and `Memory` change nothing but the machine's room; after `DiskFault`, and only then, the engine isn't live.
    pub fn take<B: Board>(
        &mut self,
        board: &mut B,
        entry: &Entry<M::Item>,
    ) -> Result<(), EngineFault>
        requires live { IsLive self.old }
        requires item { IsItem entry.now }
        requires allowed { (M.view self.old.machine).allowed entry.now }
        requires place { HasPlace (B.view board.old) self.old }
        ensures taken { IsTrue (B.view board.new).tells → (Z : List ℕ) (H : List (Entry M.Item)) →
            Holds M.rules M.view Z H (B.view board.old) self.old →
            AfterTake M.rules M.view Z H entry.now (B.view board.old) (B.view board.new) self.new result }
        ensures full { IsErrOf result EngineFault.Full → IsOverFor (M.view self.old.machine) entry.now ⊎ (HasRoomForEntry M.rules self.old entry.now → ⊥) }
        ensures over { IsOverFor (M.view self.old.machine) entry.now ⊎ (HasRoomForEntry M.rules self.old entry.now → ⊥) →
            IsErrOf result EngineFault.Full ⊎ (IsErr result × IsTrue M.rules.takes_memory) }
        ensures other { IsErr result → IsErrOf result EngineFault.Full ⊎ (IsErrOf result EngineFault.DiskFault ⊎ IsTrue M.rules.takes_memory) }
        ensures never { (IsErrOf result EngineFault.NotFormatted → ⊥) × ((at : _) → IsErrOf result (EngineFault.Corrupt at) → ⊥) }
        ensures fits { OnOk result (HasRoomForEntry M.rules self.old entry.now) }
        ensures goes_on { OnOk result (GoesOn M.rules (M.view self.old.machine) (M.view self.new.machine) entry.now) }
        ensures refused { OnErr result (KeepsAllButReady (M.view self.old.machine) (M.view self.new.machine)) }
        ensures unchanged { IsErr result → (IsErrOf result EngineFault.DiskFault → ⊥) → (board.new ≡ board.old) × ((self.new.journal ≡ self.old.journal) × (self.new.live ≡ self.old.live)) }
        ensures live { IsLive self.new ↔ (IsErrOf result EngineFault.DiskFault → ⊥) }
        ensures counts { Counts (B.view board.old) (B.view board.new) (IsErrOf result EngineFault.DiskFault) }
        ensures place { IsLive self.new → HasPlace (B.view board.new) self.new }
        ensures run { IsFileRun (B.view board.old) (B.view board.new) }
    {
        make_ready(&mut self.machine, entry)?;
        self.store(board, entry)
    }

    /// Issues the step that is due once, and stores what it was told. None exactly where no step is due. `Full` is tested
    /// before the step is issued, and then nothing changes. After `DiskFault`, and only then, the engine isn't live.
    pub fn settle<B: Board>(&mut self, board: &mut B) -> Result<Option<Told>, EngineFault>
        requires live { IsLive self.old }
        requires place { HasPlace (B.view board.old) self.old }
        ensures settled { IsTrue (B.view board.new).tells → (Z : List ℕ) (H : List (Entry M.Item)) →
            Holds M.rules M.view Z H (B.view board.old) self.old →
            AfterSettle M.rules M.view Z H (B.view board.old) (B.view board.new) self.new result }
        ensures once { IsTrue (B.view board.new).tells → ((B.view board.new).sent ≡ (B.view board.old).sent)
            ⊎ ((one : Sent) × ((B.view board.new).sent ≡ (B.view board.old).sent ++ one ∷ [])) }
        ensures none { IfOk result (λ told. (told ≡ None) ↔ ((M.view self.old.machine).due ≡ None)) }
        ensures goes_on { IfOk result (λ told. (given : _) → told ≡ Some given → GoesOn M.rules (M.view self.old.machine) (M.view self.new.machine) (Outcome given)) }
        ensures idle { IfOk result (λ told. told ≡ None → (self.new ≡ self.old) × (board.new ≡ board.old)) }
        ensures fewer { IfOk result (λ told. IsSome told → (M.view self.new.machine).left < (M.view self.old.machine).left) }
        ensures fits { IfOk result (λ told. IsSome told → HasRoomForOutcome M.rules self.old) }
        ensures full { IsErrOf result EngineFault.Full ↔ (IsSome (M.view self.old.machine).due × (HasRoomForOutcome M.rules self.old → ⊥)) }
        ensures unchanged { IsErrOf result EngineFault.Full → (board.new ≡ board.old) × (self.new ≡ self.old) }
        ensures live { IsLive self.new ↔ (IsErrOf result EngineFault.DiskFault → ⊥) }
        ensures counts { Counts (B.view board.old) (B.view board.new) (IsErrOf result EngineFault.DiskFault) }
        ensures causes { IsErr result → IsErrOf result EngineFault.Full ⊎ IsErrOf result EngineFault.DiskFault }
        ensures place { IsLive self.new → HasPlace (B.view board.new) self.new }
    {
        let Some(step) = self.machine.next() else {
            return Ok(None);
        };
        if !self.has_room_for_outcome() {
            return Err(EngineFault::Full);
        }
        let told = board.issue(&step);
        self.store(board, &Entry::Outcome(told))?;
        Ok(Some(told))
    }

    // True where an outcome fits, which takes the same room whatever was told.
    fn has_room_for_outcome(&self) -> bool
        ensures { IsTrue result ↔ HasRoomForOutcome M.rules self.now }
    {
        let payload = M::encode_entry(&Entry::Outcome(Told::Done));
        self.journal.room(payload.as_slice().len())
    }

    // Stores an entry that may come and that the machine is ready for, and goes on with it.
    fn store<B: Board>(&mut self, board: &mut B, entry: &Entry<M::Item>) -> Result<(), EngineFault>
        requires live { IsLive self.old }
        requires allowed { (M.view self.old.machine).allowed entry.now }
        requires ready { IsReadyFor (M.view self.old.machine) entry.now }
        requires place { HasPlace (B.view board.old) self.old }
        ensures stored { IsTrue (B.view board.new).tells → (Z : List ℕ) (H : List (Entry M.Item)) →
            Holds M.rules M.view Z H (B.view board.old) self.old →
            AfterStore M.rules M.view Z H entry.now (B.view board.old) (B.view board.new) self.new result }
        ensures full { IsErrOf result EngineFault.Full ↔ (HasRoomForEntry M.rules self.old entry.now → ⊥) }
        ensures fits { OnOk result (HasRoomForEntry M.rules self.old entry.now) }
        ensures other { IsErr result → IsErrOf result EngineFault.Full ⊎ IsErrOf result EngineFault.DiskFault }
        ensures goes_on { OnOk result (GoesOn M.rules (M.view self.old.machine) (M.view self.new.machine) entry.now) }
        ensures fewer { OnOk result (IsOutcome entry.now → (M.view self.new.machine).left < (M.view self.old.machine).left) }
        ensures unchanged { IsErrOf result EngineFault.Full → (board.new ≡ board.old) × (self.new ≡ self.old) }
        ensures kept { OnErr result (self.new.machine ≡ self.old.machine) }
        ensures live { IsLive self.new ↔ (IsErrOf result EngineFault.DiskFault → ⊥) }
        ensures counts { Counts (B.view board.old) (B.view board.new) (IsErrOf result EngineFault.DiskFault) }
        ensures place { IsLive self.new → HasPlace (B.view board.new) self.new }
        ensures run { IsFileRun (B.view board.old) (B.view board.new) }
    {
        let payload = M::encode_entry(entry);
        match self.journal.append(board, &payload) {
            Ok(()) => {}
            Err(fault) => {
                self.live = fault == JournalFault::Full;
                return Err(EngineFault::from(fault));
            }
        }
        self.machine.apply(entry);
        Ok(())
    }

    /// True where all entries were read, and no append has failed since.
    pub fn live(&self) -> bool
        ensures { IsTrue result ↔ IsLive self.now }
    {
        self.live && self.journal.has_ended()
    }

    /// The machine of the history so far.
    pub fn machine(&self) -> &M
        ensures { result.now ≡ self.now.machine }
    {
        &self.machine
    }
}

// Makes the room that an entry needs.
pub(crate) fn make_ready<M: Machine>(
    machine: &mut M,
    entry: &Entry<M::Item>,
) -> Result<(), EngineFault>
    ensures same { KeepsAllButReady (M.view machine.old) (M.view machine.new) }
    ensures ready { OnOk result (IsReadyFor (M.view machine.new) entry.now) }
    ensures full { IsErrOf result EngineFault.Full → IsOverFor (M.view machine.old) entry.now }
    ensures over { IsOverFor (M.view machine.old) entry.now → IsErr result }
    ensures memory { IsErr result → (IsErrOf result EngineFault.Full → ⊥) → IsTrue M.rules.takes_memory }
    ensures other { (IsErrOf result EngineFault.DiskFault → ⊥) × (IsErrOf result EngineFault.NotFormatted → ⊥) × ((at : _) → IsErrOf result (EngineFault.Corrupt at) → ⊥) }
{
    match entry {
        Entry::Outcome(_) => Ok(()),
        Entry::Item(item) => match machine.prepare(item) {
            Ok(()) => Ok(()),
            Err(MachineFault::Memory(error)) => Err(EngineFault::Memory(error)),
            Err(MachineFault::Full) => Err(EngineFault::Full),
        },
    }
}

//! Adding an entry behind the last.
ghost use Rattle.std.specs.Prelude.{◌≡◌, ◌⊎◌, ◌↔◌, ◌+◌, ◌^◌, ◌<◌, ◌≤◌, ℕ, List, [], ◌∷◌, ◌++◌, length, IsTrue, OnOk, OnErr, IsErrOf};
ghost use Rattle.board_core.specs.Causes.{HasCause, Rose};
ghost use Rattle.board_core.specs.Board.{Only, LeavesOnly, HasRoomFor, Holds, SameSteps, IsFileRun};
ghost use Rattle.pef_journal.specs.declared.kind.FileKind.{FileKind};
ghost use Rattle.pef_journal.specs.Image.{frame};
ghost use Rattle.pef_journal.specs.Journal.{IsAtEnd, HasEnded, HasRoom, StandsForEither, LeavesTorn};

use crate::JournalFault;
use crate::journal::Journal;
use crate::layout::{OPEN, frame_of};
use crate::writing::write_synced;
use board_core::{Board, DiskFailed, Payload};

impl Journal {
    /// Adds an entry of 1 to 520 octets behind the last. At `Ok` each crash leaves a file that has it. `Full` where `room`
    /// is false, and nothing changes. After `DiskFault` the journal must be opened again: the file has the entry or not.
    pub fn append<B: Board>(&mut self, board: &mut B, payload: &Payload) -> Result<(), JournalFault>
        requires ended { HasEnded self.old }
        requires payload { 0 < length payload.now }
        requires place { HasRoomFor (B.view board.old) (self.old.place + 1) }
        ensures added { IsTrue (B.view board.new).tells → (kind : FileKind) (settings : List ℕ) (entries : List (List ℕ)) →
            IsAtEnd kind settings entries (B.view board.old) self.old →
            OnOk result (IsAtEnd kind settings (entries ++ payload.now ∷ []) (B.view board.new) self.new) }
        // the gate is opened, and behind it stand the length, the payload and the next gate
        ensures written { IsTrue (B.view board.new).tells → OnOk result
            (Holds (B.view board.old).octets self.old.place (165 ∷ frame payload.now) (B.view board.new).octets) }
        // a crash at any moment of the call leaves the entries, with the new one or without
        ensures any_moment { IsTrue (B.view board.new).tells → (kind : FileKind) (settings : List ℕ) (entries : List (List ℕ)) →
            IsAtEnd kind settings entries (B.view board.old) self.old →
            LeavesOnly (B.view board.old) (B.view board.new)
            (λ left. SameSteps (B.view board.old) left × StandsForEither kind settings entries payload.now left.image) }
        ensures run { IsFileRun (B.view board.old) (B.view board.new) }
        ensures full { IsErrOf result JournalFault.Full ↔ (HasRoom self.old (length payload.now) → ⊥) }
        ensures unchanged { IsErrOf result JournalFault.Full → (board.new ≡ board.old) × (self.new ≡ self.old) }
        ensures disk { IsErrOf result JournalFault.DiskFault → Rose (B.view board.old).disk_faults (B.view board.new).disk_faults }
        // a count that rose is told
        ensures counted { (IsErrOf result JournalFault.DiskFault → ⊥) → (B.view board.new).disk_faults ≡ (B.view board.old).disk_faults }
        ensures other { OnErr result (IsErrOf result JournalFault.Full ⊎ IsErrOf result JournalFault.DiskFault) }
        ensures place { OnOk result (HasRoomFor (B.view board.new) (self.new.place + 1)) }
        ensures stays { HasEnded self.new }
    {
        payload.fits();
        let length = payload.as_slice().len();
        if !self.room(length) {
            return Err(JournalFault::Full);
        }
        // until this is done, behind an open gate anything might stand
        write_behind(board, self.place, payload)?;
        open_gate(board, self.place)?;
        self.place += 3 + length as u64;
        Ok(())
    }
}

// Writes what stands behind the gate at a place, up to the next gate, and syncs. The gate stays as it is.
fn write_behind<B: Board>(board: &mut B, place: u64, payload: &Payload) -> Result<(), DiskFailed>
    requires place { HasRoomFor (B.view board.old) (place + 1) }
    requires end { place + 1000 ≤ 2 ^ 40 }
    ensures written { IsTrue (B.view board.new).tells → OnOk result
        (Holds (B.view board.old).octets (place + 1) (frame payload.now) (B.view board.new).octets) }
    ensures lasting { IsTrue (B.view board.new).tells → OnOk result (Only (B.view board.new).octets (B.view board.new).images) }
    ensures any_moment { IsTrue (B.view board.new).tells →
        LeavesOnly (B.view board.old) (B.view board.new) (LeavesTorn (place + 1) (length (frame payload.now)) (B.view board.old)) }
    ensures run { IsFileRun (B.view board.old) (B.view board.new) }
    ensures cause { HasCause (B.view board.old).disk_faults (B.view board.new).disk_faults result }
{
    let frame = frame_of(payload);
    frame.fits();
    write_synced(board, place + 1, frame.as_slice())
}

// Opens the gate at a place, and syncs.
fn open_gate<B: Board>(board: &mut B, place: u64) -> Result<(), DiskFailed>
    requires place { HasRoomFor (B.view board.old) place }
    requires end { place + 1000 ≤ 2 ^ 40 }
    ensures written { IsTrue (B.view board.new).tells → OnOk result
        (Holds (B.view board.old).octets place (165 ∷ []) (B.view board.new).octets) }
    ensures lasting { IsTrue (B.view board.new).tells → OnOk result (Only (B.view board.new).octets (B.view board.new).images) }
    ensures any_moment { IsTrue (B.view board.new).tells →
        LeavesOnly (B.view board.old) (B.view board.new) (LeavesTorn place 1 (B.view board.old)) }
    ensures run { IsFileRun (B.view board.old) (B.view board.new) }
    ensures cause { HasCause (B.view board.old).disk_faults (B.view board.new).disk_faults result }
{
    write_synced(board, place, &[OPEN])
}

//! Reading the entries from the first gate on.
ghost use Rattle.std.specs.Prelude.{◌≡◌, ◌⊎◌, ◌↔◌, ◌+◌, ◌≤◌, ◌<◌, ℕ, List, length, IsTrue, IfOk, OnOk, OnErr, IsErr, IsErrOf, Bool, true, false};
ghost use Rattle.board_core.specs.Causes.{Rose};
ghost use Rattle.board_core.specs.Board.{HasRoomFor, Reads};
ghost use Rattle.pef_journal.specs.declared.kind.FileKind.{FileKind};
ghost use Rattle.pef_journal.specs.Image.{IsCorruptAt};
ghost use Rattle.pef_journal.specs.Journal.{IsAt, HasRead, HasEnded, GivesEntry, ReadsOn, Finds};

use crate::JournalFault;
use crate::gate::{Gate, read_gate, read_octets};
use crate::journal::Journal;
use board_core::{Board, Payload};

impl Journal {
    /// Hands out the next entry in `out`, or answers false at the first closed gate. `Corrupt` if the gate lies beyond the file's end, or
    /// if it is open and the file doesn't hold a whole entry (1 to 520 octets) and the next gate behind it; `DiskFault` only at a fault.
    /// It makes one call of `len` and at most two of `read_at`, and takes no memory.
    pub fn entry<B: Board>(
        &mut self,
        board: &mut B,
        out: &mut Payload,
    ) -> Result<bool, JournalFault>
        ensures file { Reads (B.view board.old) (B.view board.new) }
        ensures entry { IsTrue (B.view board.new).tells → (kind : FileKind) (settings : List ℕ) (before after : List (List ℕ)) →
            IsAt kind settings before after (B.view board.old) self.old →
            IfOk result (GivesEntry kind settings before after (B.view board.new) self.new out.new) }
        // where the file holds entries, only the disk stops the reading
        ensures whole { IsTrue (B.view board.new).tells → (kind : FileKind) (settings : List ℕ) (before after : List (List ℕ)) →
            IsAt kind settings before after (B.view board.old) self.old →
            OnErr result (IsErrOf result JournalFault.DiskFault) }
        ensures reads { IsTrue (B.view board.new).tells → (kind : FileKind) (settings : List ℕ) (before : List (List ℕ)) →
            HasRead kind settings before (B.view board.old) self.old →
            IfOk result (ReadsOn kind settings before (B.view board.new) self.new out.new) }
        // what is at the gate decides the answer
        ensures finds { IsTrue (B.view board.new).tells → Finds (B.view board.old).octets self.old.place out.new result }
        ensures is_corrupt { IsTrue (B.view board.new).tells → IsCorruptAt (B.view board.old).octets self.old.place → IsErr result }
        ensures other { OnErr result (IsErrOf result (JournalFault.Corrupt self.old.place)
            ⊎ IsErrOf result JournalFault.DiskFault) }
        ensures disk { IsErrOf result JournalFault.DiskFault → Rose (B.view board.old).disk_faults (B.view board.new).disk_faults }
        // a count that rose is told
        ensures counted { (IsErrOf result JournalFault.DiskFault → ⊥) → (B.view board.new).disk_faults ≡ (B.view board.old).disk_faults }
        ensures ended { IfOk result (λ more. (more ≡ false) ↔ HasEnded self.new) }
        ensures grows { IfOk result (λ more. more ≡ true → self.old.place < self.new.place) }
        ensures stays { OnErr result (self.new ≡ self.old) }
        ensures last { IfOk result (λ more. more ≡ false → (self.new.place ≡ self.old.place) × (out.new ≡ out.old)) }
        ensures place { OnOk result (HasRoomFor (B.view board.new) (self.new.place + 1)) }
    {
        let length = match read_gate(board, self.place)? {
            Gate::Open(length) => length,
            Gate::Closed => {
                self.ended = true;
                return Ok(false);
            }
            Gate::Corrupt => return Err(JournalFault::Corrupt { at: self.place }),
        };
        read_octets(board, self.place + 3, length, out)?;
        self.place += 3 + length as u64;
        self.ended = false;
        Ok(true)
    }
}

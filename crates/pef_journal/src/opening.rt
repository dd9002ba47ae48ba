//! Opening a journal.
ghost use Rattle.std.specs.Prelude.{◌≡◌, ◌⊎◌, ◌+◌, ◌≤◌, ℕ, List, [], length, IsTrue, IfOk, OnOk, OnErr, IsErr, IsErrOf};
ghost use Rattle.board_core.specs.Causes.{Rose};
ghost use Rattle.board_core.specs.Board.{HasRoomFor, IsFileRun, SyncsFirst, NeverSynced};
ghost use Rattle.pef_journal.specs.Image.{Stands, HasSettingsLength, IsForKind};
ghost use Rattle.pef_journal.specs.Journal.{IsAt, HasRead, LeavesAsRead, HasEnded};

use crate::JournalFault;
use crate::journal::Journal;
use crate::kind::FileKind;
use crate::layout::{SETTINGS, head_of};
use crate::syncing::synced_length;
use board_core::Board;

impl Journal {
    /// Begins with a sync, reads the settings and stands before the first entry. `settings` has the length of the kind's
    /// settings. `NotFormatted` where the octets aren't those of a file of this kind, `DiskFault` only at a fault.
    pub fn open<B: Board>(
        board: &mut B,
        kind: FileKind,
        settings: &mut [u8],
    ) -> Result<Journal, JournalFault>
        requires { HasSettingsLength kind settings.old }
        // once the sync is done, a crash leaves just what a read gives
        ensures synced { IsTrue (B.view board.new).tells →
            NeverSynced (B.view board.old) (B.view board.new)
            ⊎ SyncsFirst (B.view board.old) (B.view board.new) (LeavesAsRead (B.view board.old)) }
        ensures ok { IsTrue (B.view board.new).tells →
            OnOk result (SyncsFirst (B.view board.old) (B.view board.new) (LeavesAsRead (B.view board.old))) }
        ensures octets { IsTrue (B.view board.new).tells → (B.view board.new).octets ≡ (B.view board.old).octets }
        ensures run { IsFileRun (B.view board.old) (B.view board.new) }
        ensures opened { IsTrue (B.view board.new).tells → IfOk result (λ journal.
            (Z : List ℕ) (entries : List (List ℕ)) → Stands kind Z entries (B.view board.old).octets →
            (settings.new ≡ Z) × IsAt kind Z [] entries (B.view board.new) journal) }
        ensures read { IsTrue (B.view board.new).tells → IfOk result (λ journal.
            HasRead kind settings.new [] (B.view board.new) journal) }
        ensures unformatted { IsTrue (B.view board.new).tells →
            IsErrOf result JournalFault.NotFormatted → IsForKind kind (B.view board.old).octets → ⊥ }
        ensures is_unformatted { IsTrue (B.view board.new).tells →
            (IsForKind kind (B.view board.old).octets → ⊥) → IsErr result }
        ensures disk { IsErrOf result JournalFault.DiskFault → Rose (B.view board.old).disk_faults (B.view board.new).disk_faults }
        // a count that rose is told
        ensures counted { (IsErrOf result JournalFault.DiskFault → ⊥) → (B.view board.new).disk_faults ≡ (B.view board.old).disk_faults }
        ensures other { OnErr result (IsErrOf result JournalFault.NotFormatted ⊎ IsErrOf result JournalFault.DiskFault) }
        ensures place { IfOk result (λ journal. HasRoomFor (B.view board.new) (journal.place + 1)) }
        ensures begins { IfOk result (λ journal. HasEnded journal → ⊥) }
    {
        let file_length = synced_length(board)?;
        let first_gate = SETTINGS + settings.len() as u64;
        if file_length <= first_gate {
            return Err(JournalFault::NotFormatted);
        }
        let mut head = [0; 4];
        board.read_at(0, &mut head)?;
        if head != head_of(kind.number, settings.len()) {
            return Err(JournalFault::NotFormatted);
        }
        board.read_at(SETTINGS, settings)?;
        Ok(Journal {
            place: first_gate,
            ended: false,
        })
    }
}

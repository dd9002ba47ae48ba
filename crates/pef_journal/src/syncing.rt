//! How each work on a file begins.
ghost use Rattle.std.specs.Prelude.{◌≡◌, ◌⊎◌, length, IsTrue, IfOk, OnOk, OnErr};
ghost use Rattle.board_core.specs.Causes.{HasCause};
ghost use Rattle.board_core.specs.Board.{Only, IsFileRun, SyncsFirst, NeverSynced};
ghost use Rattle.pef_journal.specs.Journal.{LeavesAsRead};

use board_core::{Board, DiskFailed};

/// Syncs what a read gives, and answers the file's length.
pub fn synced_length<B: Board>(board: &mut B) -> Result<u64, DiskFailed>
    ensures length { IsTrue (B.view board.new).tells → IfOk result (λ n. n ≡ length (B.view board.old).octets) }
    ensures octets { IsTrue (B.view board.new).tells → (B.view board.new).octets ≡ (B.view board.old).octets }
    ensures lasting { IsTrue (B.view board.new).tells → OnOk result (Only (B.view board.new).octets (B.view board.new).images) }
    // once the sync is done, a crash leaves just what a read gives
    ensures synced { IsTrue (B.view board.new).tells →
        NeverSynced (B.view board.old) (B.view board.new)
        ⊎ SyncsFirst (B.view board.old) (B.view board.new) (LeavesAsRead (B.view board.old)) }
    ensures ok { IsTrue (B.view board.new).tells →
        OnOk result (SyncsFirst (B.view board.old) (B.view board.new) (LeavesAsRead (B.view board.old))) }
    ensures run { IsFileRun (B.view board.old) (B.view board.new) }
    ensures cause { HasCause (B.view board.old).disk_faults (B.view board.new).disk_faults result }
{
    sync_first(board)?;
    board.len()
}

// Syncs what a read gives.
fn sync_first<B: Board>(board: &mut B) -> Result<(), DiskFailed>
    ensures octets { IsTrue (B.view board.new).tells → (B.view board.new).octets ≡ (B.view board.old).octets }
    ensures lasting { IsTrue (B.view board.new).tells → OnOk result (Only (B.view board.new).octets (B.view board.new).images) }
    ensures never { IsTrue (B.view board.new).tells → OnErr result (NeverSynced (B.view board.old) (B.view board.new)) }
    ensures ok { IsTrue (B.view board.new).tells →
        OnOk result (SyncsFirst (B.view board.old) (B.view board.new) (LeavesAsRead (B.view board.old))) }
    ensures run { IsFileRun (B.view board.old) (B.view board.new) }
    ensures cause { HasCause (B.view board.old).disk_faults (B.view board.new).disk_faults result }
{
    board.sync()
}

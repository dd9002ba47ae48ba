//! How octets are made to last.
ghost use Rattle.std.specs.Prelude.{◌+◌, ◌^◌, ◌≤◌, length, IsTrue, OnOk};
ghost use Rattle.board_core.specs.Causes.{HasCause};
ghost use Rattle.board_core.specs.Board.{Only, Holds, HasRoomFor, LeavesOnly, IsFileRun};
ghost use Rattle.pef_journal.specs.Journal.{LeavesTorn};

use board_core::{Board, DiskFailed};

/// Writes octets from a place on, and syncs.
pub fn write_synced<B: Board>(board: &mut B, place: u64, octets: &[u8]) -> Result<(), DiskFailed>
    requires place { HasRoomFor (B.view board.old) place }
    requires end { place + length octets.now ≤ 2 ^ 40 }
    ensures written { IsTrue (B.view board.new).tells → OnOk result (Holds (B.view board.old).octets place octets.now (B.view board.new).octets) }
    ensures lasting { IsTrue (B.view board.new).tells → OnOk result (Only (B.view board.new).octets (B.view board.new).images) }
    ensures any_moment { IsTrue (B.view board.new).tells →
        LeavesOnly (B.view board.old) (B.view board.new) (LeavesTorn place (length octets.now) (B.view board.old)) }
    ensures run { IsFileRun (B.view board.old) (B.view board.new) }
    ensures cause { HasCause (B.view board.old).disk_faults (B.view board.new).disk_faults result }
{
    board.write_at(place, octets)?;
    board.sync()
}

//! Making a file that holds no entries, and telling whether a file is formatted.
ghost use Rattle.std.specs.Prelude.{◌≡◌, ◌⊎◌, ◌+◌, ◌≤◌, ◌↔◌, true, false, [], ◌∷◌, ◌++◌, length, drop, IsTrue, IfOk, OnOk};
ghost use Rattle.std.specs.List.{list_any};
ghost use Rattle.board_core.specs.Causes.{HasCause};
ghost use Rattle.board_core.specs.Board.{Only, LeavesOnly, SameSteps, IsFileRun, Reads, Holds, SyncsFirst, NeverSynced};
ghost use Rattle.pef_journal.specs.Format.{body, MayBeMarked, IsUnmarked, LeavesUnmarked, LeavesMaking, has_head};
ghost use Rattle.pef_journal.specs.Image.{header, IsFormatted, Stands, HasSettingsLength};
ghost use Rattle.pef_journal.specs.Journal.{LeavesAsRead, LeavesTorn};

use crate::kind::{FileKind, MAX_SETTINGS};
use crate::layout::{CLOSED, OPEN, SETTINGS, head_of};
use crate::syncing::synced_length;
use crate::writing::write_synced;
use board_core::{Board, Bytes, DiskFailed};

/// Makes a file of this kind that holds no entries, with these settings, which have the kind's length. What lies behind the
/// first gate stays. On the way a crash leaves the file as it was, or one that isn't marked as formatted, or the new one.
pub fn format<B: Board>(board: &mut B, kind: FileKind, settings: &[u8]) -> Result<(), DiskFailed>
    requires lasting { IsTrue (B.view board.old).tells → Only (B.view board.old).octets (B.view board.old).images }
    requires settings { HasSettingsLength kind settings.now }
    ensures done { IsTrue (B.view board.new).tells → OnOk result (Stands kind settings.now [] (B.view board.new).octets
        × Only (B.view board.new).octets (B.view board.new).images) }
    ensures written { IsTrue (B.view board.new).tells → OnOk result ((B.view board.new).octets
        ≡ header kind settings.now ++ 0 ∷ drop (5 + length settings.now) (B.view board.old).octets) }
    ensures any_moment { IsTrue (B.view board.new).tells → LeavesOnly (B.view board.old) (B.view board.new)
        (LeavesMaking kind settings.now (B.view board.old)) }
    ensures run { IsFileRun (B.view board.old) (B.view board.new) }
    ensures cause { HasCause (B.view board.old).disk_faults (B.view board.new).disk_faults result }
{
    clear_mark(board)?;
    let body = body_of(kind, settings);
    // until this is done, behind the mark anything might stand
    write_synced(board, 1, body.as_slice())?;
    write_synced(board, 0, &[OPEN])
}

// Takes the mark of a formatted file away, where there is one, so that octet 0 says that the file isn't formatted.
fn clear_mark<B: Board>(board: &mut B) -> Result<(), DiskFailed>
    requires lasting { IsTrue (B.view board.old).tells → Only (B.view board.old).octets (B.view board.old).images }
    ensures cleared { IsTrue (B.view board.new).tells → OnOk result (IsUnmarked (B.view board.old).octets (B.view board.new).octets
        × Only (B.view board.new).octets (B.view board.new).images) }
    ensures any_moment { IsTrue (B.view board.new).tells →
        LeavesOnly (B.view board.old) (B.view board.new) (LeavesUnmarked (B.view board.old)) }
    ensures run { IsFileRun (B.view board.old) (B.view board.new) }
    ensures cause { HasCause (B.view board.old).disk_faults (B.view board.new).disk_faults result }
{
    if !may_be_marked(board)? {
        return Ok(());
    }
    close_mark(board)
}

// Writes 00h to octet 0, which may be all of the file, and syncs.
fn close_mark<B: Board>(board: &mut B) -> Result<(), DiskFailed>
    ensures written { IsTrue (B.view board.new).tells → OnOk result
        (Holds (B.view board.old).octets 0 (0 ∷ []) (B.view board.new).octets) }
    ensures lasting { IsTrue (B.view board.new).tells → OnOk result (Only (B.view board.new).octets (B.view board.new).images) }
    ensures any_moment { IsTrue (B.view board.new).tells →
        LeavesOnly (B.view board.old) (B.view board.new) (LeavesTorn 0 1 (B.view board.old)) }
    ensures run { IsFileRun (B.view board.old) (B.view board.new) }
    ensures cause { HasCause (B.view board.old).disk_faults (B.view board.new).disk_faults result }
{
    write_synced(board, 0, &[CLOSED])
}

// True where the file is empty, or octet 0 is that of a formatted file.
fn may_be_marked<B: Board>(board: &mut B) -> Result<bool, DiskFailed>
    ensures marked { IsTrue (B.view board.new).tells → IfOk result (λ marked. marked ≡ true → MayBeMarked (B.view board.old).octets) }
    ensures unmarked { IsTrue (B.view board.new).tells → IfOk result (λ marked. marked ≡ false →
        IsUnmarked (B.view board.old).octets (B.view board.old).octets) }
    ensures same { Reads (B.view board.old) (B.view board.new) }
    ensures cause { HasCause (B.view board.old).disk_faults (B.view board.new).disk_faults result }
{
    if board.len()? == 0 {
        return Ok(true);
    }
    let mut first = [0];
    board.read_at(0, &mut first)?;
    Ok(first[0] == OPEN)
}

// What stands behind octet 0 up to the first gate, which is closed.
fn body_of(kind: FileKind, settings: &[u8]) -> Bytes<68>
    requires { length settings.now ≤ 64 }
    ensures { result ≡ body kind settings.now }
{
    let mut body = Bytes::new();
    let _ = body.extend(&head_of(kind.number, settings.len())[1..]);
    let _ = body.extend(settings);
    let _ = body.push(CLOSED);
    body
}

/// True where the file is formatted as one of these kinds. Begins with a sync, and writes nothing.
pub fn is_formatted<B: Board>(board: &mut B, kinds: &[FileKind]) -> Result<bool, DiskFailed>
    ensures formatted { IsTrue (B.view board.new).tells → IfOk result (λ is. IsTrue is ↔ IsFormatted kinds.now (B.view board.old).octets) }
    ensures octets { IsTrue (B.view board.new).tells → (B.view board.new).octets ≡ (B.view board.old).octets }
    ensures lasting { IsTrue (B.view board.new).tells → OnOk result (Only (B.view board.new).octets (B.view board.new).images) }
    // once the sync is done, a crash leaves just what a read gives
    ensures synced { IsTrue (B.view board.new).tells →
        NeverSynced (B.view board.old) (B.view board.new)
        ⊎ SyncsFirst (B.view board.old) (B.view board.new) (LeavesAsRead (B.view board.old)) }
    ensures ok { IsTrue (B.view board.new).tells →
        OnOk result (SyncsFirst (B.view board.old) (B.view board.new) (LeavesAsRead (B.view board.old))) }
    ensures run { IsFileRun (B.view board.old) (B.view board.new) }
    ensures cause { HasCause (B.view board.old).disk_faults (B.view board.new).disk_faults result }
{
    let file_length = synced_length(board)?;
    if file_length <= SETTINGS {
        return Ok(false);
    }
    let mut head = [0; 4];
    board.read_at(0, &mut head)?;
    Ok(is_one_of(kinds, &head, file_length))
}

// True where a file of this length, of which these are the first four octets, is of one of these kinds.
fn is_one_of(kinds: &[FileKind], head: &[u8; 4], file_length: u64) -> bool
    ensures { result ≡ list_any (has_head head.now file_length) kinds.now }
{
    kinds.iter().any(|kind| is_of(*kind, head, file_length))
}

fn is_of(kind: FileKind, head: &[u8; 4], file_length: u64) -> bool
    ensures { result ≡ has_head head.now file_length kind }
{
    kind.settings <= MAX_SETTINGS
        && *head == head_of(kind.number, kind.settings)
        && file_length > SETTINGS + kind.settings as u64
}

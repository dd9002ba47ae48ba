//! The form `init`: making a state file of any kind.
ghost use Rattle.std.specs.Prelude.{◌≡◌, ◌≢◌, ◌⊎◌, ◌≤◌, ℕ, List, Option, Some, Ok, Err, IsTrue, IfOk, IfErr, OnOk, IsErrOf};
ghost use Rattle.board_core.specs.Causes.{Rose};
ghost use Rattle.board_core.specs.Board.{IsFileRun};
ghost use Rattle.pef_journal.specs.Image.{IsFormatted, HasSettingsLength};
ghost use Rattle.report_line.specs.declared.refusal.SettingsRefusal.{SettingsRefusal};
ghost use Rattle.script_run.specs.Top.{WritesNothing, outside};
ghost use Rattle.pef_call.specs.Init.{IsRefused, IsMade, KeepsMoments, Makes, Inits, making};

use crate::init_fault::InitFault;
use board_core::{Board, Sink, Source};
use pef_journal::{FileKind, format, is_formatted};
use report_line::{Ending, SettingsRefusal, finish};
use script_text::{SettingsOctets, SettingsText, read_text};
use std::alloc::Global;

/// Formats the board's file with the settings that the source gives, and answers the status. A file that is formatted as one of
/// these kinds stays as it is.
pub fn init<T: SettingsText, B: Board, S: Source, K: Sink>(
    alloc: Global,
    kinds: &[FileKind],
    board: &mut B,
    source: &mut S,
    out: &mut K,
) -> u8
    ensures { Inits (making kinds.now T.file_kind T.settings_of)
        (outside (B.view board.old) (S.left source.old) (S.faults source.old) (K.written out.old) (K.faults out.old))
        (outside (B.view board.new) (S.left source.new) (S.faults source.new) (K.written out.new) (K.faults out.new)) result }
{
    let end = end_of::<T, B, S>(alloc, kinds, board, source);
    finish(out, end)
}

// Makes the file, and says how the call ends.
fn end_of<T: SettingsText, B: Board, S: Source>(
    alloc: Global,
    kinds: &[FileKind],
    board: &mut B,
    source: &mut S,
) -> Ending
    ensures { Makes (making kinds.now T.file_kind T.settings_of) (B.view board.old) (B.view board.new) (S.left source.old) (S.faults source.old) (S.faults source.new) result }
{
    match make::<T, B, S>(alloc, kinds, board, source) {
        Ok(()) => Ending::Done { count: 0 },
        Err(fault) => fault.ending(),
    }
}

// Makes the file. What is read is read before the first write.
fn make<T: SettingsText, B: Board, S: Source>(
    alloc: Global,
    kinds: &[FileKind],
    board: &mut B,
    source: &mut S,
) -> Result<(), InitFault>
    ensures made { IsTrue (B.view board.new).tells → OnOk result (IsMade (making kinds.now T.file_kind T.settings_of) (S.left source.old) (B.view board.old) (B.view board.new)) }
    ensures moments { IsTrue (B.view board.new).tells → KeepsMoments (making kinds.now T.file_kind T.settings_of) (S.left source.old) (B.view board.old) (B.view board.new) }
    ensures untouched { IsTrue (B.view board.new).tells → IfErr result (λ fault. fault ≢ InitFault.Disk →
        ((B.view board.new).octets ≡ (B.view board.old).octets) × WritesNothing (B.view board.old) (B.view board.new)) }
    ensures formatted { IsErrOf result InitFault.Formatted → IsTrue (B.view board.new).tells → IsFormatted kinds.now (B.view board.old).octets }
    ensures is_formatted { IsTrue (B.view board.new).tells → IsFormatted kinds.now (B.view board.old).octets → IsErrOf result InitFault.Formatted ⊎ IsErrOf result InitFault.Disk }
    ensures refused { (refusal : SettingsRefusal) → IsErrOf result (InitFault.Settings refusal) → IsRefused (making kinds.now T.file_kind T.settings_of) (S.left source.old) refusal }
    ensures input { IsErrOf result InitFault.Input → Rose (S.faults source.old) (S.faults source.new) }
    ensures disk { IsErrOf result InitFault.Disk → Rose (B.view board.old).disk_faults (B.view board.new).disk_faults }
    ensures disk_same { (IsErrOf result InitFault.Disk → ⊥) → (B.view board.new).disk_faults ≡ (B.view board.old).disk_faults }
    ensures input_same { (IsErrOf result InitFault.Input → ⊥) → S.faults source.new ≡ S.faults source.old }
    ensures run { IsFileRun (B.view board.old) (B.view board.new) }
    ensures later { S.faults source.old ≤ S.faults source.new }
{
    if is_formatted(board, kinds)? {
        return Err(InitFault::Formatted);
    }
    let settings = settings_in::<T, S>(alloc, source)?;
    format(board, T::kind(), settings.as_slice())?;
    Ok(())
}

// The settings that the source gives.
fn settings_in<T: SettingsText, S: Source>(
    alloc: Global,
    source: &mut S,
) -> Result<SettingsOctets, InitFault>
    ensures given { IfOk result (λ settings. (text : List ℕ) → S.left source.old ≡ Some text → T.settings_of text ≡ Ok settings) }
    ensures fits { IfOk result (HasSettingsLength T.file_kind) }
    ensures refused { (refusal : SettingsRefusal) → IsErrOf result (InitFault.Settings refusal) → (text : List ℕ) → S.left source.old ≡ Some text → T.settings_of text ≡ Err refusal }
    ensures input { IsErrOf result InitFault.Input → Rose (S.faults source.old) (S.faults source.new) }
    ensures input_same { (IsErrOf result InitFault.Input → ⊥) → S.faults source.new ≡ S.faults source.old }
    ensures others { IfErr result (λ fault. (fault ≢ InitFault.Disk) × (fault ≢ InitFault.Formatted)) }
    ensures later { S.faults source.old ≤ S.faults source.new }
{
    let Some(text) = read_text(alloc, source)? else {
        return Err(InitFault::Settings(SettingsRefusal::Long));
    };
    Ok(T::read(alloc, text.as_slice())?)
}

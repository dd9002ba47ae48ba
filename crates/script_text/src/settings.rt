//! The settings of a kind of state file, and the text that gives them.
ghost use Rattle.std.specs.Prelude.{◌≡◌, ◌<◌, ℕ, List, length, Result, Ok, Err, IfOk, IsErrOf};
ghost use Rattle.pef_journal.specs.declared.kind.FileKind.{FileKind};
ghost use Rattle.pef_journal.specs.Image.{HasSettingsLength};
ghost use Rattle.report_line.specs.declared.refusal.SettingsRefusal.{SettingsRefusal};
ghost use Rattle.report_line.specs.declared.refusal.SettingsRefusal.TheVariants.{Long};
ghost use Rattle.script_text.specs.Whole.{text_limit};

use board_core::Bytes;
use pef_journal::{FileKind, MAX_SETTINGS};
use report_line::SettingsRefusal;
use std::alloc::Global;

/// Settings as they stand in a state file.
pub type SettingsOctets = Bytes<MAX_SETTINGS>;

/// Why a text gives no settings.
#[derive(Clone, Copy, Debug, PartialEq, Eq)]
pub enum SettingsFault {
    /// It isn't a settings text for this kind of file, and why.
    Refused(SettingsRefusal),
    /// There was no memory to read it.
    Memory,
}

/// What a machine says of the settings of its state file: the kind of the file with their length, and which settings a text gives.
pub trait SettingsText {
    /// The kind of file.
    ghost file_kind: { FileKind };

    /// The settings octets that a text gives, or why it is refused.
    ghost settings_of: { List ℕ → Result (List ℕ) SettingsRefusal };

    /// The kind of file.
    fn kind() -> FileKind
        ensures { result ≡ file_kind };

    /// The settings that a text gives.
    fn read(alloc: Global, text: &[u8]) -> Result<SettingsOctets, SettingsFault>
        ensures given { IfOk result (λ settings. settings_of text.now ≡ Ok settings) }
        ensures fit { IfOk result (λ settings. HasSettingsLength file_kind settings) }
        ensures refused { (why : SettingsRefusal) → IsErrOf result (SettingsFault.Refused why) → settings_of text.now ≡ Err why };

    /// A longer text than one that is read whole is refused as such.
    ghost bounded: { (text : List ℕ) → text_limit < length text → settings_of text ≡ Err Long };
}

//! The settings text.
ghost use Rattle.std.specs.Prelude.{◌≡◌, length, Ok, IfOk};
ghost use Rattle.toml.specs.View.{table_view};
ghost use Rattle.settings_document.specs.Document.{settings_in};
ghost use Rattle.settings_document.specs.Laws.{long_refused};
ghost use Rattle.console_settings.specs.Settings.{console, fields, settings_of};

use crate::kind::KIND;
use board_core::Bytes;
use pef_journal::FileKind;
use report_line::{SettingsKey, SettingsRefusal};
use script_text::{SettingsFault, SettingsOctets, SettingsText};
use settings_document::{has_only, number_or, read_document};
use std::alloc::Global;
use toml::Table;

/// The port for acknowledgements where the document doesn't say another: RMCP's (ASF 2.0, section 3.2).
pub const DEFAULT_PORT: u32 = 623;

/// A console's settings: a TOML document in UTF-8 of at most 65,536 octets, with no key but `ack_port`, a whole number of 0 to
/// 65,535. Where it is missing it is 623.
pub struct ConsoleSettings;

impl SettingsText for ConsoleSettings {
    ghost file_kind = { console };

    ghost settings_of = { settings_of };

    ghost bounded = { long_refused fields };

    fn kind() -> FileKind {
        KIND
    }

    fn read(alloc: Global, text: &[u8]) -> Result<SettingsOctets, SettingsFault> {
        let document = read_document(alloc, text)?;
        match settings_in(&document) {
            Ok(settings) => Ok(settings),
            Err(refusal) => Err(SettingsFault::Refused(refusal)),
        }
    }
}

// The settings octets that a document gives, or why it is refused.
fn settings_in(document: &Table) -> Result<SettingsOctets, SettingsRefusal>
    ensures given { result ≡ settings_in fields (Ok (table_view document.now)) }
    ensures long { IfOk result (λ settings. length settings ≡ 2) }
{
    let port = number_or(document, SettingsKey::AckPort, DEFAULT_PORT, 65_535)? as u16;
    if !has_only(document, &[SettingsKey::AckPort]) {
        return Err(SettingsRefusal::Unknown);
    }
    let mut settings = Bytes::new();
    let _ = settings.extend(&port.to_le_bytes());
    Ok(settings)
}

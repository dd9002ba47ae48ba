//! The settings text.
ghost use Rattle.std.specs.Prelude.{◌≡◌, length, Ok, IfOk};
ghost use Rattle.toml.specs.View.{table_view};
ghost use Rattle.settings_document.specs.Document.{settings_in};
ghost use Rattle.pef_settings.specs.Settings.{controller, fields, settings_of};
ghost use Rattle.settings_document.specs.Laws.{long_refused};

use crate::keys::{KEYS, read_keys};
use crate::layout::KIND;
use pef_journal::FileKind;
use report_line::SettingsRefusal;
use script_text::{SettingsFault, SettingsOctets, SettingsText};
use settings_document::{has_only, read_document};
use std::alloc::Global;
use toml::Table;

/// A controller's settings: a TOML document in UTF-8 of at most 65,536 octets, with these keys and no others.
///
/// | key | value | if missing |
/// | --- | --- | --- |
/// | `guid` | a string: the system's GUID, in each form that `uuid` reads | refused |
/// | `agent` | a string: an IPv4 address, the agent that sends traps | refused |
/// | `manufacturer` | a whole number of 0 to 4,294,967,295 | 0 |
/// | `system` | a whole number of 0 to 65,535 | 0 |
/// | `pet_port`, `oem1_port`, `oem2_port` | a whole number of 0 to 65,535 | 162 |
/// | `control`, `actions`, `delay` | a whole number of 0 to 255 | 1, 63, 0 |
/// | `filter` | a string of 40 hexadecimal digits: event filter 1 | 40 zeros |
///
/// A key is refused where it is missing though it is required, or has another value: the first in this order. Another key is
/// refused where none of these is.
pub struct ControllerSettings;

impl SettingsText for ControllerSettings {
    ghost file_kind = { controller };

    ghost settings_of = { settings_of };

    ghost bounded = { long_refused fields };

    fn kind() -> FileKind {
        KIND
    }

    fn read(alloc: Global, text: &[u8]) -> Result<SettingsOctets, SettingsFault> {
        let document = read_document(alloc, text)?;
        match settings_in(&document) {
            Ok(settings) => Ok(settings),
            Err(refusal) => Err(SettingsFault::Refused(refusal)),
        }
    }
}

// The settings octets that a document gives, or why it is refused.
fn settings_in(document: &Table) -> Result<SettingsOctets, SettingsRefusal>
    ensures given { result ≡ settings_in fields (Ok (table_view document.now)) }
    ensures long { IfOk result (λ settings. length settings ≡ 55) }
{
    let settings = read_keys(document)?;
    if !has_only(document, &KEYS) {
        return Err(SettingsRefusal::Unknown);
    }
    Ok(settings.octets())
}

// A settings text as a TOML document.
ghost use Rattle.std.specs.Prelude.{◌≡◌, ◌≤◌, Ok, Err, IfOk, IsErrOf, length};
ghost use Rattle.report_line.specs.declared.refusal.SettingsRefusal.{SettingsRefusal};
ghost use Rattle.script_text.specs.Whole.{text_limit};
ghost use Rattle.toml.specs.Errors.{IsBlank, IsMemory};
ghost use Rattle.toml.specs.View.{table_view};
ghost use Rattle.settings_document.specs.Document.{document_of, has_key, has_only};

use report_line::{SettingsKey, SettingsRefusal};
use script_text::{SettingsFault, TEXT_LIMIT};
use std::alloc::Global;
use toml::de::Error;
use toml::{Table, table_from_slice};

/// The document that a settings text is. It is refused as `Long` where it has more than 65,536 octets, and as `Text` where it is no
/// TOML document in UTF-8. Only a text that is read, and that isn't blank, wants memory.
pub fn read_document(alloc: Global, text: &[u8]) -> Result<Table, SettingsFault>
    ensures given { IfOk result (λ document. document_of text.now ≡ Ok (table_view document)) }
    ensures refused { (why : SettingsRefusal) → IsErrOf result (SettingsFault.Refused why) → document_of text.now ≡ Err why }
    ensures memory { IsErrOf result SettingsFault.Memory → (length text.now ≤ text_limit) × ¬ IsBlank text.now }
{
    if text.len() > TEXT_LIMIT {
        return Err(SettingsFault::Refused(SettingsRefusal::Long));
    }
    match table_from_slice(alloc, text) {
        Ok(document) => Ok(document),
        Err(fault) => Err(fault_of(&fault)),
    }
}

// Why the text is no document.
fn fault_of(fault: &Error) -> SettingsFault
    ensures memory { IsMemory fault.now → result ≡ SettingsFault.Memory }
    ensures refused { ¬ IsMemory fault.now → result ≡ SettingsFault.Refused SettingsRefusal.Text }
{
    if fault.is_memory() {
        SettingsFault::Memory
    } else {
        SettingsFault::Refused(SettingsRefusal::Text)
    }
}

/// Whether a document has no other keys than these.
pub fn has_only(document: &Table, keys: &[SettingsKey]) -> bool
    ensures { result ≡ has_only keys.now (table_view document.now) }
{
    for name in document.keys() {
        if !has_key(keys, name.as_str()) {
            return false;
        }
    }
    true
}

// Whether one of these keys has this name.
fn has_key(keys: &[SettingsKey], name: &str) -> bool
    ensures { result ≡ has_key keys.now name.now }
{
    keys.iter().any(|key| key.name() == name)
}

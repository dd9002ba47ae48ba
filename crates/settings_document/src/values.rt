// What stands at a key of a settings document.
ghost use Rattle.std.specs.Prelude.{◌≡◌, ◌≤◌, IfOk, IfSome, option_map};
ghost use Rattle.report_line.specs.Refusal.{key_name};
ghost use Rattle.toml.specs.Data.{get_member};
ghost use Rattle.toml.specs.View.{view, table_view};
ghost use Rattle.settings_document.specs.Values.{at_key, number_in, number_or};

use report_line::{SettingsKey, SettingsRefusal};
use toml::{Table, Value};

/// What stands at a key, and None where the key is missing.
pub fn value_at(document: &Table, key: SettingsKey) -> Option<&Value>
    ensures { option_map (λ value. view value.now) result ≡ get_member (key_name key) (table_view document.now) }
{
    document.get(key.name())
}

/// The whole number at a key, and the default where the key is missing. It is refused where it is above the greatest, or no whole
/// number.
pub fn number_or(
    document: &Table,
    key: SettingsKey,
    default: u32,
    greatest: u32,
) -> Result<u32, SettingsRefusal>
    requires { default ≤ greatest }
    ensures number { result ≡ at_key key (number_or default greatest (get_member (key_name key) (table_view document.now))) }
    ensures fits { IfOk result (λ number. number ≤ greatest) }
{
    match value_at(document, key) {
        None => Ok(default),
        Some(value) => number_in(value, greatest).ok_or(SettingsRefusal::Key(key)),
    }
}

// The whole number that a value is, from 0 to the greatest.
fn number_in(value: &Value, greatest: u32) -> Option<u32>
    ensures number { result ≡ number_in greatest (view value.now) }
    ensures fits { IfSome result (λ number. number ≤ greatest) }
{
    let number = u32::try_from(value.as_integer()?).ok()?;
    if number <= greatest {
        Some(number)
    } else {
        None
    }
}

// The keys of a controller's settings document.
ghost use Rattle.std.specs.Prelude.{◌≡◌, replicate};
ghost use Rattle.report_line.specs.Refusal.{key_name};
ghost use Rattle.settings_document.specs.Document.{octets_of};
ghost use Rattle.settings_document.specs.Values.{required, or_default};
ghost use Rattle.toml.specs.Data.{get_member};
ghost use Rattle.toml.specs.View.{view, table_view};
ghost use Rattle.pef_settings.specs.Octets.{octets_read};
ghost use Rattle.pef_settings.specs.Settings.{fields, guid_in, agent_in, filter_in};

use crate::settings::Settings;
use report_line::{SettingsKey, SettingsRefusal};
use script_text::{ipv4, octets_exactly};
use settings_document::{number_or, value_at};
use toml::{Table, Value};
use uuid::Uuid;

/// The keys that a document may have.
pub(crate) const KEYS: [SettingsKey; 11] = [
    SettingsKey::Guid,
    SettingsKey::Agent,
    SettingsKey::Manufacturer,
    SettingsKey::System,
    SettingsKey::PetPort,
    SettingsKey::Oem1Port,
    SettingsKey::Oem2Port,
    SettingsKey::Control,
    SettingsKey::Actions,
    SettingsKey::Delay,
    SettingsKey::Filter,
];

/// The settings that a document gives, or its first key that is refused, in the order of `KEYS`.
pub(crate) fn read_keys(document: &Table) -> Result<Settings, SettingsRefusal>
    ensures { octets_read result ≡ octets_of fields (table_view document.now) }
{
    Ok(Settings {
        guid: guid(document).ok_or(SettingsRefusal::Key(SettingsKey::Guid))?,
        agent: agent(document).ok_or(SettingsRefusal::Key(SettingsKey::Agent))?,
        manufacturer: number_or(document, SettingsKey::Manufacturer, 0, u32::MAX)?,
        system: number_or(document, SettingsKey::System, 0, 65_535)? as u16,
        pet_port: number_or(document, SettingsKey::PetPort, 162, 65_535)? as u16,
        oem1_port: number_or(document, SettingsKey::Oem1Port, 162, 65_535)? as u16,
        oem2_port: number_or(document, SettingsKey::Oem2Port, 162, 65_535)? as u16,
        control: number_or(document, SettingsKey::Control, 1, 255)? as u8,
        actions: number_or(document, SettingsKey::Actions, 63, 255)? as u8,
        delay: number_or(document, SettingsKey::Delay, 0, 255)? as u8,
        filter: filter(document).ok_or(SettingsRefusal::Key(SettingsKey::Filter))?,
    })
}

// The GUID, which is required.
fn guid(document: &Table) -> Option<[u8; 16]>
    ensures { result ≡ required guid_in (get_member (key_name SettingsKey.Guid) (table_view document.now)) }
{
    guid_in(value_at(document, SettingsKey::Guid)?)
}

fn guid_in(value: &Value) -> Option<[u8; 16]>
    ensures { result ≡ guid_in (view value.now) }
{
    let guid = Uuid::parse_str(value.as_str()?).ok()?;
    Some(guid.into_bytes())
}

// The agent's address, which is required.
fn agent(document: &Table) -> Option<[u8; 4]>
    ensures { result ≡ required agent_in (get_member (key_name SettingsKey.Agent) (table_view document.now)) }
{
    agent_in(value_at(document, SettingsKey::Agent)?)
}

fn agent_in(value: &Value) -> Option<[u8; 4]>
    ensures { result ≡ agent_in (view value.now) }
{
    ipv4(value.as_str()?.as_bytes())
}

// The filter, which is disabled where the key is missing.
fn filter(document: &Table) -> Option<[u8; 20]>
    ensures { result ≡ or_default (replicate 20 0) filter_in (get_member (key_name SettingsKey.Filter) (table_view document.now)) }
{
    match value_at(document, SettingsKey::Filter) {
        None => Some([0; 20]),
        Some(value) => filter_in(value),
    }
}

fn filter_in(value: &Value) -> Option<[u8; 20]>
    ensures { result ≡ filter_in (view value.now) }
{
    octets_exactly(value.as_str()?.as_bytes())
}

// Why a settings text is refused, and the word that says it.
ghost use Rattle.std.specs.Prelude.{◌≡◌, ◌≤◌, length};
ghost use Rattle.report_line.specs.Refusal.{key_name, refusal_word};

/// A key of a settings document.
#[derive(Clone, Copy, Debug, PartialEq, Eq)]
pub enum SettingsKey {
    /// The system's GUID.
    Guid,
    /// The address of the agent that sends traps.
    Agent,
    /// The manufacturer's ID.
    Manufacturer,
    /// The system's ID.
    System,
    /// The port that traps go to.
    PetPort,
    /// The port of the first OEM destination type.
    Oem1Port,
    /// The port of the second OEM destination type.
    Oem2Port,
    /// PEF control.
    Control,
    /// The PEF action control mask.
    Actions,
    /// The startup delay.
    Delay,
    /// Event filter 1.
    Filter,
    /// The port that a console sends acknowledgements to.
    AckPort,
}

impl SettingsKey {
    /// The key as a document has it.
    pub fn name(self) -> &'static str
        ensures name { result.now ≡ key_name self }
        ensures short { length result.now ≤ 12 }
    {
        match self {
            SettingsKey::Guid => "guid",
            SettingsKey::Agent => "agent",
            SettingsKey::Manufacturer => "manufacturer",
            SettingsKey::System => "system",
            SettingsKey::PetPort => "pet_port",
            SettingsKey::Oem1Port => "oem1_port",
            SettingsKey::Oem2Port => "oem2_port",
            SettingsKey::Control => "control",
            SettingsKey::Actions => "actions",
            SettingsKey::Delay => "delay",
            SettingsKey::Filter => "filter",
            SettingsKey::AckPort => "ack_port",
        }
    }
}

/// Why a settings text is refused.
#[derive(Clone, Copy, Debug, PartialEq, Eq)]
pub enum SettingsRefusal {
    /// It is longer than a settings text may be.
    Long,
    /// It is no TOML document.
    Text,
    /// This key is missing, though it is required, or its value isn't one that it may have.
    Key(SettingsKey),
    /// It has another key than these settings have.
    Unknown,
}

impl SettingsRefusal {
    /// The word of the last line that says so.
    pub fn word(self) -> &'static str
        ensures word { result.now ≡ refusal_word self }
        ensures short { length result.now ≤ 12 }
    {
        match self {
            SettingsRefusal::Long => "long",
            SettingsRefusal::Text => "text",
            SettingsRefusal::Key(key) => key.name(),
            SettingsRefusal::Unknown => "unknown",
        }
    }
}

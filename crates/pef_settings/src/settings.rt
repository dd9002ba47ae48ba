// The settings that a document gives.
ghost use Rattle.std.specs.Prelude.{◌≡◌, ◌≤◌, ◌+◌, ◌++◌, length};
ghost use Rattle.pef_settings.specs.Octets.{settings_octets};

use script_text::SettingsOctets;

/// A controller's settings.
#[derive(Drop)]
pub(crate) struct Settings {
    /// The system's GUID.
    pub guid: [u8; 16],
    /// The address of the agent that sends traps.
    pub agent: [u8; 4],
    /// The manufacturer's ID.
    pub manufacturer: u32,
    /// The system's ID.
    pub system: u16,
    /// The ports of PET traps and of the two OEM destination types.
    pub pet_port: u16,
    pub oem1_port: u16,
    pub oem2_port: u16,
    /// PEF control, the PEF action control mask and the startup delay at the start.
    pub control: u8,
    pub actions: u8,
    pub delay: u8,
    /// Event filter 1 at the start.
    pub filter: [u8; 20],
}

impl Settings {
    /// The octets in a state file, in the order of the fields, each number with its least significant octet first.
    pub fn octets(self) -> SettingsOctets
        ensures octets { result ≡ settings_octets self }
        ensures long { length result ≡ 55 }
    {
        let octets = with(SettingsOctets::new(), &self.guid);
        let octets = with(octets, &self.agent);
        let octets = with(octets, &self.manufacturer.to_le_bytes());
        let octets = with(octets, &self.system.to_le_bytes());
        let octets = with(octets, &self.pet_port.to_le_bytes());
        let octets = with(octets, &self.oem1_port.to_le_bytes());
        let octets = with(octets, &self.oem2_port.to_le_bytes());
        let octets = with(octets, &[self.control, self.actions, self.delay]);
        with(octets, &self.filter)
    }
}

// The octets with more behind them.
fn with(mut octets: SettingsOctets, more: &[u8]) -> SettingsOctets
    requires { length octets + length more.now ≤ 64 }
    ensures added { result ≡ octets ++ more.now }
    ensures long { length result ≡ length octets + length more.now }
{
    let _ = octets.extend(more);
    octets
}

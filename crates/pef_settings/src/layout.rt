//! How many settings octets a controller's file has, and the places of some of them.
use pef_journal::FileKind;

/// How many octets of settings a controller's state file has.
pub const SETTINGS: usize = 55;

/// The places of agent address, manufacturer ID and system ID among them; the system GUID has the first 16.
/// The place of the agent's address among them, four octets.
pub const AGENT: usize = 16;

/// The place of the manufacturer ID among them, four octets.
pub const MANUFACTURER: usize = 20;

/// The place of the system ID among them, two octets.
pub const SYSTEM: usize = 24;

/// The place of the port of destination type 0 among them.
pub const PET_PORT: usize = 26;

/// The place of the port of destination type 6 among them.
pub const OEM1_PORT: usize = 28;

/// The place of the port of destination type 7 among them.
pub const OEM2_PORT: usize = 30;

/// The place of the initial PEF control among them.
pub const CONTROL: usize = 32;

/// The place of the initial action control mask among them.
pub const ACTIONS: usize = 33;

/// The place of the initial startup delay among them.
pub const DELAY: usize = 34;

/// The place of the filter among them, to their end.
pub const FILTER: usize = 35;

/// The kind of a controller's state file.
pub const KIND: FileKind = FileKind {
    number: 1,
    settings: SETTINGS,
};

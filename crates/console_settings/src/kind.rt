//! The kind of a console's state file.
use pef_journal::FileKind;

/// How many octets of settings a console's state file has.
pub const SETTINGS: usize = 2;

/// The kind of a console's state file.
pub const KIND: FileKind = FileKind {
    number: 2,
    settings: SETTINGS,
};

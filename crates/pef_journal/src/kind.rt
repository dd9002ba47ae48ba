//! The kinds of state files.
/// A kind of state file, as a machine has one. What its settings say is the machine's own.
#[derive(Clone, Copy, Debug)]
pub struct FileKind {
    /// Octet 1 of such a file.
    pub number: u8,
    /// How many octets of settings it has, at most `MAX_SETTINGS`.
    pub settings: usize,
}

/// The most octets of settings that a kind of file may have.
pub const MAX_SETTINGS: usize = 64;

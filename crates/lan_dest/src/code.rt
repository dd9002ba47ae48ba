//! Completion codes (IPMI 2.0, tables 5-2 and 23-2).

/// The command is done.
pub(crate) const DONE: u8 = 0x00;

/// There is no such parameter.
pub(crate) const NO_PARAMETER: u8 = 0x80;

/// The parameter can only be read.
pub(crate) const READ_ONLY: u8 = 0x82;

/// The request hasn't the length of its parameter.
pub(crate) const LENGTH: u8 = 0xC7;

/// There is no destination with this selector.
pub(crate) const SELECTOR: u8 = 0xC9;

/// There is no such channel, or a field has a value that isn't supported.
pub(crate) const FIELD: u8 = 0xCC;

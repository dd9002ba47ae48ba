//! The numbers of the parameters (IPMI 2.0, table 30-7), and the completion codes of their commands.

/// Set in progress, in bits 1:0.
pub(crate) const SET_IN_PROGRESS: u8 = 0;
/// PEF control.
pub(crate) const CONTROL: u8 = 1;
/// PEF action global control.
pub(crate) const ACTIONS: u8 = 2;
/// PEF startup delay.
pub(crate) const DELAY: u8 = 3;
/// The number of event filters.
pub(crate) const FILTER_COUNT: u8 = 5;
/// An event filter.
pub(crate) const FILTER: u8 = 6;
/// The first octet of an event filter.
pub(crate) const FIRST_OCTET: u8 = 7;
/// The number of alert policy entries.
pub(crate) const POLICY_COUNT: u8 = 8;
/// An alert policy entry.
pub(crate) const POLICY: u8 = 9;
/// The system GUID.
pub(crate) const GUID: u8 = 10;
/// The number of alert strings.
pub(crate) const STRING_COUNT: u8 = 11;
/// The key of an alert string.
pub(crate) const STRING_KEY: u8 = 12;
/// A block of an alert string.
pub(crate) const STRING: u8 = 13;

/// The command is done.
pub(crate) const DONE: u8 = 0x00;
/// There is no such parameter.
pub(crate) const NO_PARAMETER: u8 = 0x80;
/// Set in progress is to be taken while another has it.
pub(crate) const IN_PROGRESS: u8 = 0x81;
/// The parameter can only be read.
pub(crate) const READ_ONLY: u8 = 0x82;
/// The request hasn't the length of its parameter.
pub(crate) const LENGTH: u8 = 0xC7;
/// There is no entry with this selector, or no such block of it.
pub(crate) const SELECTOR: u8 = 0xC9;
/// A field has a value that isn't supported.
pub(crate) const FIELD: u8 = 0xCC;

/// How many event filters there are.
pub(crate) const FILTERS: u8 = 16;
/// How many alert policy entries there are.
pub(crate) const POLICIES: u8 = 16;
/// How many alert strings there are beside string 0.
pub(crate) const STRINGS: u8 = 8;

/// The revision of the parameters, as it is answered.
pub(crate) const REVISION: u8 = 0x11;

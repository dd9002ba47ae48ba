//! The sender of alerts.

/// The system that sends alerts, as its settings name it.
#[derive(Clone, Copy, Debug, PartialEq, Eq)]
pub struct Origin {
    /// The IPv4 address that its traps give as the agent's (RFC 1157, section 4.1.6).
    pub agent: [u8; 4],
    /// The manufacturer's IANA enterprise number.
    pub manufacturer: u32,
    /// The manufacturer's number of the kind of system.
    pub system: u16,
}

use board_core::{Community, Octets};

/// A Platform Event Trap (PET 1.0) to be sent.
#[derive(Drop)]
pub struct Trap {
    pub community: Community,
    /// The IPv4 address of the sender.
    pub agent: [u8; 4],
    /// Sensor type, event type and offset (PET 1.0).
    pub specific: u32,
    /// The sender's time-stamp, in hundredths of a second.
    pub ticks: u32,
    /// 46 to 110 octets in a trap that can be sent.
    pub body: Octets,
}

/// A trap as it stands in octets that were received, which it borrows.
#[derive(Clone, Copy, Debug, PartialEq, Eq)]
pub struct TrapView<'a> {
    /// The community, of any length.
    pub community: &'a [u8],
    /// The IPv4 address that the sender gives.
    pub agent: [u8; 4],
    /// Sensor type, event type and offset (PET 1.0).
    pub specific: u32,
    /// The sender's time-stamp, in hundredths of a second.
    pub ticks: u32,
    /// The body, of 46 to 110 octets.
    pub body: &'a [u8],
}

//! What an alert draws.

/// What an alert draws once, when it begins. A trap that is sent again has the same draw, and so the same octets.
#[derive(Clone, Copy, Debug, PartialEq, Eq)]
pub struct Draw {
    /// The system GUID, octets in their order.
    pub guid: [u8; 16],
    /// The sequence number, 1 to 65535.
    pub sequence: u16,
    /// The trap's time-stamp, in hundredths of a second.
    pub stamp: u32,
}

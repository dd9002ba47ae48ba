//! The fields of a trap's body.

use board_core::Bytes;

/// The variable binding of a platform event trap, by the table of PET 1.0.
#[derive(Drop)]
pub struct Body {
    /// The system GUID, octets in their order.
    pub guid: [u8; 16],
    /// The alert's sequence number, 1 to 65535.
    pub sequence: u16,
    /// Local seconds since 1998-01-01, 0 where the time isn't known.
    pub timestamp: u32,
    /// The UTC offset in minutes, FFFFh where it isn't known.
    pub utc: u16,
    /// What made the trap: 20h is IPMI.
    pub trap_source: u8,
    /// What made the event: 20h is IPMI.
    pub event_source: u8,
    /// The event severity, as in the event filter table.
    pub severity: u8,
    /// The sensor device: the first octet of the generator ID.
    pub device: u8,
    /// The sensor number.
    pub sensor: u8,
    /// The entity ID of the sensor, 00h where it isn't known.
    pub entity: u8,
    /// The instance of this entity.
    pub instance: u8,
    /// Event data 1 to 8.
    pub event_data: [u8; 8],
    /// The language code, FFh where it isn't known.
    pub language: u8,
    /// The manufacturer's IANA enterprise number.
    pub manufacturer: u32,
    /// The manufacturer's number of the kind of system.
    pub system: u16,
    /// The octets behind these 46: fields that the manufacturer defines, and C1h at their end.
    pub tail: Bytes<64>,
}

//! The acknowledgement of a trap.

ghost use Rattle.std.specs.Prelude.{◌≡◌};
ghost use Rattle.pet_body.specs.Event.{ack_for};

use crate::body::Body;

/// The fields by which PET Acknowledge names the trap that it acknowledges (IPMI 2.0, section 30.8).
#[derive(Clone, Copy, Debug, PartialEq, Eq)]
pub struct PetAck {
    /// The trap's sequence number.
    pub sequence: u16,
    /// The trap's local timestamp.
    pub timestamp: u32,
    /// The event source type.
    pub event_source: u8,
    /// The sensor device.
    pub device: u8,
    /// The sensor number.
    pub sensor: u8,
    /// Event data 1 to 3.
    pub event_data: [u8; 3],
}

/// The acknowledgement of the trap with this body.
pub fn pet_ack_of(body: &Body) -> PetAck
    ensures { result ≡ ack_for body.now }
{
    let [first, second, third, ..] = body.event_data;
    PetAck {
        sequence: body.sequence,
        timestamp: body.timestamp,
        event_source: body.event_source,
        device: body.device,
        sensor: body.sensor,
        event_data: [first, second, third],
    }
}

//! The body and the specific number of an event.

ghost use Rattle.std.specs.Prelude.{◌≡◌, ◌^◌, ◌<◌, option_copied};
ghost use Rattle.pet_body.specs.Event.{local_time, body_for, specific_for};

use crate::body::Body;
use crate::tail::tail_of;
use board_core::Text;
use event_record::Record;

/// 1998-01-01 in seconds since 1970-01-01.
const EPOCH: u32 = 883_612_800;

/// The timestamp of a record whose time isn't specified.
const UNSPECIFIED: u32 = 0xFFFF_FFFF;

/// The slave address of the management controller: the device of an alert without a record.
const CONTROLLER: u8 = 0x20;

/// The source type of events and traps that come by IPMI.
const IPMI: u8 = 0x20;

/// The system that sends traps, as its traps name it.
#[derive(Clone, Copy, Debug, PartialEq, Eq)]
pub struct Identity {
    /// The system GUID, octets in their order.
    pub guid: [u8; 16],
    /// The manufacturer's IANA enterprise number.
    pub manufacturer: u32,
    /// The manufacturer's number of the kind of system.
    pub system: u16,
}

fn timestamp_of(stamp: Option<u32>) -> u32
    ensures { result ≡ local_time stamp }
{
    match stamp {
        Some(UNSPECIFIED) | None => 0,
        Some(seconds) => seconds.saturating_sub(EPOCH),
    }
}

/// The body of the trap for an event, or of an alert without a record.
pub fn body_of(
    event: Option<&Record>,
    identity: &Identity,
    sequence: u16,
    severity: u8,
    text: &Text,
) -> Body
    ensures { result ≡ body_for (option_copied event.entry) identity.now sequence severity text.now }
{
    let (timestamp, device, sensor, [first, second, third]) = match event {
        Some(event) => (
            timestamp_of(event.stamp()),
            event.generator()[0],
            event.sensor(),
            event.event_data(),
        ),
        None => (0, CONTROLLER, 0, [0; 3]),
    };
    Body {
        guid: identity.guid,
        sequence,
        timestamp,
        utc: 0xFFFF,
        trap_source: IPMI,
        event_source: IPMI,
        severity,
        device,
        sensor,
        entity: 0x00,
        instance: 0x00,
        event_data: [first, second, third, 0, 0, 0, 0, 0],
        language: 0xFF,
        manufacturer: identity.manufacturer,
        system: identity.system,
        tail: tail_of(text),
    }
}

/// The specific trap number of an event: its sensor type, event type and offset, with bit 7 of
/// the last octet for a deassertion. 0 for an alert without a record.
pub fn specific_of(event: Option<&Record>) -> u32
    ensures number { result ≡ specific_for (option_copied event.entry) }
    ensures three_octets { result < 2 ^ 24 }
{
    match event {
        Some(event) => {
            let [data, ..] = event.event_data();
            let direction = event.trigger() / 0x80;
            let kind = event.trigger() % 0x80;
            let offset = data % 0x10;
            u32::from_be_bytes([0, event.sensor_type(), kind, direction * 0x80 + offset])
        }
        None => 0,
    }
}

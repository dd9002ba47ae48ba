//! Kinds of event types (IPMI 2.0, table 42-1).
ghost use Rattle.std.specs.Prelude.{◌≡◌};
ghost use Rattle.event_words.specs.EventTypes.{event_type};

/// The kind of an event type, which says in what table its offsets stand.
#[derive(Clone, Copy, Debug, PartialEq, Eq)]
pub enum EventType {
    /// 00h: not specified.
    Unspecified,
    /// 01h: the offsets are those of thresholds.
    Threshold,
    /// 02h to 0Ch: a set of states that fits many sensors.
    Generic(u8),
    /// 6Fh: the offsets are those of the sensor type.
    SensorSpecific,
    /// 70h to 7Fh: the manufacturer defines the offsets.
    Oem(u8),
    /// Any other code.
    Reserved(u8),
}

impl EventType {
    /// The kind of this code.
    pub fn of(code: u8) -> EventType
        ensures { result ≡ event_type code }
    {
        match code {
            0x00 => EventType::Unspecified,
            0x01 => EventType::Threshold,
            0x02..=0x0C => EventType::Generic(code),
            0x6F => EventType::SensorSpecific,
            0x70..=0x7F => EventType::Oem(code),
            0x0D..=0x6E | 0x80..=0xFF => EventType::Reserved(code),
        }
    }
}

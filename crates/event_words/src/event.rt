//! The codes of an event.
ghost use Rattle.std.specs.Prelude.{◌≡◌};
ghost use Rattle.event_words.specs.EventTypes.{direction};

/// Whether the state of an event came or went.
#[derive(Clone, Copy, Debug, PartialEq, Eq)]
pub enum Direction {
    /// The state came.
    Asserted,
    /// The state went.
    Deasserted,
}

impl Direction {
    /// By bit 7 of an event's trigger, whose other bits are the event type (IPMI 2.0, section 29.7).
    pub fn of(trigger: u8) -> Direction
        ensures { result ≡ direction trigger }
    {
        if trigger >= 0x80 {
            Direction::Deasserted
        } else {
            Direction::Asserted
        }
    }
}

/// The codes of an event, from a record or from a trap.
#[derive(Clone, Copy, Debug, PartialEq, Eq)]
pub struct Event {
    /// The sensor type.
    pub sensor_type: u8,
    /// The sensor number.
    pub sensor: u8,
    /// The event type: bits 6:0 of the trigger.
    pub event_type: u8,
    /// The direction: bit 7 of the trigger.
    pub direction: Direction,
    /// The offset of the state, 0 to 15.
    pub offset: u8,
    /// Event data 1 to 3. Bits 7:4 of the first say what the others hold.
    pub event_data: [u8; 3],
    /// The severity, which traps have and records haven't.
    pub severity: Option<u8>,
}

//! What a controller shows of itself.

/// How a controller stands.
#[derive(Clone, Copy, Debug, PartialEq, Eq)]
pub struct Summary {
    /// The records of the log, at most 1,024.
    pub records: u16,
    /// How many records at the front of the log are processed.
    pub processed: u16,
    /// The ID of the record that was processed last, 0000h for none.
    pub last: u16,
    /// The ID of the record whose job runs. An alert at once is the job of none.
    pub job: Option<u16>,
    /// The status of Alert Immediate: 00h none, 01h ended with success, 03h failed, FFh pending.
    pub status: u8,
    /// The seconds so far, modulo 2 to the power of 32.
    pub ticks: u32,
    /// The seconds left of the startup delay.
    pub delay: u8,
    /// The seconds left of the postpone timer, 254 while PEF is disabled for the time being.
    pub postpone: u8,
    /// The sequence number of the next alert, 1 to 65535.
    pub sequence: u16,
    /// Whether a step is due.
    pub pending: bool,
}

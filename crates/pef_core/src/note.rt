//! What an item did.

use event_record::{LogFault, RecordFault};

/// What the last item did to the log.
#[derive(Clone, Copy, Debug, PartialEq, Eq)]
pub enum Note {
    /// The record with this ID was added to the log.
    Added(u16),
    /// The octets of the event are no record.
    Refused(RecordFault),
    /// The log didn't take the record.
    NotAdded(LogFault),
    /// The item was no event, or none was taken yet.
    Nothing,
}

//! Why an event isn't logged.

use thiserror::Error;

/// Why sixteen octets are no event record.
#[derive(Clone, Copy, Debug, PartialEq, Eq, Error)]
pub enum RecordFault {
    /// The record ID is 0000h or FFFFh.
    #[error("record ID {0:04x} is reserved")]
    ReservedId(u16),
    /// The record type is neither 02h nor C0h to FFh.
    #[error("record type {0:02x} is unknown")]
    Kind(u8),
}

/// Why a log doesn't take a record.
#[derive(Clone, Copy, Debug, PartialEq, Eq, Error)]
pub enum LogFault {
    /// A record with this ID is held.
    #[error("a record with ID {0:04x} is held")]
    Duplicate(u16),
    /// As many records are held as the log has room for.
    #[error("the log is full")]
    Full,
}

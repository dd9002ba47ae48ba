//! A call of the system that failed.
use std::io;
use thiserror::Error;

/// A call of the system that a device makes. Places are in octets from 0 on.
#[derive(Clone, Copy, Debug, PartialEq, Eq, Error)]
pub enum Call {
    /// The state file's length.
    #[error("asking for its length")]
    Length,
    /// A read of the state file.
    #[error("reading {count} octets at octet {place}")]
    ReadAt { place: u64, count: usize },
    /// A write to the state file.
    #[error("writing {count} octets at octet {place}")]
    WriteAt { place: u64, count: usize },
    /// A sync of the state file.
    #[error("syncing it")]
    Sync,
    /// An action that is appended to the plant's file.
    #[error("appending an action to the plant's file")]
    Act,
    /// A datagram that is sent.
    #[error("sending a datagram")]
    Send,
    /// A datagram that is waited for.
    #[error("waiting for a datagram")]
    Receive,
    /// A read of a source.
    #[error("reading it")]
    Read,
    /// A write to a sink.
    #[error("writing the report")]
    Write,
}

/// A call that failed, and the system's reason.
#[derive(Clone, Copy, Debug, Error)]
#[error("{call}: {error}")]
pub struct Failure {
    /// What was called.
    pub call: Call,
    /// Why it failed.
    pub error: io::Error,
}

//! What was begun.

use pef_match::Job;

/// What was begun for a record, or an alert at once: its job and the GUID in force, as they were when it began.
#[derive(Drop)]
pub struct Work {
    /// The number of its record in the log, counted from 1. An alert at once has none.
    pub number: Option<usize>,
    pub job: Job,
    /// The system GUID that its traps tell.
    pub guid: [u8; 16],
}

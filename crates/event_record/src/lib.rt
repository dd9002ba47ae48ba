//! Event records, and the log that holds them.
#![tactic(auto)]

mod event;
mod fault;
mod log;

pub use event::Record;
pub use fault::{LogFault, RecordFault};
pub use log::{Log, RECORDS};

//! The state file: a header, and behind it a journal of entries, each of which is whole or absent after a crash.
#![tactic(auto)]

mod appending;
mod fault;
mod formatting;
mod gate;
mod journal;
mod kind;
mod layout;
mod opening;
mod reading;
mod syncing;
mod writing;

pub use fault::JournalFault;
pub use formatting::{format, is_formatted};
pub use journal::Journal;
pub use kind::{FileKind, MAX_SETTINGS};

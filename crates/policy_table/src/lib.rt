//! Alert policy entries, and the table that holds them.
#![tactic(auto)]

mod entry;
mod fault;
mod policies;

pub use entry::PolicyEntry;
pub use fault::NoSuch;
pub use policies::{ENTRIES, Policies};

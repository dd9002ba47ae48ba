//! The settings of a console's state file: its kind, their octets, and the document that gives them.
#![tactic(auto)]

mod kind;
mod text;

pub use kind::{KIND, SETTINGS};
pub use text::{ConsoleSettings, DEFAULT_PORT};

//! The SNMP trap of a platform event: written in its shortest spelling, read by its whole grammar.
#![tactic(auto)]

mod contents;
mod element;
mod laws;
mod number;
mod reader;
mod reading;
mod refusal;
mod trap;
mod writing;

pub use laws::{no_prefix, one_answer, one_spelling};
pub use reading::decode;
pub use refusal::{Refusal, Why};
pub use trap::{Trap, TrapView};
pub use writing::encode;

//! A machine with its journal: each entry is stored before the next step is issued.
#![tactic(auto)]

mod engine;
mod entry;
mod faults;
mod fed;
mod laws;
mod machine;
mod marks;
mod replay;
mod script;
mod scripted;

pub use engine::Engine;
pub use entry::Entry;
pub use faults::{EngineFault, MachineFault};
pub use fed::Fed;
pub use laws::{calls_law, lives_law};
pub use machine::Machine;
pub use marks::{Mark, read_mark, write_mark};
pub use script::{Script, ScriptStep, may_come, script_behind};
pub use scripted::Scripted;

//! Running a script over any machine, board, source and sink.
#![tactic(auto)]

mod course;
mod laws;
mod playing;
mod reading;
mod report;
mod running;
mod settling;
mod stop;
mod taking;

pub use laws::{run_after_crash, run_in_memory};
pub use running::{ending_at_opening, ending_of_step, run};
pub use settling::{settle_and_say, take_one};
pub use stop::StepStop;

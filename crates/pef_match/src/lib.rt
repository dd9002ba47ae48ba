//! The job of an event record: what its matching filters ask for.
#![tactic(auto)]

mod alarm;
mod alerts;
mod asked;
mod at_once;
mod job;
mod laws;
mod selecting;
mod target;

pub use at_once::target_at_once;
pub use job::Job;
pub use laws::targets_law;
pub use selecting::job_of;
pub use target::Target;

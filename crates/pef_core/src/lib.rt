//! The controller of Platform Event Filtering as a machine over its history.
#![tactic(auto)]

mod arriving;
mod commands;
mod controller;
mod entries;
mod events;
mod item;
mod laws;
mod machine;
mod note;
mod postpone;
mod replying;
mod report;
mod settings;
mod showing;
mod summary;

pub use controller::Controller;
pub use item::Item;
pub use laws::{hold_law, idle_law, job_law, order_law, retry_law, sequence_law, start_law};
pub use note::Note;
pub use postpone::Postpone;
pub use summary::Summary;

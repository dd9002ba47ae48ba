//! LAN configuration parameters, alert destinations, and the attempts to deliver an alert to one.
#![tactic(auto)]

mod attempt;
mod code;
mod destination;
mod getting;
mod lan;
mod setting;
mod usable;

pub use attempt::Attempt;
pub use destination::{Destination, Ports};
pub use lan::Lan;

//! Running a machine over a feed, on any board and sink.
#![tactic(auto)]

mod arrivals;
mod listening;
mod running;
mod stop;

pub use running::listen;

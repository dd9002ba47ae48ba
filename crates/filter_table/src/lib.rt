//! Event filters, which events they match, and the table of filters.
#![tactic(auto)]

mod data_test;
mod fault;
mod filter;
mod filters;
mod laws;
mod matching;

pub use fault::NoSuch;
pub use filter::Filter;
pub use filters::Filters;
pub use laws::matching_law;
pub use matching::matches;

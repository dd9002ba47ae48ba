//! Alert strings and their keys.
#![tactic(auto)]

mod fault;
mod numbers;
mod strings;
mod text;

pub use fault::StringFault;
pub use strings::Strings;

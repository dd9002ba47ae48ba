//! Requests to the controller, and the commands that they are.
#![tactic(auto)]

mod command;
mod parsing;
mod request;

pub use command::Command;
pub use parsing::parse;
pub use request::Request;

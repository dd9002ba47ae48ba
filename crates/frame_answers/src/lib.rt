//! What an RMCP frame asks of the controller, and what is answered.
#![tactic(auto)]

mod answer;
mod answering;
mod kind;
mod laws;
mod reading;
mod replies;

pub use answer::Answered;
pub use answering::{answered, kind_of};
pub use kind::FrameKind;
pub use laws::{by_layout, few_replies};
pub use replies::Replies;

//! The body of a platform event trap: its octets, its text, and the body of an event.
#![tactic(auto)]

mod ack;
mod body;
mod event;
mod fault;
mod reading;
mod tail;
mod writing;

pub use ack::{PetAck, pet_ack_of};
pub use body::Body;
pub use event::{Identity, body_of, specific_of};
pub use fault::BodyFault;
pub use tail::{tail_of, tail_text};

//! The trap of an alert, and the acknowledgement that is awaited for it.
#![tactic(auto)]

mod acknowledgement;
mod draw;
mod laws;
mod origin;
mod sending;

pub use acknowledgement::awaited;
pub use draw::Draw;
pub use laws::{acknowledgement_law, trap_law};
pub use origin::Origin;
pub use sending::trap_of;

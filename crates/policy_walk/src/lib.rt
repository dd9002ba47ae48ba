//! The walk over the stops of a policy set: which destination is next in the light of how the last alert ended.
#![tactic(auto)]

mod after;
mod laws;
mod stop;
mod walk;

pub use laws::policy_law;
pub use stop::Stop;
pub use walk::{STOPS, Walk};

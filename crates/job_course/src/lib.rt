//! What runs: the course of one job, from its act over its alerts to the OEM action.
#![tactic(auto)]

mod counts;
mod own;
mod part;
mod progress;
mod running;
mod turn;
mod turns;
mod work;

pub use counts::Counts;
pub use own::Own;
pub use part::{Alerting, Part};
pub use progress::Progress;
pub use running::Running;
pub use turn::Turn;
pub use turns::first_turn;
pub use work::Work;

//! How a job goes on.

use crate::running::Running;
use crate::turn::Turn;
use crate::work::Work;

/// How a job goes on behind something that counts for it.
#[derive(Drop)]
pub enum Progress {
    /// Its part is open still.
    GoesOn(Running),
    /// The part is over and ended so, and this turn comes, or none.
    Ended {
        work: Work,
        turn: Option<Turn>,
        success: bool,
    },
}

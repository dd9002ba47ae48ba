//! Whose turn it is in a job.

use board_core::Act;

/// The part of a job whose turn it is.
#[derive(Clone, Copy, Debug, PartialEq, Eq)]
pub enum Turn {
    /// One of power down, power cycle, reset and diagnostic interrupt.
    ToAct(Act),
    /// The alert of a target: the place among the job's targets where its policy set begins, and its place in that set, each
    /// counted from 0.
    ToAlert { first: usize, place: usize },
    /// The OEM action.
    ToOemAction,
}

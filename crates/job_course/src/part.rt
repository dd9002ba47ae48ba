//! A part of a job.

use board_core::Act;
use lan_dest::Attempt;

/// The part of a job that is open.
#[derive(Drop)]
pub enum Part {
    /// One of power down, power cycle, reset and diagnostic interrupt.
    Acting(Act),
    Alerting(Alerting),
    /// The OEM action.
    OemAction,
}

/// An alert that goes on.
#[derive(Drop)]
pub struct Alerting {
    /// The place among the job's targets where its policy set begins, counted from 0.
    pub first: usize,
    /// The place of its target in that set, counted from 0.
    pub place: usize,
    /// Its sequence number, 1 to 65535.
    pub sequence: u16,
    /// The time-stamp of its trap: hundredths of a second, at the moment at which it began.
    pub stamp: u32,
    pub attempt: Attempt,
}

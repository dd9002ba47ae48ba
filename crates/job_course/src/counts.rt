//! What counts for a job that runs.

use board_core::Told;
use pet_body::PetAck;

/// What brings a job that runs on.
#[derive(Clone, Copy, Debug, PartialEq, Eq)]
pub enum Counts {
    /// One second passed.
    Second,
    /// A PET Acknowledge came (IPMI 2.0, section 30.8).
    Ack(PetAck),
    /// The step that was due had this outcome.
    Heard(Told),
}

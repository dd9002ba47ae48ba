//! Why octets are no body.

use thiserror::Error;

/// Why octets are no body of a trap, with their number.
#[derive(Clone, Copy, Debug, PartialEq, Eq, Error)]
pub enum BodyFault {
    /// Fewer than 46 octets.
    #[error("a body of {0} octets is too short")]
    Short(usize),
    /// More than 110 octets.
    #[error("a body of {0} octets is too long")]
    Long(usize),
}

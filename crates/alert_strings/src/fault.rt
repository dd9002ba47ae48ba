//! Why there is no such string or block.

use thiserror::Error;

/// Why there is no such string or block.
#[derive(Clone, Copy, Debug, PartialEq, Eq, Error)]
pub enum StringFault {
    /// The number of the string is above 8.
    #[error("there is no alert string {0}")]
    NoSuch(u8),
    /// The block isn't 1 to 4.
    #[error("there is no block {0} in an alert string")]
    NoBlock(u8),
}

//! Why the table has no such filter.

use thiserror::Error;

/// The table has no filter of this number.
#[derive(Clone, Copy, Debug, PartialEq, Eq, Error)]
#[error("there is no filter {0}")]
pub struct NoSuch(pub u8);

//! Why the table has no such entry.

use thiserror::Error;

/// There is no entry of this number: entries are numbered from 1 to 16.
#[derive(Clone, Copy, Debug, PartialEq, Eq, Error)]
#[error("there is no policy entry {0}")]
pub struct NoSuch(pub u8);

//! By what a trap is known.
ghost use Rattle.std.specs.Prelude.{◌≡◌};
ghost use Rattle.trap_console.specs.Rows.{key_of, is_key};

use crate::row::Row;
use pet_body::Body;

/// What tells one trap from another: who sent it, and which of the sender's traps it is.
#[derive(Clone, Copy, Debug, PartialEq, Eq, PartialOrd, Ord)]
pub struct Key {
    /// The system GUID.
    pub guid: [u8; 16],
    /// The alert's sequence number.
    pub sequence: u16,
    /// The local timestamp.
    pub timestamp: u32,
}

/// The key of a trap with this body.
pub fn key_of(body: &Body) -> Key
    ensures { result ≡ key_of body.now }
{
    Key {
        guid: body.guid,
        sequence: body.sequence,
        timestamp: body.timestamp,
    }
}

/// Whether the row has this key.
pub(crate) fn has_key(row: &Row, key: &Key) -> bool
    ensures { result ≡ is_key key.now row.now }
{
    key_of(&row.body) == *key
}

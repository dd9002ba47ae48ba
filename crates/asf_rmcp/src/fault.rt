//! Why octets are no frame.

ghost use Rattle.std.specs.Prelude.{◌≡◌, if◌then◌else◌};
ghost use Rattle.asf_rmcp.specs.Refusals.{fault};

use thiserror::Error;

/// What keeps octets from being a frame.
#[derive(Clone, Copy, Debug, PartialEq, Eq, Error)]
pub enum FrameWhy {
    /// The input ends too early.
    #[error("the frame is cut short")]
    Short,
    /// The version octet isn't 06h.
    #[error("another RMCP version")]
    Version,
    /// The class is neither ASF nor IPMI, or not the wanted one.
    #[error("another message class")]
    Class,
    /// The enterprise isn't 4542, that of ASF.
    #[error("another enterprise")]
    Enterprise,
    /// The message is neither a ping nor a pong.
    #[error("neither a ping nor a pong")]
    Kind,
    /// A message that says it is authenticated.
    #[error("another authentication type")]
    Auth,
    /// A message of a session.
    #[error("a session's message")]
    Session,
    /// The length octet can't be that of such a message.
    #[error("bad length")]
    Length,
    /// Octets follow where none are wanted.
    #[error("octets follow the message")]
    Trailing,
    /// A checksum isn't the one that its octets want.
    #[error("checksum {have:02x}h where {want:02x}h is wanted")]
    Checksum {
        /// What makes the sum 0 modulo 256.
        want: u8,
        /// What stands there.
        have: u8,
    },
}

/// The first thing that is wrong with a frame.
#[derive(Clone, Copy, Debug, PartialEq, Eq, Error)]
#[error("{why} at octet {at}")]
pub struct FrameFault {
    /// How many octets of the input stand before the place.
    pub at: usize,
    /// What is wrong there.
    pub why: FrameWhy,
}

impl FrameFault {
    pub(crate) fn new(at: usize, why: FrameWhy) -> FrameFault
        ensures { result ≡ fault at why }
    {
        FrameFault { at, why }
    }
}

/// Refuses the octets for this, at this place, unless the condition holds.
pub fn ensure(holds: bool, at: usize, why: FrameWhy) -> Result<(), FrameFault>
    ensures { result ≡ (if holds then Ok tt else Err (fault at why)) }
{
    if holds {
        Ok(())
    } else {
        Err(FrameFault::new(at, why))
    }
}

// What a network gives.
ghost use Rattle.std.specs.Prelude.{ℕ, Option};
ghost use Rattle.board_core.specs.Causes.{IsCount};
ghost use Rattle.board_core.specs.Feed.{Arrivals, Gives, HasFeedCause};

use crate::lists::Octets;
use crate::step::Address;

/// What a feed answers.
#[derive(Drop)]
pub enum Arrival {
    /// A datagram came from this address. One of more than 512 octets is given as its first 512.
    Datagram { from: Address, octets: Octets },
    /// One more second passed.
    Tick,
    /// Nothing more arrives.
    End,
    /// The call failed, and gave nothing.
    Failed,
}

impl Arrival {
    ghost use Rattle.std.specs.Prelude.{◌≡◌};

    /// The same arrival.
    pub fn copy(&self) -> Arrival
        ensures { result ≡ self.now }
    {
        match self {
            Arrival::Datagram { from, octets } => Arrival::Datagram {
                from: *from,
                octets: octets.copy(),
            },
            Arrival::Tick => Arrival::Tick,
            Arrival::End => Arrival::End,
            Arrival::Failed => Arrival::Failed,
        }
    }
}

/// What gives the datagrams and the seconds that arrive, one at a call.
pub trait Feed {
    /// What is still to arrive, what was given and whether the end was told, where the feed tells it.
    ghost arrivals: { Self → Option Arrivals };

    /// How often a call failed, a count that never falls.
    ghost faults: { Self → ℕ };

    /// Gives the first of what is still to arrive. It answers `End` only where nothing is. A failure gives nothing.
    fn next(&mut self) -> Arrival
        ensures gives { Gives (arrivals self.old) (arrivals self.new) result }
        ensures cause { HasFeedCause (faults self.old) (faults self.new) result };

    ghost counted: { (feed : Self) → IsCount (faults feed) };
}

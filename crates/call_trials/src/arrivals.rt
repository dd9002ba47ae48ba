//! What arrives in a trial.
ghost use Rattle.std.specs.Prelude.{All};
ghost use Rattle.board_core.specs.Feed.{IsArrived};

use board_core::{Arrival, MemFeed};
use std::alloc::{AllocError, Global};

/// Datagrams and seconds, in the order of their arrival.
#[derive(Drop)]
pub struct Arrivals {
    kept: Vec<Arrival>,
    ghost arrive: { All IsArrived kept.items },
}

impl Arrivals {
    /// Nothing arrives.
    pub fn new(alloc: Global) -> Arrivals {
        Arrivals {
            kept: Vec::new(alloc),
        }
    }

    /// One more arrival, where it is a datagram or a second.
    pub fn push(&mut self, arrival: Arrival) -> Result<(), AllocError> {
        match arrival {
            Arrival::Datagram { from, octets } => {
                self.kept.push(Arrival::Datagram { from, octets })?;
            }
            Arrival::Tick => self.kept.push(Arrival::Tick)?,
            Arrival::End => {}
            Arrival::Failed => {}
        }
        Ok(())
    }

    /// A feed of these arrivals, whose calls with the numbers in `failing` fail.
    pub fn feed(&self, alloc: Global, failing: &[u64]) -> Result<MemFeed, AllocError> {
        MemFeed::new(alloc, &self.kept, failing)
    }

    /// What is left of the first `count` arrivals when so many are stored. A console stores no seconds.
    pub fn behind(
        &self,
        alloc: Global,
        count: usize,
        stored: usize,
        seconds: bool,
    ) -> Result<Arrivals, AllocError> {
        let mut passed = 0usize;
        let mut left = Arrivals::new(alloc);
        for arrival in self.kept.iter().take(count) {
            if passed >= stored {
                left.push(arrival.copy())?;
            } else if seconds || is_datagram(arrival) {
                passed = passed.saturating_add(1);
            }
        }
        Ok(left)
    }
}

fn is_datagram(arrival: &Arrival) -> bool {
    match arrival {
        Arrival::Datagram { .. } => true,
        _ => false,
    }
}

// A feed in memory.
ghost use Rattle.std.specs.Prelude.{◌≡◌, ◌≤◌, All, IfOk, vec_len};
ghost use Rattle.board_core.specs.Causes.{IsCount};
ghost use Rattle.board_core.specs.Feed.{IsArrived};

use crate::failures::Failures;
use crate::feed::{Arrival, Feed};
use std::alloc::{AllocError, Global};

/// A feed that gives arrivals held in memory, and `End` after the last.
#[derive(Drop)]
pub struct MemFeed {
    arrivals: Vec<Arrival>,
    place: usize,
    ended: bool,
    failures: Failures,
    faults: u64,
    ghost arrive: { All IsArrived arrivals.items },
    ghost within: { place ≤ vec_len arrivals },
    ghost counted: { IsCount faults },
}

impl MemFeed {
    ghost use Rattle.std.specs.Prelude.{◌≡◌, [], All, false, IfOk};
    ghost use Rattle.board_core.specs.Feed.{IsArrived};
    ghost use Rattle.board_core.specs.MemoryFeed.{arrivals_in};

    /// A feed of these arrivals, which are datagrams and ticks. Its calls with the numbers in `failing` are to fail. The first call
    /// has the number 0.
    pub fn new(alloc: Global, arrivals: &[Arrival], failing: &[u64]) -> Result<MemFeed, AllocError>
        requires arrive { All IsArrived arrivals.now }
        ensures arrivals { IfOk result (λ feed. arrivals_in feed ≡ record { coming = arrivals.now; given = []; ended = false }) }
        ensures listed { IfOk result (λ feed. feed.failures.listed.items ≡ failing.now) }
        ensures next { IfOk result (λ feed. feed.failures.next ≡ 0) }
        ensures faults { IfOk result (λ feed. feed.faults ≡ 0) }
    {
        Ok(MemFeed {
            arrivals: copies(alloc, arrivals)?,
            place: 0,
            ended: false,
            failures: Failures::new(alloc, failing)?,
            faults: 0,
        })
    }
}

impl Feed for MemFeed {
    ghost use Rattle.std.specs.Prelude.{◌≡◌, ◌↔◌, Some};
    ghost use Rattle.board_core.specs.Failures.{FailsNext, CountsOne};
    ghost use Rattle.board_core.specs.Feed.{Gives, HasFeedCause};
    ghost use Rattle.board_core.specs.MemoryFeed.{arrivals_in};

    ghost arrivals = { λ feed. Some (arrivals_in feed) };

    ghost faults = { λ feed. feed.faults };

    ghost counted = { λ feed. feed.counted };

    fn next(&mut self) -> Arrival
        ensures gives { Gives (Some (arrivals_in self.old)) (Some (arrivals_in self.new)) result }
        ensures cause { HasFeedCause self.old.faults self.new.faults result }
        ensures fails { result ≡ Arrival.Failed ↔ FailsNext self.old.failures }
        ensures counted { CountsOne self.old.failures self.new.failures }
    {
        if self.failures.count() {
            self.faults = self.faults.saturating_add(1);
            return Arrival::Failed;
        }
        if self.place == self.arrivals.len() {
            self.ended = true;
            return Arrival::End;
        }
        let arrival = self.arrivals[self.place].copy();
        self.place += 1;
        arrival
    }
}

// The same arrivals, in memory of their own.
fn copies(alloc: Global, arrivals: &[Arrival]) -> Result<Vec<Arrival>, AllocError>
    ensures { IfOk result (λ copies. copies.items ≡ arrivals.now) }
{
    let mut copies = Vec::new(alloc);
    for one in arrivals {
        copies.push(one.copy())?;
    }
    Ok(copies)
}

// The calls of an object in memory that are to fail.
ghost use Rattle.std.specs.Prelude.{◌≡◌, ◌↔◌, IsTrue, IfOk};

use std::alloc::{AllocError, Global};

/// The calls of one kind that are to fail, by their number from 0, and the number of the next one.
#[derive(Drop)]
pub struct Failures {
    listed: Vec<u64>,
    next: u64,
}

impl Failures {
    ghost use Rattle.board_core.specs.Failures.{FailsNext, CountsOne};

    /// The calls with these numbers fail, and the next call is number 0.
    pub fn new(alloc: Global, listed: &[u64]) -> Result<Failures, AllocError>
        ensures listed { IfOk result (λ failures. failures.listed.items ≡ listed.now) }
        ensures next { IfOk result (λ failures. failures.next ≡ 0) }
    {
        Ok(Failures {
            listed: listed.to_vec(alloc)?,
            next: 0,
        })
    }

    /// Counts one more call, and tells whether it is to fail.
    pub fn count(&mut self) -> bool
        ensures listed { IsTrue result ↔ FailsNext self.old }
        ensures counted { CountsOne self.old self.new }
    {
        let is_listed = self.listed.contains(&self.next);
        self.next = self.next.saturating_add(1);
        is_listed
    }
}

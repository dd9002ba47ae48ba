// Seconds of the clock that never goes back.
ghost use Rattle.std.specs.Prelude.{◌≡◌, ◌+◌, ◌-◌, ◌*◌, ◌^◌, ◌<◌, ◌≤◌, ◌↔◌, min, None, Ok, IsNone, IsSome, IfSome, IfOk};
ghost use Rattle.std.specs.Duration.{as_nanos};

use std::io;
use std::time::{Clock, Duration, Instant};

// The count of seconds stands still here.
const LAST: u64 = u64::MAX - 1;

/// The seconds since the first time that it was asked, of which each is given once.
#[derive(Drop)]
pub struct Seconds {
    start: Option<Instant>,
    given: u64,
    ghost few: { given < 2 ^ 64 - 1 },
}

impl Seconds {
    /// It wasn't asked yet.
    pub fn new() -> Seconds {
        Seconds {
            start: None,
            given: 0,
        }
    }

    /// The time until the next second ends. None where it has ended, and then it is given.
    pub fn until_next<C: Clock>(&mut self, clock: &C) -> io::Result<Option<Duration>>
        ensures start { IsSome self.old.start → self.new.start ≡ self.old.start }
        ensures given { result ≡ Ok None → self.new.given ≡ min (self.old.given + 1) (2 ^ 64 - 2) }
        ensures same { (result ≡ Ok None → ⊥) → self.new.given ≡ self.old.given }
        ensures left { IfOk result (λ left. IfSome left (λ time. 0 < as_nanos time)) }
    {
        let now = Instant::now(clock)?;
        let start = self.start.unwrap_or(now);
        self.start = Some(start);
        let left = left_of(now.duration_since(start), self.given);
        if left.is_none() && self.given < LAST {
            self.given += 1;
        }
        Ok(left)
    }
}

// The time that is left of the second behind so many, where this time has passed. None where it has ended.
fn left_of(passed: Duration, given: u64) -> Option<Duration>
    requires few { given < 2 ^ 64 - 1 }
    ensures ended { IsNone result ↔ ((given + 1) * 1000000000 ≤ as_nanos passed) }
    ensures left { IfSome result (λ left. as_nanos left + as_nanos passed ≡ (given + 1) * 1000000000) }
    ensures some { IfSome result (λ left. 0 < as_nanos left) }
{
    if passed.as_secs() > given {
        return None;
    }
    let whole = Duration::from_secs(given - passed.as_secs());
    let part = Duration::from_nanos(1_000_000_000 - u64::from(passed.subsec_nanos()));
    whole.checked_add(part)
}

#[cfg(test)]
mod tests;

// Counts of faults.
ghost use Rattle.std.specs.Prelude.{◌≡◌, ◌↔◌, ◌≤◌, None, Ok, IfOk, IfErr, OnOk, IsErr};
ghost use Rattle.board_core.specs.Causes.{HasCause, Rose, IsCount};
ghost use Rattle.real_devices.specs.Failures.{first_of};

use crate::failure::{Call, Failure};
use std::io;

/// How often a device failed, and the first of its failures.
#[derive(Drop)]
pub struct Faults {
    pub(crate) count: u64,
    pub(crate) first: Option<Failure>,
    ghost counted: { IsCount count },
}

impl Faults {
    /// None yet.
    pub fn new() -> Faults
        ensures count { result.count ≡ 0 }
        ensures first { result.first ≡ None }
    {
        Faults {
            count: 0,
            first: None,
        }
    }

    /// One more, which is kept where it is the first. The count stands still at its type's end.
    pub fn add(&mut self, failure: Failure)
        ensures rose { Rose self.old.count self.new.count }
        ensures later { self.old.count ≤ self.new.count }
        ensures first { self.new.first ≡ first_of self.old.first failure }
    {
        self.count = self.count.saturating_add(1);
        if self.first.is_none() {
            self.first = Some(failure);
        }
    }
}

/// Hands an answer of a call on, with `fault` in place of an error, which is counted.
pub fn counted<T: Drop, E: Drop>(
    answer: io::Result<T>,
    call: Call,
    faults: &mut Faults,
    fault: E,
) -> Result<T, E>
    ensures value { IfOk answer (λ value. result ≡ Ok value) }
    ensures failed { IsErr result ↔ IsErr answer }
    ensures cause { HasCause faults.old.count faults.new.count result }
    ensures first { IfErr answer (λ error. faults.new.first ≡ first_of faults.old.first (record { call = call; error = error })) }
    ensures same { OnOk result (faults.new.first ≡ faults.old.first) }
{
    match answer {
        Ok(value) => Ok(value),
        Err(error) => {
            faults.add(Failure { call, error });
            Err(fault)
        }
    }
}

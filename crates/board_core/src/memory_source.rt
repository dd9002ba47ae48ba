// A source in memory.
ghost use Rattle.std.specs.Prelude.{◌≤◌, vec_len};
ghost use Rattle.board_core.specs.Causes.{IsCount};

use crate::failures::Failures;
use crate::source::{Source, SourceFailed};
use std::alloc::{AllocError, Global};

/// A source that gives octets held in memory, as many at a read as there is room for.
#[derive(Drop)]
pub struct MemSource {
    content: Vec<u8>,
    place: usize,
    failures: Failures,
    faults: u64,
    ghost within: { place ≤ vec_len content },
    ghost counted: { IsCount faults },
}

impl MemSource {
    ghost use Rattle.std.specs.Prelude.{◌≡◌, IfOk};
    ghost use Rattle.board_core.specs.MemorySource.{left_in};

    /// A source of `content`, whose reads with the numbers in `failing` are to fail. The first read has the number 0.
    pub fn new(alloc: Global, content: &[u8], failing: &[u64]) -> Result<MemSource, AllocError>
        ensures left { IfOk result (λ source. left_in source ≡ content.now) }
        ensures listed { IfOk result (λ source. source.failures.listed.items ≡ failing.now) }
        ensures next { IfOk result (λ source. source.failures.next ≡ 0) }
        ensures faults { IfOk result (λ source. source.faults ≡ 0) }
    {
        Ok(MemSource {
            content: content.to_vec(alloc)?,
            place: 0,
            failures: Failures::new(alloc, failing)?,
            faults: 0,
        })
    }
}

impl Source for MemSource {
    ghost use Rattle.std.specs.Prelude.{◌≡◌, ◌≤◌, ◌↔◌, min, length, Some, IsErr, IfOk};
    ghost use Rattle.board_core.specs.Causes.{HasCause};
    ghost use Rattle.board_core.specs.Source.{Takes};
    ghost use Rattle.board_core.specs.Failures.{FailsNext, CountsOne};
    ghost use Rattle.board_core.specs.MemorySource.{left_in};

    ghost left = { λ source. Some (left_in source) };

    ghost faults = { λ source. source.faults };

    ghost counted = { λ source. source.counted };

    fn read(&mut self, into: &mut [u8]) -> Result<usize, SourceFailed>
        ensures room { IfOk result (λ count. count ≤ length into.old) }
        ensures taken { Takes (Some (left_in self.old)) (Some (left_in self.new)) result into.new }
        ensures cause { HasCause self.old.faults self.new.faults result }
        ensures fails { IsErr result ↔ FailsNext self.old.failures }
        ensures counted { CountsOne self.old.failures self.new.failures }
        ensures whole { IfOk result (λ count. count ≡ min (length into.old) (length (left_in self.old))) }
    {
        if self.failures.count() {
            self.faults = self.faults.saturating_add(1);
            return Err(SourceFailed);
        }
        let left = &self.content[self.place..];
        let count = left.len().min(into.len());
        into[..count].copy_from_slice(&left[..count]);
        self.place += count;
        Ok(count)
    }
}

// A sink in memory.
ghost use Rattle.board_core.specs.Causes.{IsCount};

use crate::sink::{Sink, SinkFailed};
use std::alloc::Global;

/// A sink that keeps what is written to it.
#[derive(Drop)]
pub struct MemSink {
    octets: Vec<u8>,
    failing: Option<u64>,
    next: u64,
    starved: u64,
    faults: u64,
    ghost counted: { IsCount faults },
}

impl MemSink {
    ghost use Rattle.std.specs.Prelude.{◌≡◌, []};

    /// An empty sink, whose write with the number `failing` is to fail. The first write has the number 0.
    pub fn new(alloc: Global, failing: Option<u64>) -> MemSink
        ensures written { result.octets.items ≡ [] }
        ensures failing { result.failing ≡ failing }
        ensures next { result.next ≡ 0 }
        ensures starved { result.starved ≡ 0 }
        ensures faults { result.faults ≡ 0 }
    {
        MemSink {
            octets: Vec::new(alloc),
            failing,
            next: 0,
            starved: 0,
            faults: 0,
        }
    }

    /// All that was written.
    pub fn written(&self) -> &[u8]
        ensures { result.now ≡ self.now.octets.items }
    {
        &self.octets
    }

    /// How often a write found no memory. The count is at most 2^64 - 1 and never falls.
    pub fn starved(&self) -> u64
        ensures { result ≡ self.now.starved }
    {
        self.starved
    }
}

impl Sink for MemSink {
    ghost use Rattle.std.specs.Prelude.{◌≡◌, Some, IsErr, OnErr};
    ghost use Rattle.board_core.specs.Causes.{HasCause};
    ghost use Rattle.board_core.specs.Source.{Appends};
    ghost use Rattle.board_core.specs.Failures.{FailsExactly, one_more};

    ghost written = { λ sink. Some sink.octets.items };

    ghost faults = { λ sink. sink.faults };

    ghost counted = { λ sink. sink.counted };

    fn write(&mut self, from: &[u8]) -> Result<(), SinkFailed>
        ensures appended { Appends from.now (Some self.old.octets.items) (Some self.new.octets.items) result }
        ensures cause { HasCause self.old.faults self.new.faults result }
        ensures fails { FailsExactly (self.old.failing ≡ Some self.old.next) self.old.starved self.new.starved (IsErr result) }
        ensures nothing { OnErr result (self.new.octets.items ≡ self.old.octets.items) }
        ensures failing { self.new.failing ≡ self.old.failing }
        ensures counted { self.new.next ≡ one_more self.old.next }
    {
        let is_listed = self.failing == Some(self.next);
        self.next = self.next.saturating_add(1);
        if is_listed {
            self.faults = self.faults.saturating_add(1);
            return Err(SinkFailed);
        }
        if self.octets.extend_from_slice(from).is_err() {
            self.starved = self.starved.saturating_add(1);
            self.faults = self.faults.saturating_add(1);
            return Err(SinkFailed);
        }
        Ok(())
    }
}

// What a board in memory keeps: its file, the steps issued, and the calls from which each crash can be read.
ghost use Rattle.std.specs.Prelude.{◌≡◌, length, true};
ghost use Rattle.board_core.specs.Moments.{fresh_state, state_after, are_placed};

use crate::call::{Calls, Effect};
use crate::file::{padded, put};
use crate::step::Sent;
use std::alloc::{AllocError, Global};

/// The file of a board in memory, its steps, and the calls that made both of what it began with.
#[derive(Drop)]
pub struct Trace {
    alloc: Global,
    // the file and the number of steps that it began with
    pub start: Vec<u8>,
    pub earlier: usize,
    pub octets: Vec<u8>,
    pub sent: Vec<Sent>,
    pub calls: Calls,
    ghost replayed: { octets.items ≡ (state_after start.items earlier calls.kept.items).octets },
    ghost listed: { (state_after start.items earlier calls.kept.items).issued ≡ length sent.items },
    ghost placed: { are_placed (fresh_state start.items earlier) calls.kept.items ≡ true },
}

impl Trace {
    ghost use Rattle.std.specs.Prelude.{◌≡◌, ◌≤◌, ◌-◌, [], ◌∷◌, ◌++◌, min, length, replicate, IfOk, OnOk, OnErr};
    ghost use Rattle.board_core.specs.Failures.{one_more};
    ghost use Rattle.board_core.specs.Kept.{past_of, with_call, with_step, KeepsNothing};
    ghost use Rattle.board_core.specs.declared.call.Effect.TheVariants.{Wrote, Spoiled, Synced};

    /// A file with this content, on which no call was made, and the steps issued so far.
    pub fn new(alloc: Global, content: &[u8], sent: Vec<Sent>) -> Result<Trace, AllocError>
        ensures octets { IfOk result (λ trace. trace.octets.items ≡ content.now) }
        ensures past { IfOk result (λ trace. past_of trace ≡ record { start = content.now; earlier = length sent.items; calls = []; sent = sent.items; made = 0 }) }
    {
        Ok(Trace {
            alloc,
            start: content.to_vec(alloc)?,
            earlier: sent.len(),
            octets: content.to_vec(alloc)?,
            sent,
            calls: Calls::new(alloc),
        })
    }

    /// Counts a call that does nothing.
    pub fn pass(&mut self)
        ensures nothing { KeepsNothing self.old self.new }
    {
        self.calls.pass();
    }

    /// Keeps a write. An octet between the file's end and the place is 00h. At Err there was no memory, and nothing is written.
    pub fn write(&mut self, place: usize, from: &[u8]) -> Result<(), AllocError>
        ensures kept { OnOk result ((octets : _) × (octets.items ≡ replicate (place - length self.old.octets.items) 0 ++ from.now)
            × (past_of self.new ≡ with_call (Wrote (min place (length self.old.octets.items)) octets) (past_of self.old))) }
        ensures nothing { OnErr result (KeepsNothing self.old self.new) }
        ensures counted { self.new.calls.made ≡ one_more self.old.calls.made }
    {
        self.calls.begin()?;
        let at = place.min(self.octets.len());
        let written = padded(self.alloc, place - at, from)?;
        put(&mut self.octets, at, &written)?;
        self.calls.keep(Effect::Wrote {
            place: at as u64,
            octets: written,
        });
        Ok(())
    }

    /// Keeps a write that failed. At Err there was no memory.
    pub fn spoil(&mut self, place: usize, count: usize) -> Result<(), AllocError>
        ensures octets { self.new.octets.items ≡ self.old.octets.items }
        ensures kept { OnOk result (past_of self.new ≡ with_call (Spoiled (min place (length self.old.octets.items)) count) (past_of self.old)) }
        ensures nothing { OnErr result (KeepsNothing self.old self.new) }
        ensures counted { self.new.calls.made ≡ one_more self.old.calls.made }
    {
        self.calls.begin()?;
        let at = place.min(self.octets.len());
        self.calls.keep(Effect::Spoiled {
            place: at as u64,
            count: count as u64,
        });
        Ok(())
    }

    /// Keeps a sync. At Err there was no memory, and nothing is synced.
    pub fn sync(&mut self) -> Result<(), AllocError>
        ensures octets { self.new.octets.items ≡ self.old.octets.items }
        ensures kept { OnOk result (past_of self.new ≡ with_call Synced (past_of self.old)) }
        ensures nothing { OnErr result (KeepsNothing self.old self.new) }
        ensures counted { self.new.calls.made ≡ one_more self.old.calls.made }
    {
        self.calls.begin()?;
        self.calls.keep(Effect::Synced);
        Ok(())
    }

    /// Keeps a step that is issued. At Err there was no memory, and it is not listed.
    pub fn issue(&mut self, sent: Sent) -> Result<(), AllocError>
        ensures octets { self.new.octets.items ≡ self.old.octets.items }
        ensures kept { OnOk result (past_of self.new ≡ with_step sent (past_of self.old)) }
        ensures nothing { OnErr result (KeepsNothing self.old self.new) }
        ensures counted { self.new.calls.made ≡ one_more self.old.calls.made }
    {
        self.calls.begin()?;
        self.sent.push(sent)?;
        self.calls.keep(Effect::Issued);
        Ok(())
    }
}

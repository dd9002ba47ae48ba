// A board in memory.
ghost use Rattle.board_core.specs.Causes.{IsCount};

use crate::board::{Board, DiskFailed};
use crate::crash::copies;
use crate::failures::Failures;
use crate::file::get;
use crate::step::{Sent, Step, Told};
use crate::trace::Trace;
use std::alloc::{AllocError, Global};

/// A board in memory. It keeps what its calls did, so that what a crash at each moment leaves can be read off it.
/// A write that fails leaves what a read gives, but until a sync a crash may leave any octets in its range.
/// An `issue` that finds no memory to note its step answers `Failed`, and the board tells its content no longer: its calls
/// then take any place, and an octet past the end counts as 00h.
#[derive(Drop)]
pub struct MemBoard {
    trace: Trace,
    tells: bool,
    file_calls: Failures,
    issue_calls: Failures,
    // how many calls found no memory
    starved: u64,
    disk_faults: u64,
    issue_faults: u64,
    ghost disk_counted: { IsCount disk_faults },
    ghost issue_counted: { IsCount issue_faults },
}

impl MemBoard {
    ghost use Rattle.std.specs.Prelude.{◌≡◌, ◌≤◌, [], true, length, IfOk};
    ghost use Rattle.board_core.specs.MemoryBoard.{memory_view};
    ghost use Rattle.board_core.specs.Crash.{IsMade, Crashes};

    /// A board with this file, on which no step was issued.
    /// The calls of `len`, `read_at`, `write_at` and `sync` are numbered together from 0, and `failing_disk` lists those that
    /// are to fail. The calls of `issue` have numbers of their own from 0, and `failing_issue` lists those that are to fail.
    pub fn new(
        alloc: Global,
        content: &[u8],
        failing_disk: &[u64],
        failing_issue: &[u64],
    ) -> Result<MemBoard, AllocError>
        ensures { IfOk result (IsMade content.now [] failing_disk.now failing_issue.now) }
    {
        MemBoard::made(alloc, content, Vec::new(alloc), failing_disk, failing_issue)
    }

    /// The board that a crash at a moment leaves, and None exactly where there is no such moment.
    /// Moment 2k stands after the first k calls on the board, and moment 2k + 1 in the middle of the next one.
    /// Each octet that a crash may change is `torn`, the file is as long as the disk model allows, and no call is to fail.
    /// A step in `issue` at that moment counts as issued.
    pub fn crash(
        &self,
        alloc: Global,
        moment: u64,
        torn: u8,
    ) -> Result<Option<MemBoard>, AllocError>
        ensures { IfOk result (Crashes self.now moment torn) }
    {
        if moment / 2 + moment % 2 > self.trace.calls.made {
            return Ok(None);
        }
        let left = self.trace.replay(alloc, moment, torn)?;
        let sent = copies(alloc, &self.trace.sent[..left.issued])?;
        Ok(Some(MemBoard::made(alloc, &left.image, sent, &[], &[])?))
    }

    fn made(
        alloc: Global,
        content: &[u8],
        sent: Vec<Sent>,
        failing_disk: &[u64],
        failing_issue: &[u64],
    ) -> Result<MemBoard, AllocError>
        ensures { IfOk result (IsMade content.now sent.items failing_disk.now failing_issue.now) }
    {
        Ok(MemBoard {
            trace: Trace::new(alloc, content, sent)?,
            tells: true,
            file_calls: Failures::new(alloc, failing_disk)?,
            issue_calls: Failures::new(alloc, failing_issue)?,
            starved: 0,
            disk_faults: 0,
            issue_faults: 0,
        })
    }

    /// The file, as a read gives it.
    pub fn octets(&self) -> &[u8]
        ensures { result.now ≡ (memory_view self.now).octets }
    {
        &self.trace.octets
    }

    /// The steps issued, with what was told of each.
    pub fn issued(&self) -> &[Sent]
        ensures { result.now ≡ (memory_view self.now).sent }
    {
        &self.trace.sent
    }

    /// How often a call found no memory. The count is at most 2^64 - 1 and never falls.
    pub fn starved(&self) -> u64
        ensures { result ≡ self.now.starved }
    {
        self.starved
    }
}

impl Board for MemBoard {
    ghost use Rattle.std.specs.Prelude.{◌≡◌, ◌↔◌, ◌⊎◌, ◌+◌, ◌^◌, ◌<◌, ◌≤◌, length, false, IsTrue, IsErr, IfOk, OnOk, OnErr};
    ghost use Rattle.board_core.specs.declared.step.Told.TheVariants.{Done, Failed};
    ghost use Rattle.board_core.specs.Causes.{HasCause, Rose};
    ghost use Rattle.board_core.specs.Board.{Reads, ReadsAt, TakesWrite, Syncs, Issues, HasRoomFor};
    ghost use Rattle.board_core.specs.Failures.{FailsNext, FailsExactly, CountsOne};
    ghost use Rattle.board_core.specs.MemoryBoard.{memory_view, IsFileCallOf, IsIssueCallOf};
    ghost use Rattle.board_core.specs.MemorySound.{memory_sound};

    ghost view = { memory_view };

    ghost sound = { memory_sound };

    fn len(&mut self) -> Result<u64, DiskFailed>
        ensures length { IsTrue (memory_view self.new).tells → IfOk result (λ n. n ≡ length (memory_view self.old).octets) }
        ensures same { Reads (memory_view self.old) (memory_view self.new) }
        ensures cause { HasCause (memory_view self.old).disk_faults (memory_view self.new).disk_faults result }
        ensures fails { IsErr result ↔ FailsNext self.old.file_calls }
        ensures counts { IsFileCallOf self.old self.new }
        ensures starved { self.new.starved ≡ self.old.starved }
    {
        self.trace.pass();
        if self.file_calls.count() {
            self.disk_faults = self.disk_faults.saturating_add(1);
            return Err(DiskFailed);
        }
        Ok(self.trace.octets.len() as u64)
    }

    fn read_at(&mut self, place: u64, into: &mut [u8]) -> Result<(), DiskFailed>
        requires { HasRoomFor (memory_view self.old) (place + length into.old) }
        ensures octets { IsTrue (memory_view self.new).tells → OnOk result (ReadsAt (memory_view self.old).octets place into.new) }
        ensures same { Reads (memory_view self.old) (memory_view self.new) }
        ensures cause { HasCause (memory_view self.old).disk_faults (memory_view self.new).disk_faults result }
        ensures fails { IsErr result ↔ FailsNext self.old.file_calls }
        ensures counts { IsFileCallOf self.old self.new }
        ensures starved { self.new.starved ≡ self.old.starved }
    {
        self.trace.pass();
        if self.file_calls.count() {
            self.disk_faults = self.disk_faults.saturating_add(1);
            return Err(DiskFailed);
        }
        get(&self.trace.octets, place as usize, into);
        Ok(())
    }

    fn write_at(&mut self, place: u64, from: &[u8]) -> Result<(), DiskFailed>
        requires place { HasRoomFor (memory_view self.old) place }
        requires end { place + length from.now ≤ 2 ^ 40 }
        ensures written { TakesWrite place from.now (memory_view self.old) (memory_view self.new) result }
        ensures cause { HasCause (memory_view self.old).disk_faults (memory_view self.new).disk_faults result }
        ensures fails { FailsExactly (FailsNext self.old.file_calls) self.old.starved self.new.starved (IsErr result) }
        ensures unchanged { OnErr result ((memory_view self.new).octets ≡ (memory_view self.old).octets) }
        ensures counts { IsFileCallOf self.old self.new }
    {
        if self.file_calls.count() {
            self.disk_faults = self.disk_faults.saturating_add(1);
            match self.trace.spoil(place as usize, from.len()) {
                Ok(()) => {}
                Err(_) => self.starved = self.starved.saturating_add(1),
            }
            return Err(DiskFailed);
        }
        match self.trace.write(place as usize, from) {
            Ok(()) => Ok(()),
            Err(_) => {
                self.starved = self.starved.saturating_add(1);
                self.disk_faults = self.disk_faults.saturating_add(1);
                Err(DiskFailed)
            }
        }
    }

    fn sync(&mut self) -> Result<(), DiskFailed>
        ensures lasting { Syncs (memory_view self.old) (memory_view self.new) result }
        ensures cause { HasCause (memory_view self.old).disk_faults (memory_view self.new).disk_faults result }
        ensures fails { FailsExactly (FailsNext self.old.file_calls) self.old.starved self.new.starved (IsErr result) }
        ensures counts { IsFileCallOf self.old self.new }
    {
        if self.file_calls.count() {
            self.trace.pass();
            self.disk_faults = self.disk_faults.saturating_add(1);
            return Err(DiskFailed);
        }
        match self.trace.sync() {
            Ok(()) => Ok(()),
            Err(_) => {
                self.starved = self.starved.saturating_add(1);
                self.disk_faults = self.disk_faults.saturating_add(1);
                Err(DiskFailed)
            }
        }
    }

    fn issue(&mut self, step: &Step) -> Told
        ensures issued { Issues step.now result (memory_view self.old) (memory_view self.new) }
        ensures cause { result ≡ Failed → Rose (memory_view self.old).issue_faults (memory_view self.new).issue_faults }
        ensures uncounted { result ≡ Done → (memory_view self.new).issue_faults ≡ (memory_view self.old).issue_faults }
        ensures fails { FailsExactly (FailsNext self.old.issue_calls) self.old.starved self.new.starved (result ≡ Failed) }
        ensures tells { IsTrue (memory_view self.old).tells → IsTrue (memory_view self.new).tells ⊎ Rose self.old.starved self.new.starved }
        ensures unnoted { self.old.starved < self.new.starved → (memory_view self.new).tells ≡ false }
        ensures counts { IsIssueCallOf self.old self.new }
    {
        let is_listed = self.issue_calls.count();
        let told = if is_listed { Told::Failed } else { Told::Done };
        let sent = Sent {
            step: step.copy(),
            told,
        };
        match self.trace.issue(sent) {
            Ok(()) => {}
            Err(_) => {
                self.starved = self.starved.saturating_add(1);
                self.issue_faults = self.issue_faults.saturating_add(1);
                self.tells = false;
                return Told::Failed;
            }
        }
        if is_listed {
            self.issue_faults = self.issue_faults.saturating_add(1);
        }
        told
    }
}

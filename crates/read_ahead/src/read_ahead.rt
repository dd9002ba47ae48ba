//! A board that reads ahead.
ghost use Rattle.std.specs.Prelude.{◌≡◌, length, IsTrue};
ghost use Rattle.std.specs.Option.{ForSome};
ghost use Rattle.read_ahead.specs.Window.{IsOf};

use crate::window::{SIZE, Window};
use board_core::{Board, DiskFailed, Step, Told};
use std::alloc::{AllocError, Global};

/// A board over a board, which keeps the file's length and up to 8,192 octets that it read ahead.
#[derive(Drop)]
pub struct ReadAhead<B: Board> {
    board: B,
    // the file's length, where it is known
    end: Option<u64>,
    window: Window,
    ghost knows_end: { IsTrue (B.view board).tells → ForSome end (λ n. n ≡ length (B.view board).octets) },
    ghost knows_octets: { IsTrue (B.view board).tells → IsOf window (B.view board).octets },
}

impl<B: Board + Drop> ReadAhead<B> {
    ghost use Rattle.std.specs.Prelude.{IfOk};

    /// Over this board, of which nothing is known yet.
    pub fn new(alloc: Global, board: B) -> Result<ReadAhead<B>, AllocError>
        ensures { IfOk result (λ ahead. ahead.board ≡ board) }
    {
        Ok(ReadAhead {
            board,
            end: None,
            window: Window::new(alloc)?,
        })
    }

    /// The board below.
    pub fn board(&self) -> &B
        ensures { result.now ≡ self.now.board }
    {
        &self.board
    }
}

impl<B: Board> ReadAhead<B> {
    ghost use Rattle.std.specs.Prelude.{◌+◌, ◌-◌, ◌≤◌, min, true, IfOk, OnOk, IsOk};
    ghost use Rattle.board_core.specs.Causes.{HasCause};
    ghost use Rattle.board_core.specs.Board.{Reads, HasRoomFor};
    ghost use Rattle.read_ahead.specs.ReadAhead.{KnowsEnd, Keeps};

    // The file's length, which is asked for once.
    fn end(&mut self) -> Result<u64, DiskFailed>
        ensures length { IsTrue (B.view self.new.board).tells → IfOk result (λ n. n ≡ length (B.view self.old.board).octets) }
        ensures same { Reads (B.view self.old.board) (B.view self.new.board) }
        ensures cause { HasCause (B.view self.old.board).disk_faults (B.view self.new.board).disk_faults result }
        ensures no_call { KnowsEnd self.old → IsOk result × (self.new ≡ self.old) }
        ensures known { OnOk result (KnowsEnd self.new) }
    {
        if let Some(end) = self.end {
            return Ok(end);
        }
        let end = self.board.len()?;
        self.end = Some(end);
        Ok(end)
    }

    // Moves the window to a place. False where it has no room for this number of octets, or the file ends before.
    fn move_to(&mut self, place: u64, count: usize) -> Result<bool, DiskFailed>
        ensures moved { IfOk result (λ moved. moved ≡ true → Keeps self.new place count) }
        ensures ahead { IsTrue (B.view self.new.board).tells → HasRoomFor (B.view self.old.board) (place + count) → count ≤ 8192 →
            OnOk result (Keeps self.new place (min 8192 (length (B.view self.old.board).octets - place))) }
        ensures same { Reads (B.view self.old.board) (B.view self.new.board) }
        ensures cause { HasCause (B.view self.old.board).disk_faults (B.view self.new.board).disk_faults result }
    {
        if count > SIZE {
            return Ok(false);
        }
        let end = self.end()?;
        if place > end || count as u64 > end - place {
            return Ok(false);
        }
        let ahead = (end - place).min(SIZE as u64) as usize;
        self.window.fill(&mut self.board, place, ahead)?;
        Ok(true)
    }
}

impl<B: Board> Board for ReadAhead<B> {
    ghost use Rattle.std.specs.Prelude.{◌+◌, ◌-◌, ◌≤◌, min, IfOk, OnOk, IsOk};
    ghost use Rattle.board_core.specs.Causes.{HasCause};
    ghost use Rattle.board_core.specs.Board.{Reads, ReadsAt, HasRoomFor};
    ghost use Rattle.read_ahead.specs.ReadAhead.{KnowsEnd, Keeps};

    ghost view = { λ ahead. B.view ahead.board };

    ghost sound = { λ ahead. B.sound ahead.board };

    /// Makes no call where the length is known, as it is from the first answer to the next write.
    fn len(&mut self) -> Result<u64, DiskFailed>
        ensures length { IsTrue (B.view self.new.board).tells → IfOk result (λ n. n ≡ length (B.view self.old.board).octets) }
        ensures same { Reads (B.view self.old.board) (B.view self.new.board) }
        ensures cause { HasCause (B.view self.old.board).disk_faults (B.view self.new.board).disk_faults result }
        ensures no_call { KnowsEnd self.old → IsOk result × (self.new ≡ self.old) }
        ensures known { OnOk result (KnowsEnd self.new) }
    {
        self.end()
    }

    /// Makes no call where the range is kept.
    fn read_at(&mut self, place: u64, into: &mut [u8]) -> Result<(), DiskFailed>
        requires { HasRoomFor (B.view self.old.board) (place + length into.old) }
        ensures octets { IsTrue (B.view self.new.board).tells → OnOk result (ReadsAt (B.view self.old.board).octets place into.new) }
        ensures same { Reads (B.view self.old.board) (B.view self.new.board) }
        ensures cause { HasCause (B.view self.old.board).disk_faults (B.view self.new.board).disk_faults result }
        ensures no_call { Keeps self.old place (length into.old) → IsOk result × (self.new ≡ self.old) }
        ensures ahead { IsTrue (B.view self.new.board).tells → (Keeps self.old place (length into.old) → ⊥) → length into.old ≤ 8192 →
            OnOk result (Keeps self.new place (min 8192 (length (B.view self.old.board).octets - place))) }
    {
        if self.window.holds(place, into.len()) {
            self.window.copy(place, into);
            return Ok(());
        }
        if self.move_to(place, into.len())? {
            self.window.copy(place, into);
            return Ok(());
        }
        self.board.read_at(place, into)
    }

    fn write_at(&mut self, place: u64, from: &[u8]) -> Result<(), DiskFailed> {
        // a write that fails may have written, and may have lengthened the file
        self.end = None;
        self.window.clear();
        self.board.write_at(place, from)
    }

    fn sync(&mut self) -> Result<(), DiskFailed> {
        self.board.sync()
    }

    fn issue(&mut self, step: &Step) -> Told {
        self.board.issue(step)
    }
}

#[cfg(test)]
mod tests;

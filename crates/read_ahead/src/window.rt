//! A range of a file that was read and is kept.
ghost use Rattle.std.specs.Prelude.{◌≡◌, ◌+◌, ◌≤◌, length, take, drop, IsTrue, OnOk};
ghost use Rattle.board_core.specs.Causes.{HasCause};
ghost use Rattle.board_core.specs.Board.{HasRoomFor, Reads};

use board_core::{Board, DiskFailed};
use std::alloc::{AllocError, Global};

/// How many octets are kept at most.
pub const SIZE: usize = 8192;

/// A range of a file: its place, and its octets.
#[derive(Drop)]
pub struct Window {
    // of which the first `count` are kept
    octets: Vec<u8>,
    place: u64,
    count: usize,
    ghost room: { length octets.items ≡ 8192 },
    ghost within: { count ≤ 8192 },
}

impl Window {
    ghost use Rattle.std.specs.Prelude.{◌↔◌, ℕ, List, IfOk, OnErr};
    ghost use Rattle.board_core.specs.Board.{ReadsAt};
    ghost use Rattle.read_ahead.specs.Window.{IsOf, HasRange, IsRange};

    /// Keeps none.
    pub fn new(alloc: Global) -> Result<Window, AllocError>
        ensures { IfOk result (λ window. window.count ≡ 0) }
    {
        Ok(Window {
            octets: vec![in alloc; 0; SIZE]?,
            place: 0,
            count: 0,
        })
    }

    /// True where this number of octets, from a place of the file on, is kept.
    pub fn holds(&self, place: u64, count: usize) -> bool
        ensures { IsTrue result ↔ HasRange self.now place count }
    {
        if place < self.place {
            return false;
        }
        let count = count as u64;
        let kept = self.count as u64;
        let before = place - self.place;
        before <= kept && count <= kept - before
    }

    /// Fills `into` with the octets from a place of the file on, which are kept.
    pub fn copy(&self, place: u64, into: &mut [u8])
        requires { HasRange self.now place (length into.old) }
        ensures { (file : List ℕ) → IsOf self.now file → ReadsAt file place into.new }
    {
        let first = (place - self.place) as usize;
        into.copy_from_slice(&self.octets[first..first + into.len()]);
    }

    /// Forgets what is kept.
    pub fn clear(&mut self)
        ensures { self.new.count ≡ 0 }
    {
        self.count = 0;
    }

    /// Reads this number of octets, from a place of the board's file on, and keeps them alone. At Err none is kept.
    pub fn fill<B: Board>(
        &mut self,
        board: &mut B,
        place: u64,
        count: usize,
    ) -> Result<(), DiskFailed>
        requires count { count ≤ 8192 }
        requires place { HasRoomFor (B.view board.old) (place + count) }
        ensures octets { IsTrue (B.view board.new).tells → IsOf self.new (B.view board.new).octets }
        ensures filled { OnOk result (IsRange place count self.new) }
        ensures failed { OnErr result (self.new.count ≡ 0) }
        ensures same { Reads (B.view board.old) (B.view board.new) }
        ensures cause { HasCause (B.view board.old).disk_faults (B.view board.new).disk_faults result }
    {
        self.count = 0;
        read_front(board, place, count, &mut self.octets)?;
        self.place = place;
        self.count = count;
        Ok(())
    }
}

// Reads this number of octets, from a place of the board's file on, and puts them first into `row`.
fn read_front<B: Board>(
    board: &mut B,
    place: u64,
    count: usize,
    row: &mut [u8],
) -> Result<(), DiskFailed>
    requires count { count ≤ length row.old }
    requires place { HasRoomFor (B.view board.old) (place + count) }
    ensures octets { IsTrue (B.view board.new).tells → OnOk result (take count row.new ≡ take count (drop place (B.view board.new).octets)) }
    ensures same { Reads (B.view board.old) (B.view board.new) }
    ensures cause { HasCause (B.view board.old).disk_faults (B.view board.new).disk_faults result }
{
    board.read_at(place, &mut row[..count])
}

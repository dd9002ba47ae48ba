//! Reading a gate, and the entry behind it.
ghost use Rattle.std.specs.Prelude.{◌≡◌, ◌↔◌, ◌+◌, ◌^◌, ◌<◌, ◌≤◌, length, take, drop, IsTrue, IfOk, OnOk, OnErr};
ghost use Rattle.board_core.specs.Causes.{HasCause};
ghost use Rattle.board_core.specs.Board.{HasRoomFor, Reads};
ghost use Rattle.pef_journal.specs.Gate.{GateIs, EndsBelow};

use crate::layout::{LONGEST, OPEN};
use board_core::{Board, DiskFailed, Payload};

/// What stands at a gate.
#[derive(Clone, Copy, Debug, PartialEq, Eq)]
pub enum Gate {
    /// The last entry stands before it.
    Closed,
    /// The gate lies beyond the file's end, or it is open and the file doesn't hold a whole entry (1 to 520 octets) and the next gate
    /// behind it.
    Corrupt,
    /// Behind it stands an entry of this length.
    Open(usize),
}

/// Reads the gate at a place, with the entry's length behind it: one `len`, and one read where a gate lies there.
pub fn read_gate<B: Board>(board: &mut B, place: u64) -> Result<Gate, DiskFailed>
    ensures file { Reads (B.view board.old) (B.view board.new) }
    ensures found { IsTrue (B.view board.new).tells → IfOk result (λ gate. GateIs (B.view board.old).octets place gate) }
    ensures ends { IfOk result (λ gate. EndsBelow (2 ^ 64) place gate) }
    ensures cause { HasCause (B.view board.old).disk_faults (B.view board.new).disk_faults result }
{
    let file_length = board.len()?;
    if place >= file_length {
        return Ok(Gate::Corrupt);
    }
    let left = file_length - place;
    // at the end of the file a length may have no room; what isn't read stays 0
    let mut head = [0; 3];
    let count = left.min(3) as usize;
    board.read_at(place, &mut head[..count])?;
    if !is_open(head[0]) {
        return Ok(Gate::Closed);
    }
    let length = usize::from(u16::from_le_bytes([head[1], head[2]]));
    if length < 1 || length > LONGEST || left <= 3 + length as u64 {
        return Ok(Gate::Corrupt);
    }
    Ok(Gate::Open(length))
}

// True where this octet is an open gate. Every other octet is a closed one.
fn is_open(octet: u8) -> bool
    ensures { IsTrue result ↔ (octet ≡ 165) }
{
    octet == OPEN
}

/// Puts `count` octets from a place on into `out`.
pub fn read_octets<B: Board>(
    board: &mut B,
    place: u64,
    count: usize,
    out: &mut Payload,
) -> Result<(), DiskFailed>
    requires count { count ≤ 520 }
    requires place { HasRoomFor (B.view board.old) (place + count) }
    ensures file { Reads (B.view board.old) (B.view board.new) }
    ensures read { IsTrue (B.view board.new).tells → OnOk result (out.new ≡ take count (drop place (B.view board.old).octets)) }
    ensures count { OnOk result (length out.new ≡ count) }
    ensures stays { OnErr result (out.new ≡ out.old) }
    ensures cause { HasCause (B.view board.old).disk_faults (B.view board.new).disk_faults result }
{
    let mut octets = [0; LONGEST];
    board.read_at(place, &mut octets[..count])?;
    out.clear();
    let _ = out.extend(&octets[..count]);
    Ok(())
}

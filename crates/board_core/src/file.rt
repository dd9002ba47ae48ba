// Writes in a file that is held in memory.
ghost use Rattle.std.specs.Prelude.{◌≡◌, ◌≤◌, ◌++◌, length, take, drop, replicate, vec_len, IfOk, OnOk, OnErr};
ghost use Rattle.board_core.specs.File.{put_at};

use std::alloc::{AllocError, Global};

/// Puts octets at a place within the file, which they may lengthen. Nothing changes where there is no memory.
pub fn put(file: &mut Vec<u8>, place: usize, octets: &[u8]) -> Result<(), AllocError>
    requires { place ≤ vec_len file.old }
    ensures put { OnOk result (file.new.items ≡ put_at place octets.now file.old.items) }
    ensures err { OnErr result (file.new.items ≡ file.old.items) }
{
    let within = octets.len().min(file.len() - place);
    file.extend_from_slice(&octets[within..])?;
    file[place..place + within].copy_from_slice(&octets[..within]);
    Ok(())
}

/// Reads octets from a place on. What lies past the end of the file counts as 00h.
pub fn get(file: &[u8], place: usize, into: &mut [u8])
    ensures { into.new ≡ take (length into.old) (drop place file.now ++ replicate (length into.old) 0) }
{
    let from = &file[place.min(file.len())..];
    let held = from.len().min(into.len());
    into.fill(0);
    into[..held].copy_from_slice(&from[..held]);
}

/// Octets with a gap of 00h before them.
pub fn padded(alloc: Global, gap: usize, octets: &[u8]) -> Result<Vec<u8>, AllocError>
    ensures { IfOk result (λ padded. padded.items ≡ replicate gap 0 ++ octets.now) }
{
    let mut padded = Vec::new(alloc);
    padded.resize(gap, 0)?;
    padded.extend_from_slice(octets)?;
    Ok(padded)
}

/// `count` copies of `octet`.
pub fn filled(alloc: Global, count: usize, octet: u8) -> Result<Vec<u8>, AllocError>
    ensures { IfOk result (λ row. row.items ≡ replicate count octet) }
{
    let mut row = Vec::new(alloc);
    row.resize(count, octet)?;
    Ok(row)
}

//! Lines that are appended to what may be cut off.
ghost use Rattle.std.specs.Prelude.{◌≡◌, ◌<◌, ◌≤◌, ◌++◌, ℕ, List, length, take, false, Some, OnOk};
ghost use Rattle.std.specs.Io.{WritesAtMost};
ghost use Rattle.std.specs.Io.KnownBytes.{Appends, WriteAppends};
ghost use Rattle.real_devices.specs.Lines.{IsLine, EndsWhole, begun};

use board_core::Bytes;
use std::io;
use std::io::{ErrorKind, Write};

/// Appends a line in one write to a file whose last line may be cut off, and notes in `cut` whether it is now. Where it was, this line
/// begins behind a line's end.
pub fn append<W: Write>(file: &mut W, cut: &mut bool, line: &[u8]) -> io::Result<()>
    requires line { IsLine line.now }
    requires room { length line.now < 32 }
    ensures whole { OnOk result (Appends (W.contents file.old) (W.contents file.new) (begun cut.old line.now)) }
    ensures done { OnOk result (cut.new ≡ false) }
    ensures ends { (before after : List ℕ) → W.contents file.old ≡ Some before → W.contents file.new ≡ Some after →
        (cut.old ≡ false → EndsWhole before) → cut.new ≡ false → EndsWhole after }
{
    let octets = begin(*cut, line);
    let octets = octets.as_slice();
    let written = write_once(file, octets)?;
    *cut = is_cut_behind(*cut, written, octets.len());
    if written == octets.len() {
        return Ok(());
    }
    Err(io::Error::new(ErrorKind::WriteZero, "only a part of the line was written"))
}

// The line, behind a line's end where what is before it has none.
fn begin(cut: bool, line: &[u8]) -> Bytes<32>
    requires { length line.now < 32 }
    ensures { result ≡ begun cut line.now }
{
    let mut octets = Bytes::new();
    if cut {
        let _ = octets.push(b'\n');
    }
    let _ = octets.extend(line);
    octets
}

// True where the last line is cut off behind a write of the first `written` of `all` octets, which are a line and its beginning.
fn is_cut_behind(cut: bool, written: usize, all: usize) -> bool
    requires { written ≤ all }
    ensures whole { written ≡ all → result ≡ false }
    ensures ends { (line before : List ℕ) → IsLine line → length (begun cut line) ≡ all → (cut ≡ false → EndsWhole before) →
        result ≡ false → EndsWhole (before ++ take written (begun cut line)) }
{
    if written == all {
        return false;
    }
    if written == 0 {
        return cut;
    }
    if cut {
        // the end of the line before may be all that was written
        return written > 1;
    }
    true
}

// One write, and another one only where a signal kept it from writing anything.
fn write_once<W: Write>(file: &mut W, octets: &[u8]) -> io::Result<usize>
    ensures bound { WritesAtMost result octets.now }
    ensures bytes { WriteAppends (W.contents file.old) (W.contents file.new) result octets.now }
{
    for _ in 0..u64::MAX {
        match file.write(octets) {
            Err(error) if error.kind() == ErrorKind::Interrupted => {}
            answer => return answer,
        }
    }
    Err(io::Error::from(ErrorKind::Interrupted))
}

#[cfg(test)]
mod tests;

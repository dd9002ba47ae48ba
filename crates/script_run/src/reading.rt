//! Reading a script line by line.
ghost use Rattle.std.specs.Prelude.{◌≤◌, ℕ, List, IfOk, OnErr, length};
ghost use Rattle.board_core.specs.Causes.{HasCause};
ghost use Rattle.script_text.specs.Reading.{HasLeft, Finds, FailsWithin};

use board_core::{Source, SourceFailed};
use script_text::{Found, LineBuffer, Reader};

/// Reads the next line, and nothing behind it.
pub(crate) fn read_line<S: Source>(
    reader: &mut Reader,
    source: &mut S,
    line: &mut LineBuffer,
) -> Result<Found, SourceFailed>
    ensures found { (text : List ℕ) → HasLeft reader.old (S.left source.old) text → IfOk result (Finds text reader.new (S.left source.new) line.new) }
    ensures failed { (text : List ℕ) → HasLeft reader.old (S.left source.old) text → OnErr result (FailsWithin text (S.left source.new)) }
    ensures held { length reader.new ≤ 256 }
    ensures cause { HasCause (S.faults source.old) (S.faults source.new) result }
{
    reader.line(source, line)
}

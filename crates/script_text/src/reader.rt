// A reader of lines over a source.
ghost use Rattle.std.specs.Prelude.{◌≡◌, ◌≢◌, ◌≤◌, ◌<◌, ℕ, List, [], Option, Some, IfOk, OnOk, OnErr, length};
ghost use Rattle.board_core.specs.Causes.{HasCause};
ghost use Rattle.script_text.specs.Lines.{line_limit, without_last};
ghost use Rattle.script_text.specs.Reading.{HasLeft, GivesOctet, Finds, FailsWithin};

use crate::ends::without_last;
use crate::head::LINE_LIMIT;
use board_core::{Bytes, Source, SourceFailed};
use std::marker::Model;

/// Room for the longest line and for the 0Dh of its end.
pub type LineBuffer = Bytes<1201>;

/// What comes next in a text.
#[derive(Clone, Copy, Debug, PartialEq, Eq)]
pub enum Found {
    /// A line of at most 1,200 octets.
    Line,
    /// A longer line. What the reader holds is then of no more use.
    TooLong,
    /// The end of the text.
    End,
}

/// The octets that were read and not yet handed out: contracts see them as a list.
#[derive(Drop)]
pub struct Reader {
    chunk: [u8; 256],
    at: usize,
    end: usize,
}

impl Model for Reader {
    ghost use Rattle.std.specs.Prelude.{◌≤◌, List, ℕ, take, drop};

    ghost Value = { List ℕ };

    ghost view = { λ r. drop r.at (take r.end r.chunk) };

    ghost invariant = { λ r. (r.at ≤ r.end) × (r.end ≤ 256) };
}

impl Reader {
    /// A reader that holds nothing.
    pub fn new() -> Self
        ensures { result ≡ [] }
    {
        Reader {
            chunk: [0; 256],
            at: 0,
            end: 0,
        }
    }

    // Reads a chunk where nothing is held. Then something is, unless the text is over.
    fn fill<S: Source>(&mut self, source: &mut S) -> Result<(), SourceFailed>
        ensures filled { (text : List ℕ) → HasLeft self.old (S.left source.old) text → HasLeft self.new (S.left source.new) text }
        ensures over { (text : List ℕ) → HasLeft self.old (S.left source.old) text → OnOk result (self.new ≡ [] → text ≡ []) }
        ensures failed { (text : List ℕ) → HasLeft self.old (S.left source.old) text → OnErr result (S.left source.new ≡ Some text) }
        ensures held { length self.new ≤ 256 }
        ensures cause { HasCause (S.faults source.old) (S.faults source.new) result }
    {
        if self.at < self.end {
            return Ok(());
        }
        self.at = 0;
        self.end = 0;
        self.end = source.read(&mut self.chunk)?;
        Ok(())
    }

    // The next octet, or None at the end of the text.
    fn next<S: Source>(&mut self, source: &mut S) -> Result<Option<u8>, SourceFailed>
        ensures octet { (text : List ℕ) → HasLeft self.old (S.left source.old) text → IfOk result (GivesOctet text self.new (S.left source.new)) }
        ensures failed { (text : List ℕ) → HasLeft self.old (S.left source.old) text → OnErr result (S.left source.new ≡ Some text) }
        ensures held { length self.new ≤ 256 }
        ensures cause { HasCause (S.faults source.old) (S.faults source.new) result }
    {
        self.fill(source)?;
        if self.at == self.end {
            return Ok(None);
        }
        let octet = self.chunk[self.at];
        self.at += 1;
        Ok(Some(octet))
    }

    /// Reads the next line, without its end, into `line`. Takes no memory. Of what the source gave, the reader holds at most 256
    /// octets behind that line.
    ///
    /// At `TooLong` what `line` holds and what is left of the text are left open. At an error no whole line was read since.
    pub fn line<S: Source>(
        &mut self,
        source: &mut S,
        line: &mut LineBuffer,
    ) -> Result<Found, SourceFailed>
        ensures found { (text : List ℕ) → HasLeft self.old (S.left source.old) text → IfOk result (Finds text self.new (S.left source.new) line.new) }
        ensures failed { (text : List ℕ) → HasLeft self.old (S.left source.old) text → OnErr result (FailsWithin text (S.left source.new)) }
        ensures held { length self.new ≤ 256 }
        ensures cause { HasCause (S.faults source.old) (S.faults source.new) result }
    {
        line.clear();
        'octets: loop {
            match self.next(source)? {
                None => return Ok(last(line)),
                Some(b'\n') => {
                    drop_return(line);
                    return Ok(fits(line));
                }
                Some(octet) => {
                    if !line.push(octet) {
                        return Ok(Found::TooLong);
                    }
                }
            }
        }
    }
}

// Whether a line that was read to its end is a line or too long for one.
fn fits(line: &LineBuffer) -> Found
    ensures line { result ≡ Found.Line → length line.now ≤ line_limit }
    ensures long { result ≡ Found.TooLong → line_limit < length line.now }
    ensures other { result ≡ Found.End → ⊥ }
{
    if line.as_slice().len() <= LINE_LIMIT {
        Found::Line
    } else {
        Found::TooLong
    }
}

// What comes at the end of the text: a last line that has no end of its own, or nothing.
fn last(line: &LineBuffer) -> Found
    ensures line { result ≡ Found.Line → (line.now ≢ []) × (length line.now ≤ line_limit) }
    ensures long { result ≡ Found.TooLong → line_limit < length line.now }
    ensures none { result ≡ Found.End → line.now ≡ [] }
{
    if line.as_slice().len() == 0 {
        return Found::End;
    }
    fits(line)
}

// Lets a 0Dh at the end go.
fn drop_return(line: &mut LineBuffer)
    ensures { line.new ≡ without_last 13 line.old }
{
    let count = without_last(line.as_slice(), b'\r').len();
    line.truncate(count);
}

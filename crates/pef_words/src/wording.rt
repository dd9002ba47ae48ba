//! Lines that are written on with their words.
ghost use Rattle.std.specs.Prelude.{◌≡◌, ◌≢◌, ◌≤◌, ◌++◌, ◌∷◌, [], ℕ, List, OnOk, OnErr, MatchOption, length};
ghost use Rattle.board_core.specs.Causes.{HasCause};
ghost use Rattle.pef_words.specs.Worded.{worded_line, worded_from, behind_tab};
ghost use Rattle.pef_words.specs.Going.{owed, owed_by, ended_line, Paid, PaidPart};

use crate::lines::said_in;
use crate::said::{Said, words_line};
use board_core::{Bytes, Sink, SinkFailed};

/// What stands behind a line: a tab and a sentence with its end, or the end alone.
type Ending = Bytes<1201>;

/// A line with its ending.
type WordedLine = Bytes<2400>;

/// The octets of a line as far as it was read, and whether it is too long for words, so that those before them are written already.
#[derive(Drop)]
pub struct Wording {
    held: Bytes<1199>,
    passes: bool,
}

impl Wording {
    /// At the beginning of a line.
    pub fn new() -> Wording
        ensures { (text : List ℕ) → owed result text ≡ worded_from [] text }
    {
        Wording {
            held: Bytes::new(),
            passes: false,
        }
    }

    /// Takes the next octets of the text, and writes each line with its words once its end is there.
    pub fn take_all<K: Sink>(&mut self, octets: &[u8], out: &mut K) -> Result<(), SinkFailed>
        ensures paid { (text : List ℕ) → OnOk result (Paid (K.written out.old) (K.written out.new) (owed self.old (octets.now ++ text)) (owed self.new text)) }
        ensures cut { (text : List ℕ) → OnErr result (PaidPart (K.written out.old) (K.written out.new) (owed self.old (octets.now ++ text))) }
        ensures cause { HasCause (K.faults out.old) (K.faults out.new) result }
    {
        let mut rest = octets;
        'octets: while let Some((octet, behind)) = first_octet(rest) {
            match self.take(*octet, out) {
                Ok(()) => {}
                Err(failed) => return Err(failed),
            }
            rest = behind;
        }
        Ok(())
    }

    fn take<K: Sink>(&mut self, octet: u8, out: &mut K) -> Result<(), SinkFailed>
        ensures paid { (text : List ℕ) → OnOk result (Paid (K.written out.old) (K.written out.new) (owed self.old (octet ∷ text)) (owed self.new text)) }
        ensures cut { (text : List ℕ) → OnErr result (PaidPart (K.written out.old) (K.written out.new) (owed self.old (octet ∷ text))) }
        ensures cause { HasCause (K.faults out.old) (K.faults out.new) result }
    {
        if octet == b'\n' {
            return self.end_line(out);
        }
        if self.held.push(octet) {
            return Ok(());
        }
        self.pass_on(octet, out)
    }

    // The line's end is there.
    fn end_line<K: Sink>(&mut self, out: &mut K) -> Result<(), SinkFailed>
        ensures paid { (text : List ℕ) → OnOk result (Paid (K.written out.old) (K.written out.new) (owed self.old (10 ∷ text)) (owed self.new text)) }
        ensures cut { (text : List ℕ) → OnErr result (PaidPart (K.written out.old) (K.written out.new) (owed self.old (10 ∷ text))) }
        ensures cause { HasCause (K.faults out.old) (K.faults out.new) result }
    {
        self.held.fits();
        let line = ended(self.held.as_slice(), self.passes);
        match out.write(line.as_slice()) {
            Ok(()) => {
                self.held.clear();
                self.passes = false;
                Ok(())
            }
            Err(failed) => Err(failed),
        }
    }

    // The line is longer than what can be held, so what is held is written.
    fn pass_on<K: Sink>(&mut self, octet: u8, out: &mut K) -> Result<(), SinkFailed>
        requires full { 1199 ≤ length self.old.held }
        requires within { octet ≢ 10 }
        ensures paid { (text : List ℕ) → OnOk result (Paid (K.written out.old) (K.written out.new) (owed self.old (octet ∷ text)) (owed self.new text)) }
        ensures cut { (text : List ℕ) → OnErr result (PaidPart (K.written out.old) (K.written out.new) (owed self.old (octet ∷ text))) }
        ensures cause { HasCause (K.faults out.old) (K.faults out.new) result }
    {
        match out.write(self.held.as_slice()) {
            Ok(()) => {
                self.held.clear();
                let _ = self.held.push(octet);
                self.passes = true;
                Ok(())
            }
            Err(failed) => Err(failed),
        }
    }

    /// The text is over: writes what is held, with its words.
    pub fn finish<K: Sink>(&self, out: &mut K) -> Result<(), SinkFailed>
        ensures paid { OnOk result (Paid (K.written out.old) (K.written out.new) (owed self.now []) []) }
        ensures cut { OnErr result (PaidPart (K.written out.old) (K.written out.new) (owed self.now [])) }
        ensures cause { HasCause (K.faults out.old) (K.faults out.new) result }
    {
        self.held.fits();
        let line = last(self.held.as_slice(), self.passes);
        out.write(line.as_slice())
    }
}

// The first of these octets, and those behind it.
fn first_octet(octets: &[u8]) -> Option<(&u8, &[u8])>
    ensures { MatchOption result (octets.now ≡ []) (λ split. octets.now ≡ split.0.now ∷ split.1.now) }
{
    octets.split_first()
}

// A line with its words and its end.
fn ended(held: &[u8], passes: bool) -> WordedLine
    requires { length held.now ≤ 1199 }
    ensures { result ≡ ended_line passes held.now }
{
    if passes {
        joined(held, ending(None))
    } else {
        joined(held, ending(said_in(held)))
    }
}

// The last line, which lacks its end: with its words, if it has words.
fn last(held: &[u8], passes: bool) -> WordedLine
    requires { length held.now ≤ 1199 }
    ensures { result ≡ owed_by passes held.now [] }
{
    if passes {
        return joined(held, Ending::new());
    }
    match said_in(held) {
        Some(said) => joined(held, ending(Some(said))),
        None => joined(held, Ending::new()),
    }
}

fn joined(held: &[u8], ending: Ending) -> WordedLine
    requires { length held.now ≤ 1199 }
    ensures { result ≡ held.now ++ ending }
{
    ending.fits();
    let mut line = WordedLine::new();
    let _ = line.extend(held);
    let _ = line.extend(ending.as_slice());
    line
}

fn ending(said: Option<Said>) -> Ending
    ensures { result ≡ behind_tab said ++ 10 ∷ [] }
{
    let mut ending = Ending::new();
    match said {
        Some(said) => {
            let words = words_line(&said);
            words.fits();
            let _ = ending.push(b'\t');
            let _ = ending.extend(words.as_slice());
        }
        None => {
            let _ = ending.push(b'\n');
        }
    }
    ending
}

//! What the program does.
ghost use Rattle.std.specs.Prelude.{◌≡◌, ◌≤◌, ◌-◌, ◌^◌, ℕ, List, [], Some, IfOk, OnOk, OnErr, length};
ghost use Rattle.board_core.specs.Causes.{Rose, HasCause};
ghost use Rattle.pef_words.specs.Going.{owed, Paid, PaidPart, Steps};
ghost use Rattle.pef_words.specs.Worded.{worded};
ghost use Rattle.pef_words.specs.Top.{Words, outside};

use crate::wording::Wording;
use board_core::{Sink, Source};

/// Why a call stopped before the end of its text.
#[derive(Clone, Copy, Debug, PartialEq, Eq)]
pub enum Stop {
    /// A read failed.
    Input,
    /// A write failed.
    Output,
    /// It was read as often as can be counted.
    Endless,
}

/// Writes the text of the source with the words of its lines, and answers the status.
pub fn top<S: Source, K: Sink>(source: &mut S, out: &mut K) -> u8
    ensures { Words (outside (S.left source.old) (S.faults source.old) (K.written out.old) (K.faults out.old))
        (outside (S.left source.new) (S.faults source.new) (K.written out.new) (K.faults out.new)) result }
{
    match word_all(source, out) {
        Ok(()) => 0,
        Err(Stop::Input) => 6,
        Err(Stop::Output) => 8,
        Err(Stop::Endless) => 9,
    }
}

fn word_all<S: Source, K: Sink>(source: &mut S, out: &mut K) -> Result<(), Stop>
    ensures all { (text : List ℕ) → S.left source.old ≡ Some text → OnOk result (Paid (K.written out.old) (K.written out.new) (worded text) []) }
    ensures cut { (text : List ℕ) → S.left source.old ≡ Some text → OnErr result (PaidPart (K.written out.old) (K.written out.new) (worded text)) }
    ensures input { result ≡ Err Stop.Input → Rose (S.faults source.old) (S.faults source.new) }
    ensures output { result ≡ Err Stop.Output → Rose (K.faults out.old) (K.faults out.new) }
    ensures endless { result ≡ Err Stop.Endless → (text : List ℕ) → S.left source.old ≡ Some text → 2 ^ 64 - 1 ≤ length text }
    ensures reads { OnOk result (S.faults source.new ≡ S.faults source.old) }
    ensures writes { OnOk result (K.faults out.new ≡ K.faults out.old) }
{
    let mut wording = Wording::new();
    let mut turns = 0u64;
    'chunks: while turns < u64::MAX {
        match step(&mut wording, source, out) {
            Ok(true) => {}
            Ok(false) => return Ok(()),
            Err(stop) => return Err(stop),
        }
        turns += 1;
    }
    Err(Stop::Endless)
}

// Reads once: words what came, and says that more may come, or words what is left at the end.
fn step<S: Source, K: Sink>(
    wording: &mut Wording,
    source: &mut S,
    out: &mut K,
) -> Result<bool, Stop>
    ensures paid { IfOk result (λ more. Steps (S.left source.old) (S.left source.new) (K.written out.old) (K.written out.new) wording.old wording.new more) }
    ensures cut { (text : List ℕ) → S.left source.old ≡ Some text → OnErr result (PaidPart (K.written out.old) (K.written out.new) (owed wording.old text)) }
    ensures input { result ≡ Err Stop.Input → Rose (S.faults source.old) (S.faults source.new) }
    ensures output { result ≡ Err Stop.Output → Rose (K.faults out.old) (K.faults out.new) }
    ensures endless { result ≡ Err Stop.Endless → ⊥ }
    ensures reads { OnOk result (S.faults source.new ≡ S.faults source.old) }
    ensures writes { OnOk result (K.faults out.new ≡ K.faults out.old) }
{
    let mut chunk = [0u8; 4096];
    let count = match source.read(&mut chunk) {
        Ok(count) => count,
        Err(_) => return Err(Stop::Input),
    };
    if count == 0 {
        return match wording.finish(out) {
            Ok(()) => Ok(false),
            Err(_) => Err(Stop::Output),
        };
    }
    match wording.take_all(&chunk[..count], out) {
        Ok(()) => Ok(true),
        Err(_) => Err(Stop::Output),
    }
}

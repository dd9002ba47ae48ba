//! Taking what the lines of a script give.
ghost use Rattle.std.specs.Prelude.{◌≡◌, ◌⊎◌, ◌↔◌, ◌≤◌, ◌<◌, ◌+◌, ℕ, List, [], Option, Some, None, IsTrue, IsSome, IfSome, OnErr, IfOk, IsErrOf, length};
ghost use Rattle.pef_engine.specs.declared.entry.Entry.{Entry};
ghost use Rattle.pef_engine.specs.Engine.{IsLive, HasPlace};
ghost use Rattle.script_text.specs.Lines.{lines_of};
ghost use Rattle.script_text.specs.Script.{given};
ghost use Rattle.script_run.specs.Items.{rest_of};
ghost use Rattle.script_run.specs.Going.{kind, world};
ghost use Rattle.script_run.specs.Lines.{Input, input, Unread, Ran, Reads, Answers, HasRead, up_to_behind, GivesItem, LineGives, IsReadyFor};

use crate::reading::read_line;
use crate::settling::take_one;
use crate::stop::LineStop;
use board_core::{Board, Sink, Source};
use pef_engine::{Engine, Scripted};
use script_text::{Found, LineBuffer, Reader, is_end};

/// Takes what the lines behind the head give, after those already taken: the items, and then the closing item where no line is bad.
/// Answers how many items were taken.
pub(crate) fn take_lines<M: Scripted, B: Board, S: Source, K: Sink>(
    engine: &mut Engine<M>,
    board: &mut B,
    source: &mut S,
    out: &mut K,
    reader: &mut Reader,
    count: u32,
    taken: u32,
) -> Result<u32, LineStop>
    requires live { IsLive engine.old }
    requires place { HasPlace (B.view board.old) engine.old }
    requires count { count ≤ 1000000 }
    requires taken { taken ≤ count }
    requires ready { IsReadyFor M.rules M.scripts (M.view engine.old.machine) count taken }
    ensures ran { Ran (kind M.rules M.view M.scripts)
        (world (B.view board.old) engine.old (K.written out.old) (K.faults out.old)) (world (B.view board.new) engine.new (K.written out.new) (K.faults out.new))
        (input reader.old (S.left source.old) (S.faults source.old)) (input reader.new (S.left source.new) (S.faults source.new))
        (count + 1) (λ text. rest_of M.scripts taken (given M.scripts.item_of (lines_of text) count 2)) (λ text. (given M.scripts.item_of (lines_of text) count 2).bad) result }
    ensures few { IfOk result (λ n. n ≤ count + 1) }
{
    let mut skip = taken;
    let mut left = count;
    let mut number = 2u32;
    let mut items = 0u32;
    'lines: loop {
        let Some(item) = next_item::<M, S>(reader, source, left, number)? else {
            take_one(engine, board, out, M::closing())?;
            return Ok(items + 1);
        };
        left -= 1;
        number += 1;
        if skip > 0 {
            skip -= 1;
            continue 'lines;
        }
        take_one(engine, board, out, item)?;
        items += 1;
    }
}

/// Reads and checks the lines of a script that was closed before.
pub(crate) fn pass_over<M: Scripted, S: Source>(
    source: &mut S,
    reader: &mut Reader,
    count: u32,
) -> Result<(), LineStop>
    requires count { count ≤ 1000000 }
    ensures answers { (text : List ℕ) → Unread (input reader.old (S.left source.old) (S.faults source.old)) text → Answers (given M.scripts.item_of (lines_of text) count 2).bad result }
    ensures far { (text : List ℕ) → Unread (input reader.old (S.left source.old) (S.faults source.old)) text → HasRead (up_to_behind (given M.scripts.item_of (lines_of text) count 2).bad (count + 1)) text (input reader.new (S.left source.new) (S.faults source.new)) result }
    ensures reads { Reads (input reader.old (S.left source.old) (S.faults source.old)) (input reader.new (S.left source.new) (S.faults source.new)) result }
    ensures no_step { (stop : _) → IsErrOf result (LineStop.Step stop) → ⊥ }
{
    let mut left = count;
    let mut number = 2u32;
    'lines: loop {
        let Some(_) = next_item::<M, S>(reader, source, left, number)? else {
            return Ok(());
        };
        left -= 1;
        number += 1;
    }
}

// The item of the next line, which is line `number` (from 1), with `left` items to come; None if it is the end. An end too early, an
// item too many and any other line are bad.
fn next_item<M: Scripted, S: Source>(
    reader: &mut Reader,
    source: &mut S,
    left: u32,
    number: u32,
) -> Result<Option<M::Item>, LineStop>
    ensures given { (text : List ℕ) → Unread (input reader.old (S.left source.old) (S.faults source.old)) text →
        GivesItem M.scripts.item_of text left number (input reader.new (S.left source.new) (S.faults source.new)) result }
    ensures due { IfOk result (λ item. IsSome item ↔ (0 < left)) }
    ensures item { IfOk result (λ item. IfSome item (λ i. M.rules.is_entry (Entry.Item i) × (line : List ℕ) × (M.scripts.item_of line ≡ Some i))) }
    ensures line { OnErr result (IsErrOf result (LineStop.Line number) ⊎ IsErrOf result LineStop.Input) }
    ensures reads { Reads (input reader.old (S.left source.old) (S.faults source.old)) (input reader.new (S.left source.new) (S.faults source.new)) result }
{
    let mut line = LineBuffer::new();
    match read_line(reader, source, &mut line) {
        Ok(Found::Line) => item_at::<M>(line.as_slice(), left, number),
        Ok(Found::TooLong) => Err(LineStop::Line(number)),
        Ok(Found::End) => Err(LineStop::Line(number)),
        Err(_) => Err(LineStop::Input),
    }
}

// The item of a line of at most 1,200 octets, and None where it is the end.
fn item_at<M: Scripted>(line: &[u8], left: u32, number: u32) -> Result<Option<M::Item>, LineStop>
    ensures given { length line.now ≤ 1200 → LineGives M.scripts.item_of line.now left number result }
    ensures due { IfOk result (λ item. IsSome item ↔ (0 < left)) }
    ensures item { IfOk result (λ item. IfSome item (λ i. M.rules.is_entry (Entry.Item i) × (M.scripts.item_of line.now ≡ Some i))) }
    ensures line { OnErr result (IsErrOf result (LineStop.Line number)) }
{
    let ended = is_end(line);
    if left == 0 {
        return if ended {
            Ok(None)
        } else {
            Err(LineStop::Line(number))
        };
    }
    if ended {
        return Err(LineStop::Line(number));
    }
    match M::item_of(line) {
        Some(item) => Ok(Some(item)),
        None => Err(LineStop::Line(number)),
    }
}

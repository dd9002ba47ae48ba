//! Running a whole script on an engine that is open.
ghost use Rattle.std.specs.Prelude.{◌≡◌, ◌≤◌, ◌+◌, ℕ, List, [], ◌∷◌, Option, Some, None, IfOk, IsErrOf, length};
ghost use Rattle.pef_engine.specs.declared.entry.Entry.{Entry};
ghost use Rattle.pef_engine.specs.Rules.{Lawful};
ghost use Rattle.pef_engine.specs.Scripts.{script_of};
ghost use Rattle.script_run.specs.Items.{IsOther, text_says};
ghost use Rattle.pef_engine.specs.Engine.{IsLive, HasPlace, ShowsSome};
ghost use Rattle.script_text.specs.Lines.{lines_of};
ghost use Rattle.script_text.specs.Script.{given};
ghost use Rattle.script_run.specs.Going.{kind, world};
ghost use Rattle.script_run.specs.Lines.{input, Unread, Ran, Reads, Answers, HasRead, up_to_behind, GivesHead};
ghost use Rattle.script_run.specs.Course.{TakesCourse, items_on};
ghost use Rattle.script_run.specs.Playing.{Plays};

use crate::course::{Course, course_of};
use crate::reading::read_line;
use crate::settling::{settle_and_say, take_one};
use crate::stop::{LineStop, ScriptStop};
use crate::taking::{pass_over, take_lines};
use board_core::{Board, Sink, Source};
use pef_engine::{Engine, Scripted};
use script_text::{Found, Head, LineBuffer, Reader, read_head};

/// Runs the script that the source gives. Answers how many items were taken.
pub(crate) fn play<M: Scripted, B: Board, S: Source, K: Sink>(
    engine: &mut Engine<M>,
    board: &mut B,
    source: &mut S,
    out: &mut K,
) -> Result<u32, ScriptStop>
    requires live { IsLive engine.old }
    requires place { HasPlace (B.view board.old) engine.old }
    requires shows { ShowsSome M.rules (M.view engine.old.machine) }
    ensures plays { (reader : List ℕ) × Plays (kind M.rules M.view M.scripts)
        (world (B.view board.old) engine.old (K.written out.old) (K.faults out.old)) (world (B.view board.new) engine.new (K.written out.new) (K.faults out.new))
        (input [] (S.left source.old) (S.faults source.old)) (input reader (S.left source.new) (S.faults source.new)) result }
    // where another script is unfinished, or line 1 is no head, nothing is done
    ensures refused { (Z : List ℕ) (H : List (Entry M.Item)) (text : List ℕ) → Lawful M.rules Z H → (M.view engine.old.machine).shows Z H → S.left source.old ≡ Some text →
        IsOther (script_of M.scripts H) (text_says M.scripts text) → board.new ≡ board.old }
    ensures headless { (text : List ℕ) → S.left source.old ≡ Some text → text_says M.scripts text ≡ None → board.new ≡ board.old }
{
    let mut reader = Reader::new();
    let head = first_line::<M, S>(&mut reader, source)?;
    let script = engine.machine().script();
    let course = course_of(&script, head.id, head.count)?;
    let items = follow(engine, board, source, out, &mut reader, head, course)?;
    Ok(items)
}

// Reads line 1.
fn first_line<M: Scripted, S: Source>(reader: &mut Reader, source: &mut S) -> Result<Head, LineStop>
    ensures head { (text : List ℕ) → Unread (input reader.old (S.left source.old) (S.faults source.old)) text →
        GivesHead M.scripts text (input reader.new (S.left source.new) (S.faults source.new)) result }
    ensures count { IfOk result (λ head. head.count ≤ 1000000) }
    ensures reads { Reads (input reader.old (S.left source.old) (S.faults source.old)) (input reader.new (S.left source.new) (S.faults source.new)) result }
    ensures no_step { (stop : _) → IsErrOf result (LineStop.Step stop) → ⊥ }
{
    let mut line = LineBuffer::new();
    match read_line(reader, source, &mut line) {
        Ok(Found::Line) => match read_head(M::word(), line.as_slice()) {
            Some(head) => Ok(head),
            None => Err(LineStop::Line(1)),
        },
        Ok(Found::TooLong) => Err(LineStop::Line(1)),
        Ok(Found::End) => Err(LineStop::Line(1)),
        Err(_) => Err(LineStop::Input),
    }
}

// Settles what an earlier run left, and goes on by the course.
fn follow<M: Scripted, B: Board, S: Source, K: Sink>(
    engine: &mut Engine<M>,
    board: &mut B,
    source: &mut S,
    out: &mut K,
    reader: &mut Reader,
    head: Head,
    course: Course,
) -> Result<u32, LineStop>
    requires live { IsLive engine.old }
    requires place { HasPlace (B.view board.old) engine.old }
    requires count { head.count ≤ 1000000 }
    requires held { length reader.old ≤ 256 }
    requires course { TakesCourse M.rules M.scripts (M.view engine.old.machine) head.id head.count course }
    ensures ran { Ran (kind M.rules M.view M.scripts)
        (world (B.view board.old) engine.old (K.written out.old) (K.faults out.old)) (world (B.view board.new) engine.new (K.written out.new) (K.faults out.new))
        (input reader.old (S.left source.old) (S.faults source.old)) (input reader.new (S.left source.new) (S.faults source.new))
        (head.count + 1) (λ text. items_on M.scripts head.id head.count (given M.scripts.item_of (lines_of text) head.count 2) course) (λ text. (given M.scripts.item_of (lines_of text) head.count 2).bad) result }
{
    settle_and_say(engine, board, out)?;
    match course {
        Course::Begins => begin(engine, board, source, out, reader, head),
        Course::GoesOn { taken } => {
            take_lines(engine, board, source, out, reader, head.count, taken)
        }
        Course::Over => end_over::<M, S>(source, reader, head),
    }
}

// Opens a script, and takes its items.
fn begin<M: Scripted, B: Board, S: Source, K: Sink>(
    engine: &mut Engine<M>,
    board: &mut B,
    source: &mut S,
    out: &mut K,
    reader: &mut Reader,
    head: Head,
) -> Result<u32, LineStop>
    requires live { IsLive engine.old }
    requires place { HasPlace (B.view board.old) engine.old }
    requires count { head.count ≤ 1000000 }
    requires held { length reader.old ≤ 256 }
    requires course { TakesCourse M.rules M.scripts (M.view engine.old.machine) head.id head.count Course.Begins }
    requires idle { (M.view engine.old.machine).due ≡ None }
    ensures ran { Ran (kind M.rules M.view M.scripts)
        (world (B.view board.old) engine.old (K.written out.old) (K.faults out.old)) (world (B.view board.new) engine.new (K.written out.new) (K.faults out.new))
        (input reader.old (S.left source.old) (S.faults source.old)) (input reader.new (S.left source.new) (S.faults source.new))
        (head.count + 1) (λ text. items_on M.scripts head.id head.count (given M.scripts.item_of (lines_of text) head.count 2) Course.Begins) (λ text. (given M.scripts.item_of (lines_of text) head.count 2).bad) result }
{
    take_one(engine, board, out, M::opening(head.id, head.count))?;
    let items = take_lines(engine, board, source, out, reader, head.count, 0)?;
    Ok(items + 1)
}

// Reads and checks the lines of a script that was closed before: nothing is taken.
fn end_over<M: Scripted, S: Source>(
    source: &mut S,
    reader: &mut Reader,
    head: Head,
) -> Result<u32, LineStop>
    requires count { head.count ≤ 1000000 }
    ensures answers { (text : List ℕ) → Unread (input reader.old (S.left source.old) (S.faults source.old)) text → Answers (given M.scripts.item_of (lines_of text) head.count 2).bad result }
    ensures far { (text : List ℕ) → Unread (input reader.old (S.left source.old) (S.faults source.old)) text → HasRead (up_to_behind (given M.scripts.item_of (lines_of text) head.count 2).bad (head.count + 1)) text (input reader.new (S.left source.new) (S.faults source.new)) result }
    ensures reads { Reads (input reader.old (S.left source.old) (S.faults source.old)) (input reader.new (S.left source.new) (S.faults source.new)) result }
    ensures no_step { (stop : _) → IsErrOf result (LineStop.Step stop) → ⊥ }
    ensures none { IfOk result (λ n. n ≡ 0) }
{
    match pass_over::<M, S>(source, reader, head.count) {
        Ok(()) => Ok(0),
        Err(stop) => Err(stop),
    }
}

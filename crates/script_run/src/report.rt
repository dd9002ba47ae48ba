//! The lines of the report: one for each entry that was stored.
ghost use Rattle.std.specs.Prelude.{◌≡◌, ℕ, List, [], ◌∷◌, ◌++◌, Option, IsErr, IsErrOf};
ghost use Rattle.board_core.specs.Causes.{HasCause};
ghost use Rattle.board_core.specs.Source.{Appends};
ghost use Rattle.pef_engine.specs.declared.entry.Entry.{Entry};
ghost use Rattle.pef_engine.specs.Rules.{Lawful, IsItem};
ghost use Rattle.script_run.specs.Report.{told_word, outcome_line, says};

use crate::stop::StepStop;
use board_core::{Act, Address, Octets, Sink, Step, Told};
use pef_engine::{Entry, Scripted};
use report_line::{LineBuilder, ReportLine};

// Writes a line.
pub(crate) fn put<K: Sink>(out: &mut K, line: &[u8]) -> Result<(), StepStop>
    ensures said { Appends line.now (K.written out.old) (K.written out.new) result }
    ensures output { IsErr result → IsErrOf result StepStop.Output }
    ensures cause { HasCause (K.faults out.old) (K.faults out.new) result }
{
    match out.write(line) {
        Ok(()) => Ok(()),
        Err(_) => Err(StepStop::Output),
    }
}

// Writes the line of the item that was taken last.
pub(crate) fn say_taken<M: Scripted, K: Sink>(
    machine: &M,
    entry: &Entry<M::Item>,
    out: &mut K,
) -> Result<(), StepStop>
    requires { IsItem entry.now }
    ensures said { (Z : List ℕ) (H : List (Entry M.Item)) → Lawful M.rules Z (H ++ entry.now ∷ []) → (M.view machine.now).shows Z (H ++ entry.now ∷ []) →
        Appends (says M.rules M.scripts Z H entry.now) (K.written out.old) (K.written out.new) result }
    ensures output { IsErr result → IsErrOf result StepStop.Output }
    ensures cause { HasCause (K.faults out.old) (K.faults out.new) result }
{
    match entry {
        Entry::Item(item) => {
            let line = machine.say(item);
            put(out, line.as_slice())
        }
        Entry::Outcome(_) => Ok(()),
    }
}

// Writes the line of what a step was told.
pub(crate) fn say_outcome<K: Sink>(
    out: &mut K,
    step: &Option<Step>,
    told: Told,
) -> Result<(), StepStop>
    ensures said { Appends (outcome_line step.now told) (K.written out.old) (K.written out.new) result }
    ensures output { IsErr result → IsErrOf result StepStop.Output }
    ensures cause { HasCause (K.faults out.old) (K.faults out.new) result }
{
    let line = outcome_text(step, told);
    put(out, line.as_slice())
}

fn outcome_text(step: &Option<Step>, told: Told) -> ReportLine
    ensures { result ≡ outcome_line step.now told }
{
    match step {
        Some(Step::Act { kind, id }) => act_text(*kind, *id, told),
        Some(Step::Datagram { to, octets }) => send_text(to, octets, told),
        None => ReportLine::new(),
    }
}

fn told_name(told: Told) -> &'static [u8]
    ensures { result.now ≡ told_word told }
{
    match told {
        Told::Done => b"done",
        Told::Failed => b"failed",
    }
}

fn act_text(kind: Act, id: u16, told: Told) -> ReportLine
    ensures { result ≡ outcome_line (Option.Some (Step.Act kind id)) told }
{
    LineBuilder::new()
        .text(b"act ")
        .text(kind.word())
        .text(b" ")
        .hexadecimal(&id.to_be_bytes())
        .text(b" ")
        .text(told_name(told))
        .end()
}

fn send_text(to: &Address, octets: &Octets, told: Told) -> ReportLine
    ensures { result ≡ outcome_line (Option.Some (Step.Datagram to.now octets.now)) told }
{
    octets.fits();
    LineBuilder::new()
        .text(b"send ")
        .address(to)
        .text(b" ")
        .hexadecimal(octets.as_slice())
        .text(b" ")
        .text(told_name(told))
        .end()
}

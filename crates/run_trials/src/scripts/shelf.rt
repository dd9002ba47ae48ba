// A machine that has room for three items, and takes the room for each when it gets ready for it.
ghost use Rattle.std.specs.Prelude.{◌≡◌, ◌↔◌, ◌+◌, ◌<◌, ◌≤◌, [], ◌∷◌, Some, OnOk, IsErrOf, vec_len, vec_capacity};
ghost use Rattle.pef_engine.specs.declared.entry.Entry.{Entry};
ghost use Rattle.pef_engine.specs.Rules.{Decodes};
ghost use Rattle.run_trials.specs.Shelf.{shelf_rules, shelf_view, shelf_scripts, shelf_agrees, shelf_scripted, shelf_size, shelf_entries, shelf_octet, IsShelfEntry, HasPlaceFor, put_by, entry_of};

use board_core::{Payload, Step};
use pef_engine::{
    Entry, Machine, MachineFault, Mark, Script, ScriptStep, Scripted, may_come, read_mark,
    script_behind, write_mark,
};
use pef_journal::FileKind;
use report_line::{LineBuilder, ReportLine};
use std::alloc::{AllocError, Global};

const PUT: u8 = 0x01;

// How many items there is room for.
const PLACES: usize = 3;

/// Keeps of each item that it came.
#[derive(Drop)]
pub(super) struct Shelf {
    script: Option<Script>,
    held: Vec<u8>,
}

impl Machine for Shelf {
    type Item = ScriptStep;

    ghost rules = { shelf_rules };

    ghost view = { λ shelf. shelf_view shelf.script (vec_len shelf.held) (vec_capacity shelf.held) };

    ghost agrees = { λ shelf. shelf_agrees shelf.script (vec_len shelf.held) (vec_capacity shelf.held) };

    ghost same_size = { shelf_size };

    ghost are_entries = { shelf_entries };

    ghost some_octet = { shelf_octet };

    fn kind() -> FileKind {
        FileKind {
            number: 2,
            settings: 2,
        }
    }

    fn fresh(alloc: Global, _settings: &[u8]) -> Result<Self, AllocError> {
        Ok(Shelf {
            script: None,
            held: Vec::new(alloc),
        })
    }

    fn allows(&self, entry: &Entry<ScriptStep>) -> bool {
        match entry {
            Entry::Item(item) => may_come(self.script, read_item(*item)),
            Entry::Outcome(_) => false,
        }
    }

    fn prepare(&mut self, item: &ScriptStep) -> Result<(), MachineFault> {
        match item {
            ScriptStep::Takes => make_place(&mut self.held),
            ScriptStep::Opens { .. } | ScriptStep::Closes => Ok(()),
        }
    }

    fn apply(&mut self, entry: &Entry<ScriptStep>) {
        match entry {
            Entry::Item(item) => {
                put(&mut self.held, item);
                self.script = script_behind(self.script, *item);
            }
            Entry::Outcome(_) => {}
        }
    }

    fn next(&self) -> Option<Step> {
        None
    }

    fn encode_entry(entry: &Entry<ScriptStep>) -> Payload {
        match entry {
            Entry::Item(ScriptStep::Takes) => {
                let mut payload = Payload::new();
                payload.push(PUT);
                payload
            }
            Entry::Item(ScriptStep::Opens { id, count }) => write_mark(Mark::Open {
                id: *id,
                count: *count,
            }),
            Entry::Item(ScriptStep::Closes) => write_mark(Mark::Close),
            Entry::Outcome(told) => write_mark(Mark::Outcome(*told)),
        }
    }

    fn decode_entry(octets: &[u8]) -> Option<Entry<ScriptStep>> {
        match read_mark(octets) {
            Some(mark) => Some(entry_of(mark)),
            None => read_put(octets),
        }
    }
}

impl Scripted for Shelf {
    ghost scripts = { shelf_scripts };

    ghost scripted = { shelf_scripted };

    fn word() -> &'static [u8] {
        b"script"
    }

    fn script(&self) -> Option<Script> {
        self.script
    }

    fn opening(id: u32, count: u32) -> ScriptStep {
        ScriptStep::Opens { id, count }
    }

    fn closing() -> ScriptStep {
        ScriptStep::Closes
    }

    fn item_of(line: &[u8]) -> Option<ScriptStep> {
        if line == b"put".as_slice() {
            Some(ScriptStep::Takes)
        } else {
            None
        }
    }

    fn say(&self, item: &ScriptStep) -> ReportLine {
        match item {
            ScriptStep::Opens { .. } => LineBuilder::new().text(b"opened").end(),
            ScriptStep::Takes => LineBuilder::new().text(b"put").end(),
            ScriptStep::Closes => LineBuilder::new().text(b"closed").end(),
        }
    }
}

fn read_item(item: ScriptStep) -> ScriptStep
    ensures same { result ≡ item }
    ensures is_entry { IsShelfEntry (Entry.Item item) }
{
    match item {
        ScriptStep::Opens { id, count } => ScriptStep::Opens { id, count },
        ScriptStep::Takes => ScriptStep::Takes,
        ScriptStep::Closes => ScriptStep::Closes,
    }
}

fn make_place(held: &mut Vec<u8>) -> Result<(), MachineFault>
    ensures len { vec_len held.new ≡ vec_len held.old }
    ensures room { OnOk result (vec_len held.new < vec_capacity held.new) }
    ensures full { IsErrOf result MachineFault.Full ↔ (3 ≤ vec_len held.old) }
{
    if held.len() >= PLACES {
        return Err(MachineFault::Full);
    }
    match held.reserve(1) {
        Ok(()) => Ok(()),
        Err(error) => Err(MachineFault::Memory(error)),
    }
}

fn put(held: &mut Vec<u8>, item: &ScriptStep)
    requires { HasPlaceFor (vec_len held.old) (vec_capacity held.old) item.now }
    ensures { vec_len held.new ≡ vec_len held.old + put_by item.now }
{
    match item {
        ScriptStep::Takes => held.push_reserved(0),
        ScriptStep::Opens { .. } | ScriptStep::Closes => {}
    }
}

fn entry_of(mark: Mark) -> Entry<ScriptStep>
    ensures { result ≡ entry_of mark }
{
    match mark {
        Mark::Open { id, count } => Entry::Item(ScriptStep::Opens { id, count }),
        Mark::Close => Entry::Item(ScriptStep::Closes),
        Mark::Outcome(told) => Entry::Outcome(told),
    }
}

fn read_put(octets: &[u8]) -> Option<Entry<ScriptStep>>
    ensures found { octets.now ≡ 1 ∷ [] → result ≡ Some (Entry.Item ScriptStep.Takes) }
    ensures right { (e : _) → result ≡ Some e → (e ≡ Entry.Item ScriptStep.Takes) × (octets.now ≡ 1 ∷ []) }
{
    match octets {
        [PUT] => Some(Entry::Item(ScriptStep::Takes)),
        _ => None,
    }
}

//! What a controller says of its items, and the items of its scripts.
ghost use Rattle.std.specs.Prelude.{◌≡◌, ◌++◌, ◌≤◌, [], ◌∷◌, length, codes, option_copied};
ghost use Rattle.report_line.specs.Line.{line_end};
ghost use Rattle.script_text.specs.Forms.{words_of, octets_exactly, octets_up_to};
ghost use Rattle.pef_core.specs.Report.{controller_scripts, note_line, reply_line, frame_line, open_line, item_of, item_of_words, event_of, command_of, command_by, frame_of, id_digits};
ghost use Rattle.pef_core.specs.Laws.{controller_scripted};

use crate::controller::Controller;
use crate::item::Item;
use crate::note::Note;
use board_core::Octets;
use event_record::{LogFault, RecordFault};
use frame_answers::{FrameKind, kind_of};
use pef_commands::Request;
use pef_engine::{Script, Scripted};
use report_line::{LineBuilder, ReportLine};
use script_text::{address, first_word, octets_exactly, octets_up_to};

impl Scripted for Controller {
    ghost scripts = { controller_scripts };

    ghost scripted = { controller_scripted };

    fn word() -> &'static [u8] {
        b"script"
    }

    fn script(&self) -> Option<Script> {
        self.script
    }

    fn opening(id: u32, count: u32) -> Item {
        Item::Open { id, count }
    }

    fn closing() -> Item {
        Item::Close
    }

    fn item_of(line: &[u8]) -> Option<Item> {
        read_item(line)
    }

    fn say(&self, item: &Item) -> ReportLine {
        match item {
            Item::Event(_) => note_text(self.note()),
            Item::Command(_) => reply_text(self.reply()),
            Item::Frame { octets, .. } => frame_text(kind_of(octets.as_slice())),
            Item::Tick => LineBuilder::new().text(b"tick").end(),
            Item::Power => LineBuilder::new().text(b"power").end(),
            Item::Open { id, count } => open_text(*id, *count),
            Item::Close => LineBuilder::new().text(b"close").end(),
        }
    }
}

// The item of a line `event RECORD`, `cmd NETFN COMMAND OCTETS`, `frame ADDRESS OCTETS`, `tick` or `power`.
fn read_item(line: &[u8]) -> Option<Item>
    ensures { result ≡ item_of line.now }
{
    let (word, rest) = first_word(line);
    match rest {
        Some(rest) => item_with(word, rest),
        None => item_alone(word),
    }
}

// The item of a line of one word.
fn item_alone(word: &[u8]) -> Option<Item>
    ensures { result ≡ item_of_words (word.now ∷ []) }
{
    if word == b"tick".as_slice() {
        Some(Item::Tick)
    } else if word == b"power".as_slice() {
        Some(Item::Power)
    } else {
        None
    }
}

// The item of this word with these behind it.
fn item_with(word: &[u8], rest: &[u8]) -> Option<Item>
    ensures { result ≡ item_of_words (word.now ∷ words_of rest.now) }
{
    if word == b"event".as_slice() {
        event_of(rest)
    } else if word == b"cmd".as_slice() {
        command_of(rest)
    } else if word == b"frame".as_slice() {
        frame_of(rest)
    } else {
        None
    }
}

// The item of the words behind `event`: a record in 32 digits.
fn event_of(words: &[u8]) -> Option<Item>
    ensures { result ≡ event_of (words_of words.now) }
{
    let (digits, rest) = first_word(words);
    if rest.is_some() {
        return None;
    }
    Some(Item::Event(octets_exactly::<16>(digits)?))
}

// The item of the words behind `cmd`: network function and command in two digits each, and the data.
fn command_of(words: &[u8]) -> Option<Item>
    ensures { result ≡ command_of (words_of words.now) }
{
    let (netfn, rest) = first_word(words);
    let (cmd, rest) = first_word(rest?);
    let (payload, rest) = first_word(rest?);
    if rest.is_some() {
        return None;
    }
    command_with(netfn, cmd, payload)
}

// The command of these three words.
fn command_with(netfn: &[u8], cmd: &[u8], payload: &[u8]) -> Option<Item>
    ensures { result ≡ command_by (octets_exactly 1 netfn.now) (octets_exactly 1 cmd.now) (octets_up_to 64 payload.now) }
{
    let [netfn] = octets_exactly::<1>(netfn)?;
    let [cmd] = octets_exactly::<1>(cmd)?;
    let payload = octets_up_to::<64>(payload)?;
    Some(Item::Command(Request::read(netfn, cmd, payload.as_slice())?))
}

// The item of the words behind `frame`: the sender's address and port, and the octets.
fn frame_of(words: &[u8]) -> Option<Item>
    ensures { result ≡ frame_of (words_of words.now) }
{
    let (from, rest) = first_word(words);
    let (octets, rest) = first_word(rest?);
    if rest.is_some() {
        return None;
    }
    Some(Item::Frame {
        from: address(from)?,
        octets: octets_up_to::<512>(octets)?,
    })
}

// A word, and an ID in four digits behind it.
fn id_text(word: &[u8], id: u16) -> ReportLine
    requires { length word.now ≤ 40 }
    ensures { result ≡ word.now ++ id_digits id ++ line_end }
{
    LineBuilder::new()
        .text(word)
        .hexadecimal(&id.to_be_bytes())
        .end()
}

fn note_text(note: Note) -> ReportLine
    ensures { result ≡ note_line note }
{
    match note {
        Note::Added(id) => id_text(b"event ", id),
        Note::Refused(RecordFault::ReservedId(id)) => id_text(b"event reserved ", id),
        Note::Refused(RecordFault::Kind(kind)) => LineBuilder::new()
            .text(b"event kind ")
            .hexadecimal(&[kind])
            .end(),
        Note::NotAdded(LogFault::Duplicate(id)) => id_text(b"event duplicate ", id),
        Note::NotAdded(LogFault::Full) => LineBuilder::new().text(b"event full").end(),
        Note::Nothing => ReportLine::new(),
    }
}

fn frame_text(kind: FrameKind) -> ReportLine
    ensures { result ≡ frame_line kind }
{
    match kind {
        FrameKind::Ping => LineBuilder::new().text(b"frame ping").end(),
        FrameKind::Command => LineBuilder::new().text(b"frame command").end(),
        FrameKind::Nothing => LineBuilder::new().text(b"frame none").end(),
    }
}

fn reply_text(reply: Option<&Octets>) -> ReportLine
    ensures { result ≡ reply_line (option_copied reply.entry) }
{
    let Some(octets) = reply else {
        return ReportLine::new();
    };
    octets.fits();
    LineBuilder::new()
        .text(b"reply ")
        .hexadecimal(octets.as_slice())
        .end()
}

fn open_text(id: u32, count: u32) -> ReportLine
    ensures { result ≡ open_line id count }
{
    LineBuilder::new()
        .text(b"open ")
        .hexadecimal(&id.to_be_bytes())
        .text(b" ")
        .decimal(count)
        .end()
}

//! What a console says of its items, and the items of its captures.
ghost use Rattle.std.specs.Prelude.{◌≡◌, ◌≤◌, [], length};
ghost use Rattle.trap_console.specs.Report.{console_scripts, why_word, heard_line, item_line, item_of};
ghost use Rattle.trap_console.specs.Laws.{console_scripted};

use crate::console::Console;
use crate::heard::Heard;
use crate::item::Item;
use itoa::Buffer;
use pef_engine::{Script, Scripted};
use report_line::{LineBuilder, ReportLine};
use script_text::{address, first_word, octets_up_to};
use snmp_trap::{Refusal, Why};

impl Scripted for Console {
    ghost scripts = { console_scripts };

    ghost scripted = { console_scripted };

    fn word() -> &'static [u8] {
        b"capture"
    }

    fn script(&self) -> Option<Script> {
        self.opened()
    }

    fn opening(id: u32, count: u32) -> Item {
        Item::Open { id, count }
    }

    fn closing() -> Item {
        Item::Close
    }

    fn item_of(line: &[u8]) -> Option<Item> {
        datagram_of(line)
    }

    fn say(&self, item: &Item) -> ReportLine {
        match item {
            Item::Datagram { .. } => heard_text(self.heard()),
            Item::Open { id, count } => open_text(*id, *count),
            Item::Close => LineBuilder::new().text(b"close").end(),
        }
    }
}

// The item of a line `datagram ADDRESS OCTETS`.
fn datagram_of(line: &[u8]) -> Option<Item>
    ensures { result ≡ item_of line.now }
{
    let (word, rest) = first_word(line);
    let (from, rest) = first_word(rest?);
    let (octets, rest) = first_word(rest?);
    if rest.is_some() {
        return None;
    }
    if word != b"datagram".as_slice() {
        return None;
    }
    Some(Item::Datagram {
        from: address(from)?,
        octets: octets_up_to::<512>(octets)?,
    })
}

fn heard_text(heard: Heard) -> ReportLine
    ensures { result ≡ heard_line heard }
{
    match heard {
        Heard::New(row) => LineBuilder::new().text(b"row ").decimal(row).end(),
        Heard::Again(row) => LineBuilder::new().text(b"again ").decimal(row).end(),
        Heard::Refused(refusal) => refused_text(refusal),
        Heard::Nothing => ReportLine::new(),
    }
}

fn refused_text(refusal: Refusal) -> ReportLine
    ensures { result ≡ heard_line (Heard.Refused refusal) }
{
    let mut buffer = Buffer::new();
    let place = buffer.format(refusal.at);
    LineBuilder::new()
        .text(b"refused ")
        .text(word_of(refusal.why))
        .text(b" ")
        .text(place.as_bytes())
        .end()
}

fn word_of(why: Why) -> &'static [u8]
    ensures word { result.now ≡ why_word why }
    ensures short { length result.now ≤ 10 }
{
    match why {
        Why::Truncated => b"Truncated",
        Why::Tag => b"Tag",
        Why::Length => b"Length",
        Why::Over => b"Over",
        Why::Trailing => b"Trailing",
        Why::Integer => b"Integer",
        Why::Version => b"Version",
        Why::Enterprise => b"Enterprise",
        Why::Generic => b"Generic",
        Why::NoBinding => b"NoBinding",
        Why::Body => b"Body",
    }
}

fn open_text(id: u32, count: u32) -> ReportLine
    ensures { result ≡ item_line [] [] (Item.Open id count) }
{
    LineBuilder::new()
        .text(b"open ")
        .hexadecimal(&id.to_be_bytes())
        .text(b" ")
        .decimal(count)
        .end()
}

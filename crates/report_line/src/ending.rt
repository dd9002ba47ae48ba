// How a call ends.
ghost use Rattle.std.specs.Prelude.{◌≡◌, ◌≤◌, ◌++◌, length, decimal};
ghost use Rattle.report_line.specs.Line.{line_end};
ghost use Rattle.report_line.specs.Ending.{status_of, last_line};

use crate::builder::{LineBuilder, ReportLine};
use crate::refusal::SettingsRefusal;

/// How a call of the program ends.
#[derive(Clone, Copy, Debug, PartialEq, Eq)]
pub enum Ending {
    /// All was done; `count` items were taken.
    Done { count: u32 },
    /// Unknown command, or wrong arguments.
    Usage,
    /// The file is no valid state file of its kind.
    Unformatted,
    /// This line is the first bad one, counted from 1.
    Line(u32),
    /// The settings text is refused, and why.
    Settings(SettingsRefusal),
    /// Another script was begun and isn't finished: its ID and its count.
    Unfinished { id: u32, count: u32 },
    /// What was to be read could not be read.
    Input,
    /// The disk failed.
    Disk,
    /// The report could not be written.
    Output,
    /// There is no room for the next entry.
    Full,
    /// There was no memory.
    Memory,
    /// The file is formatted already.
    Formatted,
}

/// The status of a call that ends so.
pub fn status(ending: Ending) -> u8
    ensures { result ≡ status_of ending }
{
    match ending {
        Ending::Done { .. } => 0,
        Ending::Usage => 2,
        Ending::Unformatted => 3,
        Ending::Line(_) => 4,
        Ending::Settings(_) => 4,
        Ending::Unfinished { .. } => 5,
        Ending::Input => 6,
        Ending::Disk => 7,
        Ending::Output => 8,
        Ending::Full => 9,
        Ending::Memory => 10,
        Ending::Formatted => 11,
    }
}

/// The last line of a call that ends so, with its end; no octets where the output failed.
pub fn last_line(ending: Ending) -> ReportLine
    ensures { result ≡ last_line ending }
{
    match ending {
        Ending::Done { count } => numbered(b"ok ", count),
        Ending::Usage => words(b"usage"),
        Ending::Unformatted => words(b"unformatted"),
        Ending::Line(number) => numbered(b"line ", number),
        Ending::Settings(refusal) => refused(refusal),
        Ending::Unfinished { id, count } => unfinished(id, count),
        Ending::Input => words(b"input failed"),
        Ending::Disk => words(b"disk failed"),
        Ending::Output => ReportLine::new(),
        Ending::Full => words(b"full"),
        Ending::Memory => words(b"memory"),
        Ending::Formatted => words(b"formatted"),
    }
}

fn words(text: &[u8]) -> ReportLine
    requires { length text.now ≤ 100 }
    ensures { result ≡ text.now ++ line_end }
{
    LineBuilder::new().text(text).end()
}

fn numbered(text: &[u8], number: u32) -> ReportLine
    requires { length text.now ≤ 100 }
    ensures { result ≡ text.now ++ decimal number ++ line_end }
{
    LineBuilder::new().text(text).decimal(number).end()
}

fn refused(refusal: SettingsRefusal) -> ReportLine
    ensures { result ≡ last_line (Ending.Settings refusal) }
{
    LineBuilder::new()
        .text(b"settings ")
        .text(refusal.word().as_bytes())
        .end()
}

fn unfinished(id: u32, count: u32) -> ReportLine
    ensures { result ≡ last_line (Ending.Unfinished id count) }
{
    LineBuilder::new()
        .text(b"unfinished ")
        .hexadecimal(&id.to_be_bytes())
        .text(b" ")
        .decimal(count)
        .end()
}

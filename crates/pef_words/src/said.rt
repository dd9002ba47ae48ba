//! What octets say, and its words.
ghost use Rattle.std.specs.Prelude.{◌≡◌, ◌++◌};
ghost use Rattle.report_line.specs.Line.{line_end};
ghost use Rattle.pef_words.specs.Said.{words_for};

use event_words::{Event, oem_record_line, sentence_line};
use report_line::ReportLine;

/// What a record or a trap says.
#[derive(Clone, Copy, Debug, PartialEq, Eq)]
pub enum Said {
    /// An event.
    OfEvent(Event),
    /// A record of this OEM type, which only the manufacturer can read.
    OfOemRecord(u8),
}

/// The words, as a line with its end.
pub fn words_line(said: &Said) -> ReportLine
    ensures { result ≡ words_for said.now ++ line_end }
{
    match said {
        Said::OfEvent(event) => sentence_line(event),
        Said::OfOemRecord(kind) => oem_record_line(*kind),
    }
}

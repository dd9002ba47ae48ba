//! The lines of `list`: one for each row.
ghost use Rattle.std.specs.Prelude.{◌≡◌, ◌≤◌, ◌+◌, [], ◌∷◌, ◌++◌, ℕ, List, length, MatchOption};
ghost use Rattle.std.specs.List.{list_all};
ghost use Rattle.board_core.specs.Causes.{HasCause};
ghost use Rattle.board_core.specs.Source.{Appends};
ghost use Rattle.pef_engine.specs.declared.entry.Entry.{Entry};
ghost use Rattle.trap_console.specs.Rows.{row_limit};
ghost use Rattle.trap_console.specs.Heard.{rows_of};
ghost use Rattle.trap_console.specs.View.{ShowsConsole};
ghost use Rattle.trap_console.specs.Listing.{guid_text, key_text, sender_text, event_text, is_printable, octets_text, text_part, tail_part, row_line, listed};

use crate::console::Console;
use crate::item::Item;
use crate::row::Row;
use board_core::{Sink, SinkFailed};
use pet_body::{Body, tail_text};
use report_line::{LineBuilder, ReportLine};

/// Writes the line of each row, in the order in which the rows arrived.
pub fn list<K: Sink>(console: &Console, out: &mut K) -> Result<(), SinkFailed>
    ensures lines { (Z : List ℕ) (H : List (Entry Item)) → ShowsConsole console.now Z H → Appends (listed (rows_of H)) (K.written out.old) (K.written out.new) result }
    ensures cause { HasCause (K.faults out.old) (K.faults out.new) result }
{
    list_rows(console.rows(), out)
}

// Writes the line of each of these rows.
fn list_rows<K: Sink>(rows: &[Row], out: &mut K) -> Result<(), SinkFailed>
    requires { length rows.now ≤ row_limit }
    ensures lines { Appends (listed rows.now) (K.written out.old) (K.written out.new) result }
    ensures cause { HasCause (K.faults out.old) (K.faults out.new) result }
{
    let mut number = 0;
    let mut rest = rows;
    'rows: while let Some((row, behind)) = first_row(rest) {
        number += 1;
        let line = row_line(number, row);
        match out.write(line.as_slice()) {
            Ok(()) => {}
            Err(failed) => return Err(failed),
        }
        rest = behind;
    }
    Ok(())
}

// The first of these rows, and those behind it.
fn first_row(rows: &[Row]) -> Option<(&Row, &[Row])>
    ensures { MatchOption result (rows.now ≡ []) (λ split. rows.now ≡ split.0.now ∷ split.1.now) }
{
    rows.split_first()
}

/// The line of the row with this number.
pub fn row_line(number: u32, row: &Row) -> ReportLine
    ensures { result ≡ row_line number row.now }
{
    let line = LineBuilder::new().decimal(number).text(b" ");
    let line = put_key(line, &row.body).text(b" ");
    let line = put_sender(line, row).text(b" ");
    let line = put_event(line, &row.body).text(b" ");
    row.body.tail.fits();
    put_tail(line, row.body.tail.as_slice()).end()
}

fn put_key(line: LineBuilder, body: &Body) -> LineBuilder
    requires { length line ≤ 100 }
    ensures added { result ≡ line ++ key_text body.now }
    ensures long { length result ≤ length line + 58 }
{
    put_guid(line, &body.guid)
        .text(b" ")
        .decimal(u32::from(body.sequence))
        .text(b" ")
        .decimal(body.timestamp)
}

fn put_guid(line: LineBuilder, guid: &[u8; 16]) -> LineBuilder
    requires { length line ≤ 100 }
    ensures added { result ≡ line ++ guid_text guid.now }
    ensures long { length result ≡ length line + 36 }
{
    line.hexadecimal(&guid[..4])
        .text(b"-")
        .hexadecimal(&guid[4..6])
        .text(b"-")
        .hexadecimal(&guid[6..8])
        .text(b"-")
        .hexadecimal(&guid[8..10])
        .text(b"-")
        .hexadecimal(&guid[10..])
}

fn put_sender(line: LineBuilder, row: &Row) -> LineBuilder
    requires { length line ≤ 200 }
    ensures added { result ≡ line ++ sender_text row.now }
    ensures long { length result ≤ length line + 65 }
{
    line.address(&row.from).text(b" ").decimal(row.specific)
}

fn put_event(line: LineBuilder, body: &Body) -> LineBuilder
    requires { length line ≤ 300 }
    ensures added { result ≡ line ++ event_text body.now }
    ensures long { length result ≡ length line + 15 }
{
    line.hexadecimal(&[body.severity])
        .text(b" ")
        .hexadecimal(&[body.device])
        .text(b" ")
        .hexadecimal(&[body.sensor])
        .text(b" ")
        .hexadecimal(&body.event_data[..3])
}

fn put_tail(line: LineBuilder, tail: &[u8]) -> LineBuilder
    requires line { length line ≤ 400 }
    requires tail { length tail.now ≤ 64 }
    ensures added { result ≡ line ++ tail_part tail.now }
    ensures long { length result ≤ length line + 195 }
{
    let text = tail_text(tail);
    text.fits();
    put_text(put_octets(line, tail), text.as_slice())
}

fn put_octets(line: LineBuilder, octets: &[u8]) -> LineBuilder
    requires line { length line ≤ 400 }
    requires octets { length octets.now ≤ 64 }
    ensures added { result ≡ line ++ octets_text octets.now }
    ensures long { length result ≤ length line + 128 }
{
    if octets.is_empty() {
        line.text(b"-")
    } else {
        line.hexadecimal(octets)
    }
}

fn put_text(line: LineBuilder, text: &[u8]) -> LineBuilder
    requires line { length line ≤ 600 }
    requires text { length text.now ≤ 61 }
    ensures added { result ≡ line ++ text_part text.now }
    ensures long { length result ≤ length line + 67 }
{
    if !text.is_empty() && are_printable(text) {
        line.text(b" text ").text(text)
    } else {
        line
    }
}

fn are_printable(text: &[u8]) -> bool
    ensures { result ≡ list_all is_printable text.now }
{
    text.iter().all(|octet| (0x20..=0x7E).contains(octet))
}

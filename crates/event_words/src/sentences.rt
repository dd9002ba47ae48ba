//! The sentence of an event.
ghost use Rattle.std.specs.Prelude.{◌≡◌, ◌≤◌, ◌+◌, ◌++◌, length, codes};
ghost use Rattle.report_line.specs.Line.{line_end};
ghost use Rattle.event_words.specs.Rows.{coded};
ghost use Rattle.event_words.specs.EventTypes.{event_type};
ghost use Rattle.event_words.specs.Sentence.{sentence, states_before, both_before, detail_text, details_text, data_text, oem_record_text};

use crate::detail::{Detail, detail_2, detail_3};
use crate::event::Event;
use crate::event_type::EventType;
use crate::putting::{
    put_code, put_direction, put_generic_behind, put_sensor_type, put_severity, put_state,
    put_state_behind,
};
use report_line::{LineBuilder, ReportLine};

/// The offset of a state that is unspecified.
const NO_STATE: u8 = 0x0F;

/// The event type of severities.
const SEVERITY: u8 = 0x07;

/// The sentence of an event, as a line with its end: the sensor with its type and number, the state, whether it came or went, the
/// severity, and what event data 2 and 3 hold. The words are those of IPMI 2.0, tables 42-2 and 42-3; a code that these haven't is
/// said to be unknown, reserved or OEM, with its number.
pub fn sentence_line(event: &Event) -> ReportLine
    ensures { result ≡ sentence event.now ++ line_end }
{
    let kind = EventType::of(event.event_type);
    let line = put_sensor_type(LineBuilder::new(), event.sensor_type);
    let line = put_code(line, b", sensor ", event.sensor).text(b": ");
    let line = put_state(line, kind, event.sensor_type, event.offset);
    let line = put_direction(line, event.direction);
    let line = put_severity(line, event.severity);
    put_data(line, kind, event.sensor_type, event.event_data).end()
}

/// What is said of a record of an OEM type, C0h to FFh, as a line with its end: it has no sensor.
pub fn oem_record_line(kind: u8) -> ReportLine
    ensures { result ≡ oem_record_text kind ++ line_end }
{
    let line = LineBuilder::new();
    if kind < 0xE0 {
        put_code(line, b"OEM timestamped record, type ", kind).end()
    } else {
        put_code(line, b"OEM non-timestamped record, type ", kind).end()
    }
}

// What event data 2 and 3 hold.
fn put_data(line: LineBuilder, kind: EventType, sensor_type: u8, event_data: [u8; 3]) -> LineBuilder
    requires line { length line ≤ 450 }
    ensures added { result ≡ line ++ data_text kind sensor_type event_data }
    ensures long { length result ≤ length line + 504 }
{
    let second = detail_2(kind, event_data);
    let third = detail_3(kind, event_data);
    put_details(line, kind, sensor_type, second, third)
}

fn put_details(
    line: LineBuilder,
    kind: EventType,
    sensor_type: u8,
    second: Option<Detail>,
    third: Option<Detail>,
) -> LineBuilder
    requires line { length line ≤ 450 }
    ensures added { result ≡ line ++ details_text kind sensor_type second third }
    ensures long { length result ≤ length line + 504 }
{
    match (second, third) {
        (None, None) => line,
        (Some(second), None) => {
            put_detail(line.text(b"; "), kind, sensor_type, b"event data 2", second)
        }
        (None, Some(third)) => {
            put_detail(line.text(b"; "), kind, sensor_type, b"event data 3", third)
        }
        (Some(second), Some(third)) => {
            let line = put_detail(line.text(b"; "), kind, sensor_type, b"event data 2", second);
            put_detail(line.text(b", "), kind, sensor_type, b"event data 3", third)
        }
    }
}

// What an octet of event data holds; `place` names it.
fn put_detail(
    line: LineBuilder,
    kind: EventType,
    sensor_type: u8,
    place: &[u8],
    detail: Detail,
) -> LineBuilder
    requires line { length line ≤ 704 }
    requires place { length place.now ≤ 20 }
    ensures added { result ≡ line ++ detail_text kind sensor_type place.now detail }
    ensures long { length result ≤ length line + 250 }
{
    match detail {
        Detail::Reading(octet) => put_code(line, b"reading ", octet),
        Detail::Threshold(octet) => put_code(line, b"threshold ", octet),
        Detail::Previous(octet) => put_states_before(
            line,
            kind,
            sensor_type,
            octet / 16,
            octet % 16,
        ),
        Detail::OemPrevious(octet) => put_code(line, b"previous state or severity ", octet),
        Detail::Oem(octet) => put_code_in(line, b"OEM code ", octet, place),
        Detail::Extension(octet) => {
            put_code_in(line, b"sensor-specific event extension code ", octet, place)
        }
        Detail::Reserved(octet) => put_code_in(line, b"reserved code ", octet, place),
    }
}

// Words, a code, and the octet that it stands in.
fn put_code_in(line: LineBuilder, words: &[u8], code: u8, place: &[u8]) -> LineBuilder
    requires line { length line ≤ 704 }
    requires words { length words.now ≤ 60 }
    requires place { length place.now ≤ 20 }
    ensures added { result ≡ line ++ (coded words.now code ++ codes " in " ++ place.now) }
    ensures long { length result ≤ length line + 90 }
{
    put_code(line, words, code).text(b" in ").text(place)
}

// The previous state and a severity, each by its offset.
fn put_states_before(
    line: LineBuilder,
    kind: EventType,
    sensor_type: u8,
    severity: u8,
    state: u8,
) -> LineBuilder
    requires line { length line ≤ 704 }
    ensures added { result ≡ line ++ states_before kind sensor_type severity state }
    ensures long { length result ≤ length line + 250 }
{
    match (state == NO_STATE, severity == NO_STATE) {
        (true, true) => line.text(b"previous state and severity unspecified"),
        (true, false) => put_generic_behind(line, b"severity ", SEVERITY, severity),
        (false, true) => put_state_behind(line, b"previously ", kind, sensor_type, state),
        (false, false) => put_both_before(line, kind, sensor_type, severity, state),
    }
}

// The previous state, and then a severity.
fn put_both_before(
    line: LineBuilder,
    kind: EventType,
    sensor_type: u8,
    severity: u8,
    state: u8,
) -> LineBuilder
    requires line { length line ≤ 704 }
    ensures added { result ≡ line ++ both_before kind sensor_type severity state }
    ensures long { length result ≤ length line + 250 }
{
    let line = put_state_behind(line, b"previously ", kind, sensor_type, state);
    put_generic_behind(line, b", severity ", SEVERITY, severity)
}

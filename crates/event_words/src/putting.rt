// The parts of a sentence, each put behind a line.
ghost use Rattle.std.specs.Prelude.{◌≡◌, ◌≤◌, ◌+◌, ◌++◌, length, codes};
ghost use Rattle.event_words.specs.Rows.{coded};
ghost use Rattle.event_words.specs.Sentence.{sensor_text, generic_text, specific_text, state_text, direction_text, severity_text, named_or};
ghost use Rattle.event_words.specs.Severities.{severity_words};

use crate::event::Direction;
use crate::event_type::EventType;
use crate::generic_states::generic_state;
use crate::sensor_states::sensor_state;
use crate::sensor_types::sensor_type_name;
use crate::severities::severity_name;
use report_line::LineBuilder;

// Words, and a code behind them as two hexadecimal digits and h.
pub(crate) fn put_code(line: LineBuilder, words: &[u8], code: u8) -> LineBuilder
    requires line { length line ≤ 1000 }
    requires words { length words.now ≤ 60 }
    ensures added { result ≡ line ++ coded words.now code }
    ensures long { length result ≤ length line + 63 }
{
    line.text(words).hexadecimal(&[code]).text(b"h")
}

// The same twice.
fn put_codes(line: LineBuilder, words: &[u8], code: u8, more_words: &[u8], other: u8) -> LineBuilder
    requires line { length line ≤ 900 }
    requires words { length words.now ≤ 30 }
    requires more { length more_words.now ≤ 30 }
    ensures added { result ≡ line ++ (coded words.now code ++ coded more_words.now other) }
    ensures long { length result ≤ length line + 90 }
{
    line.text(words)
        .hexadecimal(&[code])
        .text(b"h")
        .text(more_words)
        .hexadecimal(&[other])
        .text(b"h")
}

// The sensor type.
pub(crate) fn put_sensor_type(line: LineBuilder, code: u8) -> LineBuilder
    requires line { length line ≤ 900 }
    ensures added { result ≡ line ++ sensor_text code }
    ensures long { length result ≤ length line + 80 }
{
    match sensor_type_name(code) {
        Some(name) => line.text(name.as_bytes()),
        None if code < 0xC0 => put_code(line, b"reserved sensor type ", code),
        None => put_code(line, b"OEM sensor type ", code),
    }
}

// A state of a generic event type.
fn put_generic_state(line: LineBuilder, code: u8, offset: u8) -> LineBuilder
    requires line { length line ≤ 900 }
    ensures added { result ≡ line ++ generic_text code offset }
    ensures long { length result ≤ length line + 90 }
{
    match generic_state(code, offset) {
        Some(words) => line.text(words.as_bytes()),
        None => put_codes(line, b"unknown offset ", offset, b" of event type ", code),
    }
}

// A state of a sensor type.
fn put_sensor_state(line: LineBuilder, sensor_type: u8, offset: u8) -> LineBuilder
    requires line { length line ≤ 900 }
    ensures added { result ≡ line ++ specific_text sensor_type offset }
    ensures long { length result ≤ length line + 90 }
{
    match sensor_state(sensor_type, offset) {
        Some(words) => line.text(words.as_bytes()),
        None => put_code(line, b"unknown sensor-specific offset ", offset),
    }
}

// A state, from the table that the kind of event type names.
pub(crate) fn put_state(
    line: LineBuilder,
    kind: EventType,
    sensor_type: u8,
    offset: u8,
) -> LineBuilder
    requires line { length line ≤ 900 }
    ensures added { result ≡ line ++ state_text kind sensor_type offset }
    ensures long { length result ≤ length line + 90 }
{
    match kind {
        EventType::Unspecified => put_code(line, b"event type unspecified, offset ", offset),
        EventType::Threshold => put_generic_state(line, 0x01, offset),
        EventType::Generic(code) => put_generic_state(line, code, offset),
        EventType::SensorSpecific => put_sensor_state(line, sensor_type, offset),
        EventType::Oem(code) => put_codes(line, b"OEM event type ", code, b", offset ", offset),
        EventType::Reserved(code) => {
            put_codes(line, b"reserved event type ", code, b", offset ", offset)
        }
    }
}

// Words, and a state behind them.
pub(crate) fn put_state_behind(
    line: LineBuilder,
    words: &[u8],
    kind: EventType,
    sensor_type: u8,
    offset: u8,
) -> LineBuilder
    requires line { length line ≤ 880 }
    requires words { length words.now ≤ 20 }
    ensures added { result ≡ line ++ (words.now ++ state_text kind sensor_type offset) }
    ensures long { length result ≤ length line + 110 }
{
    put_state(line.text(words), kind, sensor_type, offset)
}

// Words, and a state of a generic event type behind them.
pub(crate) fn put_generic_behind(
    line: LineBuilder,
    words: &[u8],
    code: u8,
    offset: u8,
) -> LineBuilder
    requires line { length line ≤ 880 }
    requires words { length words.now ≤ 20 }
    ensures added { result ≡ line ++ (words.now ++ generic_text code offset) }
    ensures long { length result ≤ length line + 110 }
{
    put_generic_state(line.text(words), code, offset)
}

// Whether the state came or went.
pub(crate) fn put_direction(line: LineBuilder, direction: Direction) -> LineBuilder
    requires line { length line ≤ 1000 }
    ensures added { result ≡ line ++ direction_text direction }
    ensures long { length result ≤ length line + 12 }
{
    match direction {
        Direction::Asserted => line.text(b", asserted"),
        Direction::Deasserted => line.text(b", deasserted"),
    }
}

// The severity in parentheses, where one is known.
pub(crate) fn put_severity(line: LineBuilder, severity: Option<u8>) -> LineBuilder
    requires line { length line ≤ 900 }
    ensures added { result ≡ line ++ severity_text severity }
    ensures long { length result ≤ length line + 90 }
{
    match severity {
        Some(code) => put_severity_name(line.text(b" ("), code).text(b")"),
        None => line,
    }
}

fn put_severity_name(line: LineBuilder, code: u8) -> LineBuilder
    requires line { length line ≤ 910 }
    ensures added { result ≡ line ++ named_or (severity_words code) (coded (codes "unknown severity ") code) }
    ensures long { length result ≤ length line + 80 }
{
    match severity_name(code) {
        Some(words) => line.text(words.as_bytes()),
        None => put_code(line, b"unknown severity ", code),
    }
}

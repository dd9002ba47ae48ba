//! What a record or a trap says, from its octets.
ghost use Rattle.std.specs.Prelude.{◌≡◌, take};
ghost use Rattle.snmp_trap.specs.Grammar.{IsBody};
ghost use Rattle.pet_body.specs.Layout.{body_in};
ghost use Rattle.event_record.specs.Rules.{IsRecord};
ghost use Rattle.pef_words.specs.Said.{record_event, said_of_record, said_of_number, said_of_trap, said_of_body, trap_event};

use crate::said::Said;
use event_record::Record;
use event_words::{Direction, Event};
use pet_body::Body;
use snmp_trap::decode;

/// What sixteen octets say: None where they are no record.
pub fn record_said(octets: &[u8; 16]) -> Option<Said>
    ensures { result ≡ said_of_record octets.now }
{
    match Record::read(octets) {
        Ok(event) => Some(said_of(&event)),
        Err(_) => None,
    }
}

fn said_of(event: &Record) -> Said
    requires { IsRecord event.now }
    ensures { Some result ≡ said_of_record event.now }
{
    match event.kind() {
        0x02 => Said::OfEvent(event_of(event)),
        kind => Said::OfOemRecord(kind),
    }
}

fn event_of(event: &Record) -> Event
    ensures { result ≡ record_event event.now }
{
    let trigger = event.trigger();
    let event_data = event.event_data();
    Event {
        sensor_type: event.sensor_type(),
        sensor: event.sensor(),
        event_type: trigger % 0x80,
        direction: Direction::of(trigger),
        offset: event_data[0] % 0x10,
        event_data,
        severity: None,
    }
}

/// What a trap says: None where the octets are no trap, or its specific number isn't that of an event.
pub fn trap_said(octets: &[u8]) -> Option<Said>
    ensures { result ≡ said_of_trap octets.now }
{
    match decode(octets) {
        Ok(view) => body_said(view.specific, view.body),
        Err(_) => None,
    }
}

fn body_said(specific: u32, octets: &[u8]) -> Option<Said>
    requires { IsBody octets.now }
    ensures { result ≡ said_of_body specific (body_in octets.now) }
{
    let body = Body::read(octets).unwrap();
    let [first, second, third, ..] = body.event_data;
    number_said(specific, body.severity, body.sensor, [first, second, third])
}

/// What a specific number says with a severity, a sensor's number and event data 1 to 3: None where it isn't that of an event, which
/// has 0 in bits 31:24 and 6:4.
pub fn number_said(specific: u32, severity: u8, sensor: u8, event_data: [u8; 3]) -> Option<Said>
    ensures { result ≡ said_of_number specific severity sensor event_data }
{
    if specific >= 0x0100_0000 || specific / 0x10 % 8 != 0 {
        return None;
    }
    let low = (specific % 0x100) as u8;
    Some(Said::OfEvent(Event {
        sensor_type: (specific / 0x1_0000) as u8,
        sensor,
        event_type: (specific / 0x100 % 0x100) as u8,
        direction: Direction::of(low),
        offset: (specific % 0x10) as u8,
        event_data,
        severity: Some(severity),
    }))
}

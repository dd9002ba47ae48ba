//! Worked rows: what comes of one item after another, and which octets are an entry.
mod showing;

use board_core::{Act, Step, Told};
use event_record::LogFault;
use pef_commands::Request;
use pef_core::*;
use pef_engine::{Entry, Machine, Scripted};
use std::alloc::{AllocError, Global};
use std::process::Abort;
use std::test::Fail;

/// Settings whose filter is enabled and asks for a diagnostic interrupt, for sensor type 04h and offset 2.
const SETTINGS: [u8; 55] = [
    0, 0, 0, 0, 0, 0, 0, 0, 0, 0, 0, 0, 0, 0, 0, 0, 0, 0, 0, 0, 0, 0, 0, 0, 0, 0, 162, 0, 162, 0,
    162, 0, 1, 0x3F, 0, 0x80, 0x20, 0x00, 0x10, 0xFF, 0xFF, 0x04, 0xFF, 0x01, 0x04, 0x00, 0x00,
    0x00, 0x00, 0x00, 0x00, 0x00, 0x00, 0x00, 0x00,
];

/// The same with a GUID, the agent address 10.0.0.2, manufacturer 99999 and system 1; the filter asks for an alert by policy 1.
const ALERTING: [u8; 55] = [
    0x00, 0x11, 0x22, 0x33, 0x44, 0x55, 0x66, 0x77, 0x88, 0x99, 0xAA, 0xBB, 0xCC, 0xDD, 0xEE, 0xFF,
    10, 0, 0, 2, 0x9F, 0x86, 0x01, 0x00, 0x01, 0x00, 162, 0, 162, 0, 162, 0, 1, 0x3F, 0, 0x80,
    0x01, 0x01, 0x10, 0xFF, 0xFF, 0x04, 0xFF, 0x01, 0x04, 0x00, 0x00, 0x00, 0x00, 0x00, 0x00, 0x00,
    0x00, 0x00, 0x00,
];

/// A fan's event with this ID, this type and this event data 1.
fn event(id: u8, kind: u8, event_data_1: u8) -> Entry<Item> {
    Entry::Item(Item::Event([
        id,
        0x00,
        kind,
        0x00,
        0xCA,
        0x9A,
        0x3B,
        0x20,
        0x00,
        0x04,
        0x04,
        0x30,
        0x01,
        event_data_1,
        0x10,
        0x20,
    ]))
}

fn open(id: u32, count: u32) -> Entry<Item> {
    Entry::Item(Item::Open { id, count })
}

fn close() -> Entry<Item> {
    Entry::Item(Item::Close)
}

fn tick() -> Entry<Item> {
    Entry::Item(Item::Tick)
}

fn power() -> Entry<Item> {
    Entry::Item(Item::Power)
}

fn told(told: Told) -> Entry<Item> {
    Entry::Outcome(told)
}

/// A command of the network function 04h with at most 64 octets of data.
fn command(rt: &impl Abort, cmd: u8, payload: &[u8]) -> Entry<Item> {
    let request = Request::read(0x04, cmd, payload).expect(rt, "a request");
    Entry::Item(Item::Command(request))
}

/// Set LAN Configuration Parameters of channel 1.
fn set_lan(rt: &impl Abort, payload: &[u8]) -> Entry<Item> {
    let request = Request::read(0x0C, 0x01, payload).expect(rt, "a request");
    Entry::Item(Item::Command(request))
}

/// Goes on with the entry where it is allowed, and says whether it is.
fn go(controller: &mut Controller, entry: &Entry<Item>) -> bool {
    let is_allowed = controller.allows(entry);
    if is_allowed {
        controller.apply(entry);
    }
    is_allowed
}

/// The action that is due, and its record.
fn due(controller: &Controller) -> Option<(Act, u16)> {
    match controller.next() {
        Some(Step::Act { kind, id }) => Some((kind, id)),
        _ => None,
    }
}

/// The last octet of the address to which a trap is due, and whether the trap is this one.
fn due_trap(controller: &Controller, trap: &[u8]) -> Option<(u8, bool)> {
    match controller.next() {
        Some(Step::Datagram { to, octets }) => Some((to.ip[3], octets.as_slice() == trap)),
        _ => None,
    }
}

/// The controller with destination 2 of channel 1, 10.0.0.10, which is sent to once.
fn alerting(rt: &impl Abort, alloc: Global) -> Result<Controller, AllocError> {
    let mut controller = Controller::fresh(alloc, &ALERTING)?;
    let rows = [
        [0x01, 0x12, 0x02, 0x00, 0x00, 0x00].as_slice(),
        &[0x01, 0x13, 0x02, 0, 0, 10, 0, 0, 10, 0, 0, 0, 0, 0, 0],
    ];
    for payload in rows {
        assert!(rt; go(&mut controller, &set_lan(rt, payload)));
    }
    Ok(controller)
}

#[test]
fn an_entry_comes_where_it_is_allowed(rt: HostRuntime) -> Result<(), Fail> {
    let mut controller = Controller::fresh(rt.alloc(), &SETTINGS)?;
    let rows = [
        (told(Told::Done), false),
        (close(), false),
        (open(1, 1_000_001), false),
        (open(1, 2), true),
        (open(2, 1), false),
        (close(), false),
        (event(1, 0x02, 0x52), true),
        (event(2, 0x02, 0x52), false),
        (close(), false),
        (told(Told::Done), true),
        (told(Told::Failed), false),
        (event(2, 0x02, 0x53), true),
        (event(3, 0x02, 0x53), false),
        (open(2, 1), false),
        (close(), true),
        (close(), false),
        (event(3, 0x02, 0x53), true),
        (open(2, 1_000_000), true),
    ];
    for (entry, is_allowed) in rows {
        assert_eq!(rt; go(&mut controller, &entry), is_allowed);
    }
    Ok(())
}

#[test]
fn an_entry_has_its_octets(rt: HostRuntime) {
    let rows = [
        (
            open(0x0403_0201, 0x0008_0706),
            [0x05, 1, 2, 3, 4, 6, 7, 8, 0].as_slice(),
        ),
        (close(), [0x06].as_slice()),
        (told(Told::Done), [0x10, 0x00].as_slice()),
        (told(Told::Failed), [0x10, 0x01].as_slice()),
        (
            event(1, 0x02, 0x52),
            [
                0x01, 0x01, 0x00, 0x02, 0x00, 0xCA, 0x9A, 0x3B, 0x20, 0x00, 0x04, 0x04, 0x30, 0x01,
                0x52, 0x10, 0x20,
            ]
            .as_slice(),
        ),
        (
            command(&rt, 0x12, &[5, 0x10]),
            [0x02, 0x04, 0x12, 0x05, 0x10].as_slice(),
        ),
        (command(&rt, 0xFF, &[]), [0x02, 0x04, 0xFF].as_slice()),
        (tick(), [0x03].as_slice()),
        (power(), [0x04].as_slice()),
    ];
    for (entry, octets) in rows {
        assert_eq!(rt; Controller::encode_entry(&entry).as_slice(), octets);
        let decoded = Controller::decode_entry(octets).expect(&rt, "an entry");
        assert_eq!(rt; Controller::encode_entry(&decoded).as_slice(), octets);
    }
    let others = [
        [].as_slice(),
        [0x02].as_slice(),
        [0x02, 0x04].as_slice(),
        [0x02, 0x40, 0x12].as_slice(),
        [0x02; 68].as_slice(),
        [0x01; 16].as_slice(),
        [0x01; 18].as_slice(),
        [0x03, 0x00].as_slice(),
        [0x04, 0x00].as_slice(),
        [0x05; 8].as_slice(),
        [0x05; 10].as_slice(),
        [0x06, 0x00].as_slice(),
        [0x10].as_slice(),
        [0x10, 0x02].as_slice(),
        [0x10, 0x00, 0x00].as_slice(),
    ];
    for octets in others {
        assert!(rt; Controller::decode_entry(octets).is_none());
    }
}

#[test]
fn records_that_ask_for_nothing_are_passed_in_one_call(rt: HostRuntime) -> Result<(), Fail> {
    let mut controller = Controller::fresh(rt.alloc(), &SETTINGS)?;
    assert!(rt; go(&mut controller, &command(&rt, 0x12, &[0x01, 0x00])));
    for number in 1..=1_023u16 {
        let [low, high] = number.to_le_bytes();
        let mut octets = [0u8; 16];
        octets[0] = low;
        octets[1] = high;
        octets[2] = 0x02;
        assert!(rt; go(&mut controller, &Entry::Item(Item::Event(octets))));
    }
    let mut last = [
        0xFE, 0xFF, 0x02, 0, 0xCA, 0x9A, 0x3B, 0x20, 0x00, 0x04, 0x04, 0x30, 0x01, 0x52, 0x10, 0x20,
    ];
    assert!(rt; go(&mut controller, &Entry::Item(Item::Event(last))));
    last[0] = 0xFD;
    assert!(rt; go(&mut controller, &Entry::Item(Item::Event(last))));
    assert_eq!(rt; controller.note(), Note::NotAdded(LogFault::Full));
    assert!(rt; controller.script().is_none());
    assert_eq!(rt; due(&controller), None);
    assert!(rt; go(&mut controller, &command(&rt, 0x12, &[0x01, 0x01])));
    assert_eq!(rt; due(&controller), Some((Act::DiagInt, 0xFFFE)));
    Ok(())
}

/// The trap of an alert at once, with sequence number 1 and time-stamp 0.
const TRAP_AT_ONCE: [u8; 106] = [
    0x30, 0x68, 0x02, 0x01, 0x00, 0x04, 0x06, 0x70, 0x75, 0x62, 0x6C, 0x69, 0x63, 0xA4, 0x5B, 0x06,
    0x09, 0x2B, 0x06, 0x01, 0x04, 0x01, 0x98, 0x6F, 0x01, 0x01, 0x40, 0x04, 0x0A, 0x00, 0x00, 0x02,
    0x02, 0x01, 0x06, 0x02, 0x01, 0x00, 0x43, 0x01, 0x00, 0x30, 0x3F, 0x30, 0x3D, 0x06, 0x0A, 0x2B,
    0x06, 0x01, 0x04, 0x01, 0x98, 0x6F, 0x01, 0x01, 0x01, 0x04, 0x2F, 0x00, 0x11, 0x22, 0x33, 0x44,
    0x55, 0x66, 0x77, 0x88, 0x99, 0xAA, 0xBB, 0xCC, 0xDD, 0xEE, 0xFF, 0x00, 0x01, 0x00, 0x00, 0x00,
    0x00, 0xFF, 0xFF, 0x20, 0x20, 0x00, 0x20, 0x00, 0x00, 0x00, 0x00, 0x00, 0x00, 0x00, 0x00, 0x00,
    0x00, 0x00, 0xFF, 0x00, 0x01, 0x86, 0x9F, 0x00, 0x01, 0xC1,
];

/// The place of the last octet of the sequence number in it.
const SEQUENCE_AT_ONCE: usize = 76;

/// Alert Immediate to this destination of channel 1, with this operation in bits 7:6 and this string.
fn alert_immediate(rt: &impl Abort, destination: u8, string: u8) -> Entry<Item> {
    command(rt, 0x16, &[0x01, destination, string])
}

#[test]
fn sequence_numbers_go_on_behind_65_535_alerts_at_once(rt: HostRuntime) -> Result<(), Fail> {
    let mut controller = alerting(&rt, rt.alloc())?;
    for number in 1..=65_536u32 {
        assert!(rt; go(&mut controller, &alert_immediate(&rt, 0x02, 0x00)));
        if number >= 65_535 {
            let mut trap = TRAP_AT_ONCE;
            if number == 65_535 {
                trap[SEQUENCE_AT_ONCE - 1] = 0xFF;
                trap[SEQUENCE_AT_ONCE] = 0xFF;
            }
            assert_eq!(rt; due_trap(&controller, &trap), Some((10, true)));
        }
        assert!(rt; go(&mut controller, &told(Told::Done)));
        assert!(rt; controller.next().is_none());
    }
    assert!(rt; go(&mut controller, &alert_immediate(&rt, 0x42, 0x00)));
    assert_eq!(rt;
        controller.reply().map(|octets| octets.as_slice()),
        Some([0x00, 0x01].as_slice())
    );
    Ok(())
}

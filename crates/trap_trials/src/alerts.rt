//! Worked rows: the trap of a fan's event, and what acknowledges it.
use alert_trap::*;
use board_core::{Community, Text, community_of, text_of};
use event_record::Record;
use pet_body::{Body, PetAck};
use snmp_trap::decode;
use std::test::Fail;

/// A fan's event, at 1000000000 seconds since 1970-01-01.
const FAN: [u8; 16] = [
    0x01, 0x00, 0x02, 0x00, 0xCA, 0x9A, 0x3B, 0x20, 0x00, 0x04, 0x04, 0x30, 0x01, 0x52, 0x10, 0x20,
];

const ORIGIN: Origin = Origin {
    agent: [10, 0, 0, 2],
    manufacturer: 99_999,
    system: 1,
};

const FIRST: Draw = Draw {
    guid: [
        0x00, 0x11, 0x22, 0x33, 0x44, 0x55, 0x66, 0x77, 0x88, 0x99, 0xAA, 0xBB, 0xCC, 0xDD, 0xEE,
        0xFF,
    ],
    sequence: 1,
    stamp: 0,
};

/// The fan's trap: sequence number 1, time-stamp 0, severity critical, no text, community "public".
const FAN_TRAP: [u8; 108] = [
    0x30, 0x6A, 0x02, 0x01, 0x00, 0x04, 0x06, 0x70, 0x75, 0x62, 0x6C, 0x69, 0x63, 0xA4, 0x5D, 0x06,
    0x09, 0x2B, 0x06, 0x01, 0x04, 0x01, 0x98, 0x6F, 0x01, 0x01, 0x40, 0x04, 0x0A, 0x00, 0x00, 0x02,
    0x02, 0x01, 0x06, 0x02, 0x03, 0x04, 0x01, 0x02, 0x43, 0x01, 0x00, 0x30, 0x3F, 0x30, 0x3D, 0x06,
    0x0A, 0x2B, 0x06, 0x01, 0x04, 0x01, 0x98, 0x6F, 0x01, 0x01, 0x01, 0x04, 0x2F, 0x00, 0x11, 0x22,
    0x33, 0x44, 0x55, 0x66, 0x77, 0x88, 0x99, 0xAA, 0xBB, 0xCC, 0xDD, 0xEE, 0xFF, 0x00, 0x01, 0x06,
    0xEF, 0xED, 0x80, 0xFF, 0xFF, 0x20, 0x20, 0x10, 0x20, 0x30, 0x00, 0x00, 0x52, 0x10, 0x20, 0x00,
    0x00, 0x00, 0x00, 0x00, 0xFF, 0x00, 0x01, 0x86, 0x9F, 0x00, 0x01, 0xC1,
];

fn public() -> Result<Community, Fail> {
    Ok(community_of(b"public").ok_or("a community")?)
}

#[test]
fn the_trap_of_an_event(rt: HostRuntime) -> Result<(), Fail> {
    let fan = Record::read(&FAN)?;
    let trap = trap_of(&ORIGIN, &FIRST, Some(&fan), 0x10, &Text::new(), &public()?);
    assert_eq!(rt; trap.as_slice(), FAN_TRAP.as_slice());
    let again = trap_of(&ORIGIN, &FIRST, Some(&fan), 0x10, &Text::new(), &public()?);
    assert_eq!(rt; again.as_slice(), FAN_TRAP.as_slice());
    Ok(())
}

#[test]
fn the_trap_says_what_the_alert_drew(rt: HostRuntime) -> Result<(), Fail> {
    let mut octets = FAN;
    octets[12] = 0x81;
    let end = Record::read(&octets)?;
    let draw = Draw {
        sequence: 0xFFFF,
        stamp: 150,
        ..FIRST
    };
    let text = text_of(b"fan 1").ok_or("a text")?;
    let community = community_of(b"night shift").ok_or("a community")?;
    let trap = trap_of(&ORIGIN, &draw, Some(&end), 0x04, &text, &community);
    let view = decode(trap.as_slice()).ok().ok_or("a trap")?;
    assert_eq!(rt; view.community, b"night shift".as_slice());
    assert_eq!(rt; view.agent, [10, 0, 0, 2]);
    assert_eq!(rt; (view.specific, view.ticks), (262_530, 150));
    let body = Body::read(view.body)?;
    assert_eq!(rt; body.guid, FIRST.guid);
    assert_eq!(rt; (body.sequence, body.severity), (0xFFFF, 0x04));
    assert_eq!(rt; (body.manufacturer, body.system), (99_999, 1));
    assert_eq!(rt; body.tail.as_slice(), b"\xC6fan 1\x00\xC1".as_slice());
    Ok(())
}

#[test]
fn the_longest_trap(rt: HostRuntime) -> Result<(), Fail> {
    let fan = Record::read(&FAN)?;
    let draw = Draw {
        stamp: 0xFFFF_FFFF,
        ..FIRST
    };
    let text = text_of(&[0x7A; 61]).ok_or("a text")?;
    let community = community_of(&[0x7A; 18]).ok_or("a community")?;
    let trap = trap_of(&ORIGIN, &draw, Some(&fan), 0x10, &text, &community);
    assert_eq!(rt; trap.as_slice().len(), 189);
    Ok(())
}

#[test]
fn what_acknowledges_a_trap(rt: HostRuntime) -> Result<(), Fail> {
    let mut ack = PetAck {
        sequence: 1,
        timestamp: 116_387_200,
        event_source: 0x20,
        device: 0x20,
        sensor: 0x30,
        event_data: [0x52, 0x10, 0x20],
    };
    assert_eq!(rt; awaited(1, Some(&Record::read(&FAN)?)), ack);
    for (seconds, timestamp) in [
        (883_612_799u32, 0),
        (883_612_800, 0),
        (0xFFFF_FFFF, 0),
        (883_612_801, 1),
    ] {
        let mut octets = FAN;
        octets[3..7].copy_from_slice(&seconds.to_le_bytes());
        ack.timestamp = timestamp;
        assert_eq!(rt; awaited(1, Some(&Record::read(&octets)?)), ack);
    }
    let without = PetAck {
        sequence: 2,
        timestamp: 0,
        event_source: 0x20,
        device: 0x20,
        sensor: 0x00,
        event_data: [0x00; 3],
    };
    assert_eq!(rt; awaited(2, None), without);
    Ok(())
}

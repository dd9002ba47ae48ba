//! The reader that asks each row in its order, written from the definitions, beside the one that is used.
use super::*;
use board_core::Octets;
use std::process::Abort;

/// Whether a row applies, where, and what it says.
type Row = (bool, usize, FrameWhy);

fn first(rows: &[Row]) -> Option<FrameFault> {
    for (applies, at, why) in rows {
        if *applies {
            return Some(FrameFault { at: *at, why: *why });
        }
    }
    None
}

fn octet(octets: &[u8], place: usize) -> u8 {
    octets.get(place).copied().unwrap_or(0)
}

fn part(octets: &[u8], start: usize, end: usize) -> &[u8] {
    octets.get(start..end).unwrap_or(&[])
}

/// The octet that makes the sum 0.
fn wanted(octets: &[u8]) -> u8 {
    let mut sum = 0u8;
    for octet in octets {
        sum = sum.wrapping_add(*octet);
    }
    for octet in 0..=255u8 {
        if sum.wrapping_add(octet) == 0 {
            return octet;
        }
    }
    0
}

fn slow_packet(octets: &[u8]) -> Result<Packet, FrameFault> {
    let length = octets.len();
    let (sequence, class) = (octet(octets, 2), octet(octets, 3));
    let (kind, tag) = (octet(octets, 8), octet(octets, 9));
    let data: u8 = if kind == 0x40 { 16 } else { 0 };
    let end = 12 + usize::from(data);
    let (ack, asf) = (class >= 128, class == 6);
    let rows = [
        (length < 1, length, FrameWhy::Short),
        (octet(octets, 0) != 6, 0, FrameWhy::Version),
        (length < 4, length, FrameWhy::Short),
        (class % 128 != 6 && class % 128 != 7, 3, FrameWhy::Class),
        (ack && length > 4, 4, FrameWhy::Trailing),
        (asf && length < 8, length, FrameWhy::Short),
        (
            asf && part(octets, 4, 8) != [0x00, 0x00, 0x11, 0xBE].as_slice(),
            4,
            FrameWhy::Enterprise,
        ),
        (asf && length < 9, length, FrameWhy::Short),
        (asf && kind != 0x80 && kind != 0x40, 8, FrameWhy::Kind),
        (asf && length < 12, length, FrameWhy::Short),
        (asf && octet(octets, 11) != data, 11, FrameWhy::Length),
        (asf && length < end, length, FrameWhy::Short),
        (asf && length > end, end, FrameWhy::Trailing),
    ];
    if let Some(fault) = first(&rows) {
        return Err(fault);
    }
    let entities = octet(octets, 20);
    Ok(match (class, kind) {
        (6, 0x80) => Packet::Ping { sequence, tag },
        (6, _) => Packet::Pong {
            sequence,
            tag,
            entities,
        },
        (7, _) => Packet::Ipmi { sequence },
        _ => Packet::Ack {
            sequence,
            class: class % 128,
        },
    })
}

fn checked(octets: &[u8], at: usize, start: usize) -> Row {
    let (have, want) = (octet(octets, at), wanted(part(octets, start, at)));
    (have != want, at, FrameWhy::Checksum { want, have })
}

fn slow_message(octets: &[u8]) -> Result<LanMessage, FrameFault> {
    let length = octets.len();
    let n = usize::from(octet(octets, 13));
    let mut session = false;
    for place in 5..13 {
        session |= octet(octets, place) != 0;
    }
    let class = octet(octets, 3);
    let rows = [
        (length < 1, length, FrameWhy::Short),
        (octet(octets, 0) != 6, 0, FrameWhy::Version),
        (length < 4, length, FrameWhy::Short),
        (class != 7, 3, FrameWhy::Class),
        (length < 5, length, FrameWhy::Short),
        (octet(octets, 4) != 0, 4, FrameWhy::Auth),
        (length < 13, length, FrameWhy::Short),
        (session, 5, FrameWhy::Session),
        (length < 14, length, FrameWhy::Short),
        (n < 7 || n > 71, 13, FrameWhy::Length),
        (length < 14 + n, length, FrameWhy::Short),
        (length > 15 + n, 15 + n, FrameWhy::Trailing),
        checked(octets, 16, 14),
        checked(octets, 13 + n, 17),
    ];
    if let Some(fault) = first(&rows) {
        return Err(fault);
    }
    let head = [
        octet(octets, 14),
        octet(octets, 15),
        octet(octets, 17),
        octet(octets, 18),
        octet(octets, 19),
    ];
    Ok(message(head, part(octets, 20, 13 + n)))
}

/// Both readers say the same of the octets.
fn compare(rt: &impl Abort, octets: &[u8]) {
    assert_eq!(rt; Packet::read(octets), slow_packet(octets));
    match (lan_read(octets), slow_message(octets)) {
        (Ok(message), Ok(slow)) => {
            assert_eq!(rt; head(&message), head(&slow));
            assert_eq!(rt; message.payload.as_slice(), slow.payload.as_slice());
        }
        (Err(fault), Err(slow)) => assert_eq!(rt; fault, slow),
        (message, _) => assert!(rt; message.is_ok() && message.is_err(), "one of them refuses"),
    }
}

#[test]
fn agrees_with_the_slow_reader_on_each_prefix_and_each_change(rt: HostRuntime) {
    let vectors = [
        PING.as_slice(),
        PONG.as_slice(),
        TAGGED_PING.as_slice(),
        ACK.as_slice(),
        TAGGED_PONG.as_slice(),
        REQUEST.as_slice(),
        ANSWER.as_slice(),
    ];
    for vector in vectors {
        for end in 0..=vector.len() {
            compare(&rt, &vector[..end]);
        }
        let mut longer = Octets::new();
        longer.extend(vector);
        for _ in 0..60 {
            longer.push(0x00);
            compare(&rt, longer.as_slice());
        }
        for place in 0..vector.len() {
            for value in 0..=255u8 {
                let mut octets = Octets::new();
                octets.extend(&vector[..place]);
                octets.push(value);
                octets.extend(&vector[place + 1..]);
                compare(&rt, octets.as_slice());
            }
        }
    }
}

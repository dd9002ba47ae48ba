ghost use Rattle.snmp_trap.specs.Grammar.{IsBody};

use board_core::{Community, Octets};
use snmp_trap::*;
use std::test::*;

mod refusing;

/// A fan below its lower critical threshold: community "public", agent 10.0.0.2, specific 04h 01h 02h, ticks 0.
const VECTOR: [u8; 108] = [
    0x30, 0x6A, 0x02, 0x01, 0x00, 0x04, 0x06, 0x70, 0x75, 0x62, 0x6C, 0x69, 0x63, 0xA4, 0x5D, 0x06,
    0x09, 0x2B, 0x06, 0x01, 0x04, 0x01, 0x98, 0x6F, 0x01, 0x01, 0x40, 0x04, 0x0A, 0x00, 0x00, 0x02,
    0x02, 0x01, 0x06, 0x02, 0x03, 0x04, 0x01, 0x02, 0x43, 0x01, 0x00, 0x30, 0x3F, 0x30, 0x3D, 0x06,
    0x0A, 0x2B, 0x06, 0x01, 0x04, 0x01, 0x98, 0x6F, 0x01, 0x01, 0x01, 0x04, 0x2F, 0x00, 0x11, 0x22,
    0x33, 0x44, 0x55, 0x66, 0x77, 0x88, 0x99, 0xAA, 0xBB, 0xCC, 0xDD, 0xEE, 0xFF, 0x00, 0x01, 0x06,
    0xEF, 0xED, 0x80, 0xFF, 0xFF, 0x20, 0x20, 0x10, 0x20, 0x30, 0x00, 0x00, 0x52, 0x10, 0x20, 0x00,
    0x00, 0x00, 0x00, 0x00, 0xFF, 0x00, 0x01, 0x86, 0x9F, 0x00, 0x01, 0xC1,
];

/// Where the vector's time-stamp stands.
const TICKS: usize = 40;

/// The first `kept` octets of the vector with these changes, and then the tail.
fn changed(kept: usize, changes: &[(usize, u8)], tail: &[u8]) -> Octets {
    let mut octets = Octets::new();
    for (i, octet) in VECTOR.iter().enumerate() {
        let mut octet = *octet;
        for (at, new) in changes {
            if *at == i {
                octet = *new;
            }
        }
        if i < kept {
            octets.push(octet);
        }
    }
    octets.extend(tail);
    octets
}

/// What the vector says.
fn seen() -> TrapView<'static> {
    TrapView {
        community: b"public",
        agent: [10, 0, 0, 2],
        specific: 0x04_01_02,
        ticks: 0,
        body: &VECTOR[61..],
    }
}

#[test]
fn reads_the_vector_with_each_form_of_length(rt: HostRuntime) {
    assert_eq!(rt; decode(&VECTOR), Ok(seen()));
    let forms = [
        [0x30, 0x30, 0x30, 0x81, 0x6A],
        [0x30, 0x30, 0x82, 0x00, 0x6A],
        [0x30, 0x83, 0x00, 0x00, 0x6A],
        [0x84, 0x00, 0x00, 0x00, 0x6A],
    ];
    for (i, form) in forms.iter().enumerate() {
        let mut octets = Octets::new();
        octets.push(0x30);
        octets.extend(&form[3 - i..]);
        octets.extend(&VECTOR[2..]);
        assert_eq!(rt; decode(octets.as_slice()), Ok(seen()));
    }
}

/// The vector's head to the list, for a list of `list` octets.
fn head(list: u8) -> Octets {
    let mut octets = Octets::new();
    octets.extend(&[0x30, 0x81, list.saturating_add(0x2C), 0x02, 0x01, 0x00]);
    octets.extend(&VECTOR[5..13]);
    octets.extend(&[0xA4, 0x81, list.saturating_add(0x1E)]);
    octets.extend(&VECTOR[15..43]);
    octets
}

#[test]
fn takes_the_first_binding_with_the_name(rt: HostRuntime) {
    // Another binding first, of any tag, then the body, then one with the body's name and no body.
    let mut octets = head(0x58);
    octets.extend(&[0x30, 0x58, 0x30, 0x05, 0x06, 0x01, 0x2A, 0x5E, 0x00]);
    octets.extend(&VECTOR[45..]);
    octets.extend(&[0x30, 0x10]);
    octets.extend(&VECTOR[47..59]);
    octets.extend(&[0xBE, 0x02, 0x01, 0x02]);
    assert_eq!(rt; decode(octets.as_slice()), Ok(seen()));
}

#[test]
fn reads_bodies_of_46_to_110_octets(rt: HostRuntime) {
    for (size, fits) in [(45u8, false), (46, true), (110, true), (111, false)] {
        let mut octets = head(size + 16);
        octets.extend(&[0x30, size + 16, 0x30, size + 14]);
        octets.extend(&VECTOR[47..59]);
        octets.extend(&[0x04, size]);
        for _ in 0..size {
            octets.push(0xBD);
        }
        match decode(octets.as_slice()) {
            Ok(view) => {
                assert!(rt; fits);
                assert_eq!(rt; view.body.len(), usize::from(size));
            }
            Err(refusal) => {
                assert!(rt; !fits);
                assert_eq!(rt;
                    refusal,
                    Refusal {
                        at: 61,
                        why: Why::Body
                    }
                );
            }
        }
    }
}

#[test]
fn a_number_has_up_to_five_octets(rt: HostRuntime) {
    // The time-stamp in the place of the vector's, and what it says, or none where it is 2^32 or more.
    let cases = [
        ([0x00, 0xFF, 0xFF, 0xFF, 0xFF], Some(0xFFFF_FFFF)),
        ([0x00, 0x80, 0x00, 0x00, 0x01], Some(0x8000_0001)),
        ([0x01, 0x00, 0x00, 0x00, 0x00], None),
        ([0xFF, 0xFF, 0xFF, 0xFF, 0xFF], None),
    ];
    for (ticks, says) in cases {
        let mut octets = changed(40, &[(1, 0x6E), (14, 0x61)], &[0x43, 0x05]);
        octets.extend(&ticks);
        octets.extend(&VECTOR[43..]);
        match decode(octets.as_slice()) {
            Ok(view) => assert_eq!(rt; Some(view.ticks), says),
            Err(refusal) => {
                assert_eq!(rt; says, None);
                assert_eq!(rt;
                    refusal,
                    Refusal {
                        at: TICKS,
                        why: Why::Integer
                    }
                );
            }
        }
    }
}

fn trap(specific: u32, ticks: u32) -> Trap
    ensures { IsBody result.body }
{
    let mut community = Community::new();
    community.extend(b"public");
    let mut body = Octets::new();
    body.extend(&VECTOR[61..]);
    Trap {
        community,
        agent: [10, 0, 0, 2],
        specific,
        ticks,
        body,
    }
}

#[test]
fn writes_the_vector_and_the_numbers_of_each_length(rt: HostRuntime) {
    let mut octets = Octets::new();
    encode(&trap(0x04_01_02, 0), &mut octets);
    assert_eq!(rt; octets.as_slice(), VECTOR.as_slice());
    // A specific number and a time-stamp, and how they are spelled.
    let cases = [
        (
            0x00_6F_01,
            0x7F,
            [0x02, 0x02, 0x6F, 0x01, 0x43, 0x01, 0x7F].as_slice(),
        ),
        (
            0xC0_6F_01,
            0x80,
            [0x02, 0x04, 0x00, 0xC0, 0x6F, 0x01, 0x43, 0x02, 0x00, 0x80].as_slice(),
        ),
        (
            0,
            0xFFFF_FFFF,
            [0x02, 0x01, 0x00, 0x43, 0x05, 0x00, 0xFF, 0xFF, 0xFF, 0xFF].as_slice(),
        ),
        (
            0x00_80_00,
            0x7FFF_FFFF,
            [
                0x02, 0x03, 0x00, 0x80, 0x00, 0x43, 0x04, 0x7F, 0xFF, 0xFF, 0xFF,
            ]
            .as_slice(),
        ),
    ];
    for (specific, ticks, spelled) in cases {
        encode(&trap(specific, ticks), &mut octets);
        assert!(rt; octets.as_slice()[35..].starts_with(spelled));
        let view = decode(octets.as_slice());
        let written = TrapView {
            specific,
            ticks,
            ..seen()
        };
        assert_eq!(rt; view, Ok(written));
    }
}

#[test]
fn a_number_has_no_sign(rt: HostRuntime) {
    // The specific number in the place of the vector's, the lengths of the message and of the trap, and what it says.
    let cases: [(&[u8], u8, u8, u32); 3] = [
        (&[0x02, 0x01, 0xFF], 0x68, 0x5B, 255),
        (&[0x02, 0x01, 0x80], 0x68, 0x5B, 128),
        (&[0x02, 0x03, 0xFF, 0x01, 0x02], 0x6A, 0x5D, 0xFF_01_02),
    ];
    for (number, message, trap, says) in cases {
        let mut octets = changed(35, &[(1, message), (14, trap)], number);
        octets.extend(&VECTOR[TICKS..]);
        let view = TrapView {
            specific: says,
            ..seen()
        };
        assert_eq!(rt; decode(octets.as_slice()), Ok(view));
    }
}

#[test]
fn a_refusal_says_what_is_wrong_and_where(rt: HostRuntime) -> Result<(), Fail> {
    let cases = [
        (Why::Truncated, "the message is cut short"),
        (Why::Tag, "another element is wanted"),
        (Why::Length, "bad length"),
        (Why::Over, "an element reaches past the one around it"),
        (Why::Trailing, "octets follow the last element"),
        (
            Why::Integer,
            "a number has no octets, more than 5, or more than 32 bits",
        ),
        (Why::Version, "the version isn't 0"),
        (Why::Enterprise, "another enterprise"),
        (Why::Generic, "the generic trap isn't 6"),
        (Why::NoBinding, "no binding has the name"),
        (Why::Body, "the body hasn't 46 to 110 octets"),
    ];
    for (why, text) in cases {
        let refusal = Refusal { at: 43, why };
        let said = format!(in rt.alloc(); "{refusal}")?;
        let wanted = format!(in rt.alloc(); "{text} at octet 43")?;
        assert_eq!(rt; said.as_str(), wanted.as_str());
    }
    Ok(())
}

//! Worked rows: how writes and reads of parameters are answered.
use pef_config::*;
use std::test::Fail;

mod alerts;

/// Enabled, for sensor type 04h and offset 2.
const FILTER: [u8; 20] = [
    0x80, 0x20, 0x01, 0x10, 0xFF, 0xFF, 0x04, 0xFF, 0x01, 0x04, 0x00, 0x00, 0x00, 0x00, 0x00, 0x00,
    0x00, 0x00, 0x00, 0x00,
];

pub const INITIAL: Initial = Initial {
    control: 0x01,
    actions: 0x3F,
    delay: 0x05,
    filter: FILTER,
};

/// A filter as it is written: its selector in front.
fn behind(selector: u8, filter: [u8; 20]) -> [u8; 21] {
    let mut octets = [selector; 21];
    octets[1..].copy_from_slice(&filter);
    octets
}

/// A filter as it is read: code, revision and selector in front.
fn reply(selector: u8, filter: [u8; 20]) -> [u8; 23] {
    let mut octets = [0x00; 23];
    octets[1] = 0x11;
    octets[2] = selector;
    octets[3..].copy_from_slice(&filter);
    octets
}

#[test]
fn writes_are_checked_in_their_order(rt: HostRuntime) {
    let long = behind(1, FILTER);
    let none = behind(0, FILTER);
    let past = behind(17, FILTER);
    // One after another on one set of parameters: the parameter, its octets, and the code.
    let rows: [(u8, &[u8], u8); 34] = [
        // No such parameter comes before a wrong length.
        (4, &[0x01], 0x80),
        (4, &[], 0x80),
        (14, &[0x10], 0x80),
        (15, &[0x01, 0x01, 0x66], 0x80),
        (96, &[0x00], 0x80),
        (127, &[], 0x80),
        // Read only comes before a wrong length.
        (5, &[0x10], 0x82),
        (5, &[], 0x82),
        (5, &[0x10, 0x10], 0x82),
        // A wrong length.
        (0, &[], 0xC7),
        (0, &[0x01, 0x00], 0xC7),
        (1, &[], 0xC7),
        (2, &[0x3F, 0x3F], 0xC7),
        (3, &[0x00, 0x00], 0xC7),
        (6, &[0x01, 0x80], 0xC7),
        (6, &[], 0xC7),
        // A wrong length comes before a bad selector, and before a bad field.
        (6, &[0x00], 0xC7),
        (7, &[0x11], 0xC7),
        (7, &[0x00, 0x80, 0x00], 0xC7),
        (0, &[0x02, 0x00], 0xC7),
        // A bad selector, which counts by bits 6:0.
        (6, &none, 0xC9),
        (6, &past, 0xC9),
        (7, &[0x00, 0x80], 0xC9),
        (7, &[0x11, 0x80], 0xC9),
        (7, &[0x80, 0x80], 0xC9),
        (7, &[0x91, 0x80], 0xC9),
        // Set in progress: 10b and 11b are no values, and 01b is taken once. CCh comes before 81h.
        (0, &[0x02], 0xCC),
        (0, &[0x01], 0x00),
        (0, &[0x01], 0x81),
        (0, &[0xFD], 0x81),
        (0, &[0x03], 0xCC),
        (0, &[0xFC], 0x00),
        (0, &[0x05], 0x00),
        (6, &long, 0x00),
    ];
    let mut config = Config::new(&INITIAL);
    for (parameter, payload, code) in rows {
        assert_eq!(rt;
            config.set(parameter, payload),
            code,
            "{parameter} {payload:?}"
        );
    }
    assert_eq!(rt;
        config.get(0, false, 0, 0).as_slice(),
        [0x00, 0x11, 0x05].as_slice()
    );
}

#[test]
fn reads_are_checked_in_their_order(rt: HostRuntime) {
    let config = Config::new(&INITIAL);
    // The parameter, whether the revision alone is asked for, the selector, and the reply.
    let rows: [(u8, bool, u8, &[u8]); 19] = [
        (4, false, 0x00, &[0x80]),
        (4, true, 0x00, &[0x80]),
        (14, true, 0x01, &[0x80]),
        (127, false, 0x00, &[0x80]),
        (6, true, 0x00, &[0x00, 0x11]),
        (7, true, 0x11, &[0x00, 0x11]),
        (5, true, 0x00, &[0x00, 0x11]),
        (6, false, 0x00, &[0xC9]),
        (6, false, 0x11, &[0xC9]),
        (7, false, 0x80, &[0xC9]),
        (7, false, 0x7F, &[0xC9]),
        (0, false, 0x00, &[0x00, 0x11, 0x00]),
        (1, false, 0x00, &[0x00, 0x11, 0x01]),
        (2, false, 0x63, &[0x00, 0x11, 0x3F]),
        (3, false, 0x00, &[0x00, 0x11, 0x05]),
        (5, false, 0x00, &[0x00, 0x11, 0x10]),
        (7, false, 0x01, &[0x00, 0x11, 0x01, 0x80]),
        (7, false, 0x81, &[0x00, 0x11, 0x01, 0x80]),
        (7, false, 0x10, &[0x00, 0x11, 0x10, 0x00]),
    ];
    for (parameter, revision_only, set, reply) in rows {
        let read = config.get(parameter, revision_only, set, 0x00);
        assert_eq!(rt; read.as_slice(), reply, "{parameter} {revision_only} {set}");
    }
}

#[test]
fn parameters_6_and_7_share_the_first_octet(rt: HostRuntime) {
    let mut config = Config::new(&INITIAL);
    let mut changed = FILTER;
    assert_eq!(rt; config.set(7, &[0x81, 0xC0]), 0x00);
    changed[0] = 0xC0;
    let read = config.get(6, false, 0x01, 0x00);
    assert_eq!(rt; read.as_slice(), reply(1, changed).as_slice());
    changed[0] = 0x20;
    changed[1] = 0x02;
    assert_eq!(rt; config.set(6, &behind(0x90, changed)), 0x00);
    let read = config.get(6, false, 0x10, 0x00);
    assert_eq!(rt; read.as_slice(), reply(0x10, changed).as_slice());
    // The first octets, by parameter 7; the other filters are as they were.
    for (number, octet) in [(0x10, 0x20), (0x01, 0xC0), (0x0F, 0x00), (0x02, 0x00)] {
        let read = config.get(7, false, number, 0x00);
        assert_eq!(rt; read.as_slice(), [0x00, 0x11, number, octet].as_slice());
    }
}

#[test]
fn what_is_written_counts(rt: HostRuntime) -> Result<(), Fail> {
    let mut config = Config::new(&INITIAL);
    assert_eq!(rt;
        (config.control(), config.actions(), config.delay()),
        (0x01, 0x3F, 0x05)
    );
    assert_eq!(rt;
        (
            config.set(1, &[0xFF]),
            config.set(2, &[0x3D]),
            config.set(3, &[0xF0])
        ),
        (0, 0, 0)
    );
    assert_eq!(rt;
        (config.control(), config.actions(), config.delay()),
        (0xFF, 0x3D, 0xF0)
    );
    assert_eq!(rt; config.filters().get(1)?.write(), FILTER);
    assert_eq!(rt; config.filters().get(16)?.write(), [0; 20]);
    Ok(())
}

#[test]
fn power_clears_what_is_volatile(rt: HostRuntime) {
    // The parameter, its octets as they are written, and as they are read once the power came back.
    let rows: [(u8, &[u8], &[u8]); 14] = [
        (0, &[0x01], &[0x00]),
        (1, &[0x07], &[0x07]),
        (2, &[0x3D], &[0x3D]),
        (3, &[0x09], &[0x09]),
        (7, &[0x01, 0xC0], &[0x01, 0xC0]),
        (9, &[0x01, 0x18, 0x11, 0x00], &[0x01, 0x18, 0x11, 0x00]),
        (12, &[0x00, 0x01, 0x82], &[0x00, 0x00, 0x00]),
        (12, &[0x01, 0x01, 0x82], &[0x01, 0x01, 0x82]),
        (13, &[0x00, 0x01, 0x66], &[0x00, 0x01, 0x00]),
        (13, &[0x00, 0x02, 0x66], &[0x00, 0x02, 0x00]),
        (13, &[0x00, 0x03, 0x66], &[0x00, 0x03, 0x00]),
        (13, &[0x00, 0x04, 0x66], &[0x00, 0x04, 0x00]),
        (13, &[0x01, 0x01, 0x66], &[0x01, 0x01, 0x66]),
        (13, &[0x08, 0x04, 0x66], &[0x08, 0x04, 0x66]),
    ];
    let mut config = Config::new(&INITIAL);
    for (parameter, payload, _) in rows {
        assert_eq!(rt; config.set(parameter, payload), 0x00);
    }
    config.power();
    for (parameter, payload, wanted) in rows {
        let selector = payload.first().copied().unwrap_or(0);
        let block = payload.get(1).copied().unwrap_or(0);
        let read = config.get(parameter, false, selector, block);
        let Some(value) = read.as_slice().get(2..) else {
            panic!(rt; "{parameter} {payload:?}: no value");
        };
        assert!(rt; value.starts_with(wanted), "{parameter} {payload:?}");
    }
}

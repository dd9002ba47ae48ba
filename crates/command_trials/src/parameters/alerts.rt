//! Worked rows of parameters 8 to 13: alert policies, the GUID and alert strings.
use super::*;
use std::test::Fail;

/// To be used, and 16 octets.
const GUID: [u8; 17] = [
    0x01, 0x00, 0x11, 0x22, 0x33, 0x44, 0x55, 0x66, 0x77, 0x88, 0x99, 0xAA, 0xBB, 0xCC, 0xDD, 0xEE,
    0xFF,
];

#[test]
fn writes_are_checked_in_their_order(rt: HostRuntime) {
    let zeros = [0; 19];
    let mut block = [0x41; 19];
    block[0] = 0x88;
    block[1] = 0x04;
    let mut no_string = [0x41; 19];
    no_string[0] = 0x09;
    no_string[1] = 0x01;
    // The parameter, its octets, and the code.
    let rows: [(u8, &[u8], u8); 41] = [
        // Read only comes before a wrong length.
        (8, &[0x10], 0x82),
        (8, &[], 0x82),
        (8, &[0x10, 0x10], 0x82),
        (11, &[0x08], 0x82),
        (11, &[], 0x82),
        // A wrong length.
        (9, &[], 0xC7),
        (9, &[0x01, 0x18, 0x11], 0xC7),
        (9, &[0x01, 0x18, 0x11, 0x00, 0x00], 0xC7),
        (10, &GUID[..16], 0xC7),
        (10, &zeros[..18], 0xC7),
        (12, &[0x01, 0x01], 0xC7),
        (12, &[0x01, 0x01, 0x82, 0x00], 0xC7),
        (13, &[], 0xC7),
        (13, &[0x01], 0xC7),
        (13, &[0x01, 0x01], 0xC7),
        (13, &block, 0xC7),
        // A wrong length comes before a bad selector, and before a bad block.
        (9, &[0x00], 0xC7),
        (9, &[0x11, 0x18, 0x11], 0xC7),
        (12, &[0x09, 0x01], 0xC7),
        (13, &[0x09, 0x01], 0xC7),
        (13, &[0x01, 0x05], 0xC7),
        (13, &no_string, 0xC7),
        // A bad selector, which counts by bits 6:0.
        (9, &[0x00, 0x18, 0x11, 0x00], 0xC9),
        (9, &[0x80, 0x18, 0x11, 0x00], 0xC9),
        (9, &[0x11, 0x18, 0x11, 0x00], 0xC9),
        (12, &[0x09, 0x01, 0x82], 0xC9),
        (12, &[0x89, 0x01, 0x82], 0xC9),
        (13, &no_string[..18], 0xC9),
        (13, &[0x09, 0x01, 0x66], 0xC9),
        // A bad block, which counts by all its bits; and both.
        (13, &[0x01, 0x00, 0x66], 0xC9),
        (13, &[0x01, 0x05, 0x66], 0xC9),
        (13, &[0x01, 0x81, 0x66], 0xC9),
        (13, &[0x09, 0x05, 0x66], 0xC9),
        // What is taken.
        (9, &[0x90, 0x18, 0x11, 0x00], 0x00),
        (9, &[0x01, 0x00, 0x00, 0x00], 0x00),
        (10, &GUID, 0x00),
        (12, &[0x00, 0x01, 0x82], 0x00),
        (12, &[0x88, 0x01, 0x82], 0x00),
        (13, &[0x00, 0x01, 0x66], 0x00),
        (13, &block[..18], 0x00),
        (13, &block[..3], 0x00),
    ];
    for (parameter, payload, code) in rows {
        let mut config = Config::new(&INITIAL);
        assert_eq!(rt;
            config.set(parameter, payload),
            code,
            "{parameter} {payload:?}"
        );
    }
}

#[test]
fn reads_are_checked_in_their_order(rt: HostRuntime) {
    let mut config = Config::new(&INITIAL);
    assert_eq!(rt; config.set(9, &[0x10, 0x1B, 0x21, 0x82]), 0x00);
    assert_eq!(rt; config.set(12, &[0x08, 0x81, 0x02]), 0x00);
    // The parameter, whether the revision alone is asked for, the selector, the block, and the reply.
    let rows: [(u8, bool, u8, u8, &[u8]); 25] = [
        (14, true, 0x01, 0x01, &[0x80]),
        (8, true, 0x7F, 0x00, &[0x00, 0x11]),
        (9, true, 0x00, 0x00, &[0x00, 0x11]),
        (12, true, 0x09, 0x00, &[0x00, 0x11]),
        (13, true, 0x09, 0x05, &[0x00, 0x11]),
        (9, false, 0x00, 0x00, &[0xC9]),
        (9, false, 0x11, 0x00, &[0xC9]),
        (9, false, 0x91, 0x00, &[0xC9]),
        (12, false, 0x09, 0x00, &[0xC9]),
        (12, false, 0x7F, 0x00, &[0xC9]),
        (13, false, 0x09, 0x01, &[0xC9]),
        (13, false, 0x09, 0x05, &[0xC9]),
        (13, false, 0x01, 0x00, &[0xC9]),
        (13, false, 0x01, 0x05, &[0xC9]),
        (13, false, 0x08, 0x81, &[0xC9]),
        (8, false, 0x7F, 0xFF, &[0x00, 0x11, 0x10]),
        (11, false, 0x7F, 0xFF, &[0x00, 0x11, 0x08]),
        (9, false, 0x10, 0xFF, &[0x00, 0x11, 0x10, 0x1B, 0x21, 0x82]),
        (9, false, 0x90, 0x00, &[0x00, 0x11, 0x10, 0x1B, 0x21, 0x82]),
        (9, false, 0x01, 0x00, &[0x00, 0x11, 0x01, 0x00, 0x00, 0x00]),
        (12, false, 0x08, 0x00, &[0x00, 0x11, 0x08, 0x81, 0x02]),
        (12, false, 0x88, 0xFF, &[0x00, 0x11, 0x08, 0x81, 0x02]),
        (12, false, 0x00, 0x00, &[0x00, 0x11, 0x00, 0x00, 0x00]),
        (
            10,
            false,
            0x7F,
            0xFF,
            &[
                0x00, 0x11, 0, 0, 0, 0, 0, 0, 0, 0, 0, 0, 0, 0, 0, 0, 0, 0, 0,
            ],
        ),
        (
            13,
            false,
            0x80,
            0x04,
            &[
                0x00, 0x11, 0x00, 0x04, 0, 0, 0, 0, 0, 0, 0, 0, 0, 0, 0, 0, 0, 0, 0, 0,
            ],
        ),
    ];
    for (parameter, revision_only, set, block, reply) in rows {
        let read = config.get(parameter, revision_only, set, block);
        assert_eq!(rt;
            read.as_slice(),
            reply,
            "{parameter} {revision_only} {set} {block}"
        );
    }
}

#[test]
fn a_string_is_written_block_by_block(rt: HostRuntime) {
    let mut config = Config::new(&INITIAL);
    assert_eq!(rt; config.set(13, b"\x01\x01fan"), 0x00);
    let read = config.get(13, false, 0x01, 0x01);
    assert_eq!(rt;
        read.as_slice(),
        b"\x00\x11\x01\x01fan\0\0\0\0\0\0\0\0\0\0\0\0\0".as_slice()
    );
    assert_eq!(rt; config.set(12, &[0x01, 0x01, 0x82]), 0x00);
    assert_eq!(rt; config.strings().text_for(0x82, 1), Some(1));
    assert_eq!(rt; config.strings().text_for(0x82, 2), None);
    assert_eq!(rt; config.strings().text(1).as_slice(), b"fan".as_slice());
    // A shorter part leaves nothing of the longer one before it, and another block nothing of this one.
    assert_eq!(rt; config.set(13, b"\x81\x02behind"), 0x00);
    assert_eq!(rt; config.set(13, b"\x01\x01x"), 0x00);
    let blocks: [(u8, u8, &[u8]); 4] = [
        (1, 1, b"x\0\0\0\0\0\0\0\0\0\0\0\0\0\0\0"),
        (1, 2, b"behind\0\0\0\0\0\0\0\0\0\0"),
        (1, 3, &[0; 16]),
        (2, 1, &[0; 16]),
    ];
    for (number, block, octets) in blocks {
        let read = config.get(13, false, number, block);
        assert_eq!(rt; read.as_slice().get(4..), Some(octets), "{number} {block}");
    }
    // 64 octets without 00h are cut to 61.
    for block in 1..=4 {
        let mut octets = [0x41; 18];
        octets[0] = 0x08;
        octets[1] = block;
        assert_eq!(rt; config.set(13, &octets), 0x00);
    }
    assert_eq!(rt; config.strings().text(8).as_slice().len(), 61);
}

#[test]
fn entries_and_the_guid_are_those_written_last(rt: HostRuntime) -> Result<(), Fail> {
    let mut config = Config::new(&INITIAL);
    assert_eq!(rt; config.guid(), None);
    assert_eq!(rt; config.set(10, &GUID), 0x00);
    let mut octets = [0; 16];
    octets.copy_from_slice(&GUID[1..]);
    assert_eq!(rt; config.guid(), Some(octets));
    let mut unused = GUID;
    unused[0] = 0xFE;
    assert_eq!(rt; config.set(10, &unused), 0x00);
    assert_eq!(rt; config.guid(), None);
    let read = config.get(10, false, 0, 0);
    assert_eq!(rt; read.as_slice().get(2..), Some(unused.as_slice()));
    for entry in [[0x01, 0x18, 0x11, 0x00], [0x81, 0x19, 0x12, 0x00]] {
        assert_eq!(rt; config.set(9, &entry), 0x00);
    }
    assert_eq!(rt; config.policies().get(1)?.write(), [0x19, 0x12, 0x00]);
    assert_eq!(rt; config.policies().get(2)?.write(), [0; 3]);
    assert_eq!(rt; config.filters().get(1)?.write(), INITIAL.filter);
    Ok(())
}

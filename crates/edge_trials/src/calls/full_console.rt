// The forms `receive` and `list` on a ledger that has all of its 65,536 rows. `rt test` runs it in a few seconds; the checks of
// `rt try --test` make it too slow for the time that a test has there.
use super::{CLOSED, DONE, call};
use board_core::MemBoard;
use std::alloc::{AllocError, Global};
use std::test::Fail;

// A capture of 65,536 items is opened.
const ALL_OPENED: [u8; 12] = [0xa5, 9, 0, 5, 1, 0, 0, 0, 0, 0, 1, 0];

// A fan below its lower critical threshold, with sequence number 1.
const TRAP: [u8; 108] = [
    0x30, 0x6A, 0x02, 0x01, 0x00, 0x04, 0x06, 0x70, 0x75, 0x62, 0x6C, 0x69, 0x63, 0xA4, 0x5D, 0x06,
    0x09, 0x2B, 0x06, 0x01, 0x04, 0x01, 0x98, 0x6F, 0x01, 0x01, 0x40, 0x04, 0x0A, 0x00, 0x00, 0x02,
    0x02, 0x01, 0x06, 0x02, 0x03, 0x04, 0x01, 0x02, 0x43, 0x01, 0x00, 0x30, 0x3F, 0x30, 0x3D, 0x06,
    0x0A, 0x2B, 0x06, 0x01, 0x04, 0x01, 0x98, 0x6F, 0x01, 0x01, 0x01, 0x04, 0x2F, 0x00, 0x11, 0x22,
    0x33, 0x44, 0x55, 0x66, 0x77, 0x88, 0x99, 0xAA, 0xBB, 0xCC, 0xDD, 0xEE, 0xFF, 0x00, 0x01, 0x06,
    0xEF, 0xED, 0x80, 0xFF, 0xFF, 0x20, 0x20, 0x10, 0x20, 0x30, 0x00, 0x00, 0x52, 0x10, 0x20, 0x00,
    0x00, 0x00, 0x00, 0x00, 0xFF, 0x00, 0x01, 0x86, 0x9F, 0x00, 0x01, 0xC1,
];

// Where the last octets of its sequence number and of its timestamp stand.
const SEQUENCE: usize = 78;

const TIMESTAMP: usize = 82;

// The front of its entry, behind its open gate: the length, the tag, and the sender's address.
const FRONT: [u8; 10] = [0xa5, 115, 0, 0x21, 10, 0, 0, 2, 0, 0x80];

// The trap with this octet at this place.
fn changed(at: usize, new: u8) -> [u8; 108] {
    let mut octets = TRAP;
    if let Some(octet) = octets.get_mut(at) {
        *octet = new;
    }
    octets
}

// A ledger with a row for each sequence number, from 0 on.
fn full_ledger(alloc: Global) -> Result<Vec<u8>, AllocError> {
    let mut file = [0xa5, 2, 2, 0, 0x6f, 2].to_vec(alloc)?;
    file.extend_from_slice(&ALL_OPENED)?;
    for sequence in 0..=u16::MAX {
        let [high, low] = sequence.to_be_bytes();
        let mut octets = changed(SEQUENCE, low);
        if let Some(octet) = octets.get_mut(SEQUENCE - 1) {
            *octet = high;
        }
        file.extend_from_slice(&FRONT)?;
        file.extend_from_slice(&octets)?;
        file.extend_from_slice(&DONE)?;
    }
    file.extend_from_slice(&CLOSED)?;
    file.push(0)?;
    Ok(file)
}

// A capture with the trap, which is the second row, and one with another timestamp, which would be a row beyond the 65,536th.
fn capture(alloc: Global) -> Result<String, AllocError> {
    let mut text = String::from_str(alloc, "capture 00000002 2\n")?;
    for octets in [TRAP, changed(TIMESTAMP, 0x81)] {
        text.push_str("datagram 10.0.0.2:32768 ")?;
        for octet in octets.iter() {
            text.push_str(format!(in alloc; "{octet:02x}")?.as_str())?;
        }
        text.push_str("\n")?;
    }
    text.push_str("end\n")?;
    Ok(text)
}

#[test]
fn a_full_ledger_knows_its_keys_and_takes_no_more(rt: HostRuntime) -> Result<(), Fail> {
    let alloc = rt.alloc();
    let file = full_ledger(alloc)?;
    let capture = capture(alloc)?;
    let mut board = MemBoard::new(alloc, file.as_slice(), &[], &[])?;
    let words = ["receive", "state", "capture"];
    let (status, out) = call(alloc, &words, &mut board, capture.as_str())?;
    assert_eq!(rt; status, 9);
    let said =
        "open 00000002 2\nagain 2\nsend 10.0.0.2:623 0600ff07000000000000000000132010d0810417010080edef062020305210200f done\nfull\n";
    assert_eq!(rt; out.written(), said.as_bytes());
    assert_eq!(rt; board.issued().len(), 1);
    let (status, rows) = call(alloc, &["list", "state"], &mut board, "")?;
    assert_eq!(rt; status, 0);
    assert!(rt; rows.written().ends_with(b" 521020 c1\nok 65536\n"));
    assert_eq!(rt;
        rows.written()
            .iter()
            .filter(|octet| **octet == b'\n')
            .count(),
        65_537
    );
    Ok(())
}

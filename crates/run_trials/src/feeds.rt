//! Runs of the console over what a feed gives.
ghost use Rattle.std.specs.Prelude.{◌≡◌, Some};
ghost use Rattle.board_core.specs.Feed.{IsArrived};

use board_core::{Address, Arrival, MemBoard, MemFeed, MemSink, octets_of};
use feed_run::listen;
use std::alloc::Global;
use std::process::Abort;
use trap_console::Console;

/// A fan below its lower critical threshold, with sequence number 1.
const TRAP: [u8; 108] = [
    0x30, 0x6A, 0x02, 0x01, 0x00, 0x04, 0x06, 0x70, 0x75, 0x62, 0x6C, 0x69, 0x63, 0xA4, 0x5D, 0x06,
    0x09, 0x2B, 0x06, 0x01, 0x04, 0x01, 0x98, 0x6F, 0x01, 0x01, 0x40, 0x04, 0x0A, 0x00, 0x00, 0x02,
    0x02, 0x01, 0x06, 0x02, 0x03, 0x04, 0x01, 0x02, 0x43, 0x01, 0x00, 0x30, 0x3F, 0x30, 0x3D, 0x06,
    0x0A, 0x2B, 0x06, 0x01, 0x04, 0x01, 0x98, 0x6F, 0x01, 0x01, 0x01, 0x04, 0x2F, 0x00, 0x11, 0x22,
    0x33, 0x44, 0x55, 0x66, 0x77, 0x88, 0x99, 0xAA, 0xBB, 0xCC, 0xDD, 0xEE, 0xFF, 0x00, 0x01, 0x06,
    0xEF, 0xED, 0x80, 0xFF, 0xFF, 0x20, 0x20, 0x10, 0x20, 0x30, 0x00, 0x00, 0x52, 0x10, 0x20, 0x00,
    0x00, 0x00, 0x00, 0x00, 0xFF, 0x00, 0x01, 0x86, 0x9F, 0x00, 0x01, 0xC1,
];

// A console's file, whose acknowledgements go to port 623.
const EMPTY: [u8; 7] = [0xA5, 2, 2, 0, 0x6F, 0x02, 0];

// The same, where a capture of three items was begun.
const BEGUN: [u8; 19] = [
    0xA5, 2, 2, 0, 0x6F, 0x02, 0xA5, 9, 0, 5, 1, 0, 0, 0, 3, 0, 0, 0, 0,
];

// The lines of a new trap, and of the same again.
const NEW: &str =
    "row 1\nsend 10.0.0.2:623 0600ff07000000000000000000132010d0810417010080edef062020305210200f done\n";

const AGAIN: &str =
    "again 1\nsend 10.0.0.2:623 0600ff07000000000000000000132010d0810417010080edef062020305210200f done\n";

// A run over a trap, a tick and the same trap: the file, how many arrivals are asked for, which call of the feed fails, and what is
// answered, written and sent.
#[derive(Clone, Copy)]
struct Case<'a> {
    file: &'a [u8],
    asked: u32,
    failing: &'a [u64],
    status: u8,
    written: [&'a str; 3],
    sent: usize,
}

fn trap() -> Option<Arrival>
    ensures { (arrival : _) → result ≡ Some arrival → IsArrived arrival }
{
    let from = Address {
        ip: [10, 0, 0, 2],
        port: 32_768,
    };
    Some(Arrival::Datagram {
        from,
        octets: octets_of(&TRAP)?,
    })
}

fn check<R: Abort>(rt: &R, alloc: Global, case: &Case<'_>) {
    let arrivals = [
        trap().expect(rt, "a trap"),
        Arrival::Tick,
        trap().expect(rt, "a trap"),
    ];
    let mut board = MemBoard::new(alloc, case.file, &[], &[]).expect(rt, "memory");
    let mut feed = MemFeed::new(alloc, &arrivals, case.failing).expect(rt, "memory");
    let mut out = MemSink::new(alloc, None);
    let status = listen::<Console, MemBoard, MemFeed, MemSink>(
        alloc, &mut board, &mut feed, &mut out, case.asked,
    );
    let written = case.written.concat(alloc).expect(rt, "memory");
    assert_eq!(rt; status, case.status);
    assert_eq!(rt; out.written(), written.as_bytes());
    assert_eq!(rt; board.issued().len(), case.sent);
}

#[test]
fn a_console_listens(rt: HostRuntime) {
    let alloc = rt.alloc();
    let cases = [
        // up to the end
        Case {
            file: &EMPTY,
            asked: 1_000_000_000,
            failing: &[],
            status: 0,
            written: [NEW, AGAIN, "ok 2\n"],
            sent: 2,
        },
        // ticks count as arrivals
        Case {
            file: &EMPTY,
            asked: 3,
            failing: &[],
            status: 0,
            written: [NEW, AGAIN, "ok 2\n"],
            sent: 2,
        },
        Case {
            file: &EMPTY,
            asked: 2,
            failing: &[2],
            status: 0,
            written: [NEW, "", "ok 1\n"],
            sent: 1,
        },
        Case {
            file: &EMPTY,
            asked: 3,
            failing: &[2],
            status: 6,
            written: [NEW, "", "input failed\n"],
            sent: 1,
        },
        // an unfinished capture is refused, and the feed isn't asked
        Case {
            file: &BEGUN,
            asked: 3,
            failing: &[0],
            status: 5,
            written: ["", "", "unfinished 00000001 3\n"],
            sent: 0,
        },
    ];
    for case in &cases {
        check(&rt, alloc, case);
    }
}

// The form `run` at the end of the room: a state file has at most 16,777,216 octets. `rt test` runs it in a second or two; the checks
// of `rt try --test` make it too slow for the time that a test has there.
use super::{CLOSED, DONE, MADE, OPENED, call, event, records_of};
use board_core::MemBoard;
use std::alloc::{AllocError, Global};
use std::process::Abort;

const LARGEST: usize = 16_777_216;

// A script of one event under an ID of its own that the filter asks an action for.
const SCRIPT: &str = "script 00000001 1\nevent 04000200ca9a3b200004043001521020\nend\n";

// A script of no event is opened and closed.
const IDLE: [u8; 16] = [0xa5, 9, 0, 5, 2, 0, 0, 0, 0, 0, 0, 0, 0xa5, 1, 0, 6];

// `left` octets stand from the last gate of the file on to the end of the largest one. At its front are `idle` scripts of no event,
// 16 octets each, and `acts` events with their outcomes, 25 octets each. `stored` of the script's entries are stored.
#[derive(Clone, Copy)]
struct Case<'a> {
    left: usize,
    idle: usize,
    acts: u8,
    stored: usize,
    status: u8,
    written: &'a str,
    steps: &'a [u16],
}

// The octets of a lawful file before its last gate: behind its front one event again and again, which is logged once and asks for
// nothing.
fn almost_full(alloc: Global, case: &Case<'_>) -> Result<Vec<u8>, AllocError> {
    let mut file = MADE[..59].to_vec(alloc)?;
    for _ in 0..case.idle {
        file.extend_from_slice(&IDLE)?;
    }
    for id in 0..case.acts {
        file.extend_from_slice(&event(id.saturating_add(1), 0x52))?;
        file.extend_from_slice(&DONE)?;
    }
    let again = event(5, 0x53);
    let count = LARGEST.saturating_sub(case.left).saturating_sub(file.len()) / again.len();
    for _ in 0..count {
        file.extend_from_slice(&again)?;
    }
    Ok(file)
}

// Adds the first entries of the script, and the gate behind them.
fn add_stored(file: &mut Vec<u8>, stored: usize) -> Result<(), AllocError> {
    let fourth = event(4, 0x52);
    let entries: [&[u8]; 4] = [&OPENED, &fourth, &DONE, &CLOSED];
    for entry in entries.iter().take(stored) {
        file.extend_from_slice(entry)?;
    }
    file.push(0)?;
    Ok(())
}

fn check(rt: &impl Abort, alloc: Global, case: &Case<'_>) {
    let left = case.left;
    let mut after = almost_full(alloc, case).expect(rt, "memory");
    assert_eq!(rt;
        after.len(),
        LARGEST.saturating_sub(left),
        "{left} left: place"
    );
    let mut before = after.clone().expect(rt, "memory");
    before.push(0).expect(rt, "memory");
    add_stored(&mut after, case.stored).expect(rt, "memory");
    let mut board = MemBoard::new(alloc, before.as_slice(), &[], &[]).expect(rt, "memory");
    let words = ["run", "state", "script"];
    let (status, out) = call(alloc, &words, &mut board, SCRIPT).expect(rt, "memory");
    assert_eq!(rt; status, case.status, "{left} left: status");
    assert_eq!(rt;
        out.written(),
        case.written.as_bytes(),
        "{left} left: output"
    );
    assert!(rt; board.octets() == after.as_slice(), "{left} left: file");
    let steps = records_of(alloc, board.issued()).expect(rt, "memory");
    assert_eq!(rt; steps.as_slice(), case.steps, "{left} left: steps");
}

#[test]
fn run_stops_before_the_entry_that_has_no_room(rt: HostRuntime) {
    // Opening takes 12 octets, the event 20, the outcome 5, closing 4, and a gate 1. Each comes twice: it fits to the last octet,
    // and it lacks one.
    let closed = Case {
        left: 42,
        idle: 0,
        acts: 3,
        stored: 4,
        status: 0,
        written: "open 00000001 1\nevent 0004\nact diagnostic 0004 done\nclose\nok 3\n",
        steps: &[4],
    };
    let told = Case {
        left: 38,
        idle: 4,
        acts: 3,
        stored: 3,
        status: 9,
        written: "open 00000001 1\nevent 0004\nact diagnostic 0004 done\nfull\n",
        steps: &[4],
    };
    let taken = Case {
        left: 33,
        idle: 4,
        acts: 0,
        stored: 2,
        status: 9,
        written: "open 00000001 1\nevent 0004\nfull\n",
        steps: &[],
    };
    let opened = Case {
        left: 13,
        stored: 1,
        written: "open 00000001 1\nfull\n",
        ..taken
    };
    let cases = [
        closed,
        Case {
            left: 41,
            idle: 1,
            acts: 0,
            ..told
        },
        told,
        Case {
            left: 37,
            idle: 0,
            ..taken
        },
        taken,
        Case {
            left: 32,
            idle: 0,
            acts: 1,
            ..opened
        },
        opened,
        Case {
            left: 12,
            idle: 0,
            acts: 1,
            stored: 0,
            written: "full\n",
            ..taken
        },
    ];
    for case in &cases {
        check(&rt, rt.alloc(), case);
    }
}

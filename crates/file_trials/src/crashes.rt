// What a crash leaves at each moment of a short run, worked out by hand from the disk model.
use crate::objects::{Do, succeeds};
use board_core::{MemBoard, Sent, Told};
use std::alloc::Global;
use std::process::Abort;
use std::test::Fail;

// A write, a call that only reads, a sync, a write past the end, a step that fails, a write that fails, and a sync.
const RUN: [(Do, bool); 7] = [
    (Do::Write(2, &[8, 9, 10]), true),
    (Do::Len, true),
    (Do::Sync, true),
    (Do::Write(5, &[11]), true),
    (Do::Issue, false),
    (Do::Write(0, &[12]), false),
    (Do::Sync, true),
];

// The octets that a torn place may hold here.
const TORN: [u8; 4] = [0x00, 0x37, 0xA5, 0xFF];

// Stands for a torn octet: the run below writes no such one.
const T: u8 = 200;

// The moment, the file that a crash leaves, and the number of steps issued by then.
const LEFT: [(u64, &[u8], usize); 15] = [
    (0, &[1, 2, 3, 4], 0),
    (1, &[1, 2, T, T, T], 0),
    (2, &[1, 2, T, T, T], 0),
    (3, &[1, 2, T, T, T], 0),
    (4, &[1, 2, T, T, T], 0),
    (5, &[1, 2, T, T, T], 0),
    (6, &[1, 2, 8, 9, 10], 0),
    (7, &[1, 2, 8, 9, 10, T], 0),
    (8, &[1, 2, 8, 9, 10, T], 0),
    (9, &[1, 2, 8, 9, 10, T], 1),
    (10, &[1, 2, 8, 9, 10, T], 1),
    (11, &[T, 2, 8, 9, 10, T], 1),
    (12, &[T, 2, 8, 9, 10, T], 1),
    (13, &[T, 2, 8, 9, 10, T], 1),
    (14, &[1, 2, 8, 9, 10, 11], 1),
];

fn run(rt: &impl Abort, alloc: Global) -> Result<MemBoard, Fail> {
    let mut board = MemBoard::new(alloc, &[1, 2, 3, 4], &[4], &[0])?;
    for (call, wanted) in RUN {
        assert_eq!(rt; succeeds(&mut board, call), wanted);
    }
    Ok(board)
}

// Compares a file with what is wanted of it.
fn check(rt: &impl Abort, file: &[u8], wanted: &[u8], torn: u8, moment: u64) {
    assert_eq!(rt; file.len(), wanted.len(), "at {moment}");
    for (octet, wanted) in file.iter().zip(wanted) {
        let wanted = if *wanted == T { torn } else { *wanted };
        assert_eq!(rt; *octet, wanted, "at {moment}");
    }
}

// The step of the run was told that it failed.
fn check_steps(rt: &impl Abort, sent: &[Sent], count: usize, moment: u64) {
    assert_eq!(rt; sent.len(), count, "at {moment}");
    for one in sent {
        assert_eq!(rt; one.told, Told::Failed, "at {moment}");
    }
}

fn check_crash(
    rt: &impl Abort,
    alloc: Global,
    board: &MemBoard,
    case: (u64, &[u8], usize),
    torn: u8,
) -> Result<(), Fail> {
    let (moment, file, steps) = case;
    match board.crash(alloc, moment, torn)? {
        None => assert!(rt; false, "no moment {moment}"),
        Some(left) => {
            check(rt, left.octets(), file, torn, moment);
            check_steps(rt, left.issued(), steps, moment);
        }
    }
    Ok(())
}

#[test]
fn a_crash_leaves_what_the_disk_model_allows(rt: HostRuntime) -> Result<(), Fail> {
    let board = run(&rt, rt.alloc())?;
    for case in LEFT {
        for torn in TORN {
            check_crash(&rt, rt.alloc(), &board, case, torn)?;
        }
    }
    for moment in [15, 16, u64::MAX] {
        assert!(rt;
            board.crash(rt.alloc(), moment, 0)?.is_none(),
            "at {moment}"
        );
    }
    Ok(())
}

// After a crash in the middle of the write that fails: nothing is unsynced, and no call is to fail any longer.
fn check_life(rt: &impl Abort, alloc: Global, mut board: MemBoard) -> Result<(), Fail> {
    for call in [Do::Sync, Do::Sync, Do::Sync, Do::Sync, Do::Sync, Do::Issue] {
        assert!(rt; succeeds(&mut board, call));
    }
    assert_eq!(rt; board.issued().len(), 2);
    check_crash(rt, alloc, &board, (0, &[0x37, 2, 8, 9, 10, 0x37], 1), 0xFF)
}

#[test]
fn a_board_goes_on_after_a_crash(rt: HostRuntime) -> Result<(), Fail> {
    let board = run(&rt, rt.alloc())?;
    match board.crash(rt.alloc(), 11, 0x37)? {
        None => assert!(rt; false),
        Some(left) => check_life(&rt, rt.alloc(), left)?,
    }
    Ok(())
}

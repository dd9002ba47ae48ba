// One allocation that fails, wherever it falls: `rt try --test --fail-alloc N` lets the Nth one of this test fail. With memory
// enough it is a run and one more.
use super::{CLOSED, DONE, EVENT, FAILED, MADE, OPENED, SCRIPT, call, file_with};
use board_core::MemBoard;
use std::alloc::{AllocError, Global};
use std::process::Abort;

// Calls `run` on this file, and checks that its answer names what found no memory. Answers the status and what it leaves.
fn live(rt: &impl Abort, alloc: Global, file: &[u8]) -> Result<(u8, Vec<u8>), AllocError> {
    let mut board = MemBoard::new(alloc, file, &[], &[])?;
    let (status, out) = call(alloc, &["run", "state", "script"], &mut board, SCRIPT)?;
    match status {
        0 => assert!(rt; out.starved() == 0),
        7 => assert!(rt; board.starved() == 1 && out.written().ends_with(b"disk failed\n")),
        8 => assert!(rt; out.starved() == 1),
        _ => {
            assert_eq!(rt; status, 10);
            assert!(rt; out.written() == b"memory\n".as_slice());
            assert!(rt; board.octets() == file && board.issued().is_empty());
        }
    }
    Ok((status, board.octets().to_vec(alloc)?))
}

// Where one call of two finds no memory the other one ends, and behind it the history is whole: a step whose issue found no memory
// was told that it failed.
fn live_twice(rt: &impl Abort, alloc: Global) -> Result<(), AllocError> {
    let whole = file_with(alloc, &[&OPENED, &EVENT, &DONE, &CLOSED])?;
    let failed = file_with(alloc, &[&OPENED, &EVENT, &FAILED, &CLOSED])?;
    let (status, left) = live(rt, alloc, &MADE)?;
    let (later, left) = live(rt, alloc, left.as_slice())?;
    assert!(rt; status == 0 || later == 0);
    assert!(rt; left.as_slice() == whole.as_slice() || left.as_slice() == failed.as_slice());
    Ok(())
}

#[test]
fn behind_want_of_memory_a_later_run_goes_on(rt: HostRuntime) {
    // a test that itself finds no memory begins anew, with memory enough
    if live_twice(&rt, rt.alloc()).is_err() {
        assert!(rt; live_twice(&rt, rt.alloc()).is_ok());
    }
}

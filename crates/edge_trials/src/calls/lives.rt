// Three lives of one file, of which the first two are crashed at each pair of their moments.
use super::{CLOSED, DONE, EVENT, MADE, call, event, file_with, records_of};
use board_core::MemBoard;
use std::alloc::{AllocError, Global};
use std::process::Abort;
use std::test::Fail;

// More moments than a run here has.
const MOMENTS: u64 = 1_000;

// Three events, for each of which the filter asks an action.
const THREE_ASK: &str =
    "script 00000001 3\nevent 01000200ca9a3b200004043001521020\nevent 02000200ca9a3b200004043001521020\nevent 03000200ca9a3b200004043001521020\nend\n";

// A script of three items is opened.
const THREE_OPENED: [u8; 12] = [0xa5, 9, 0, 5, 1, 0, 0, 0, 3, 0, 0, 0];

// A call of `run` with that script, which ends well.
fn live(rt: &impl Abort, alloc: Global, board: &mut MemBoard) -> Result<(), AllocError> {
    let (status, _) = call(alloc, &["run", "state", "script"], board, THREE_ASK)?;
    assert_eq!(rt; status, 0);
    Ok(())
}

// The steps are those for the three records, in order, but for repeats that stand right beside their twins, two at most. Answers how
// many repeats there are.
fn repeats(rt: &impl Abort, alloc: Global, board: &MemBoard) -> Result<usize, AllocError> {
    let records = records_of(alloc, board.issued())?;
    let mut once = Vec::new(alloc);
    for record in records.as_slice() {
        if once.last() != Some(record) {
            once.push(*record)?;
        }
    }
    assert_eq!(rt; once.as_slice(), [1, 2, 3].as_slice(), "{records:?}");
    let count = records.len().saturating_sub(once.len());
    assert!(rt; count <= 2, "{records:?}");
    Ok(count)
}

#[test]
fn over_three_lives_each_crash_repeats_at_most_one_step(rt: HostRuntime) -> Result<(), Fail> {
    let alloc = rt.alloc();
    let second = event(2, 0x52);
    let third = event(3, 0x52);
    let entries: [&[u8]; 8] = [
        &THREE_OPENED,
        &EVENT,
        &DONE,
        &second,
        &DONE,
        &third,
        &DONE,
        &CLOSED,
    ];
    let whole = file_with(alloc, &entries)?;
    let mut board = MemBoard::new(alloc, &MADE, &[], &[])?;
    live(&rt, alloc, &mut board)?;
    // the most repeats that a pair of moments brings
    let mut most = 0;
    for one in 0..MOMENTS {
        let Some(mut middle) = board.crash(alloc, one, 0x37)? else {
            break;
        };
        live(&rt, alloc, &mut middle)?;
        for two in 0..MOMENTS {
            let Some(mut last) = middle.crash(alloc, two, 0xa5)? else {
                break;
            };
            live(&rt, alloc, &mut last)?;
            assert!(rt;
                last.octets().starts_with(whole.as_slice()),
                "moments {one} and {two}"
            );
            most = most.max(repeats(&rt, alloc, &last)?);
        }
    }
    assert_eq!(rt; most, 2);
    Ok(())
}

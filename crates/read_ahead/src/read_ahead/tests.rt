// Reads through the window against the file itself, and the number of calls that they cost.
use super::ReadAhead;
use board_core::{Board, DiskFailed, MemBoard};
use std::alloc::{AllocError, Global};
use std::test::Fail;

// A file of 20,000 octets, on a board of which these calls are to fail.
fn board(alloc: Global, failing: &[u64]) -> Result<ReadAhead<MemBoard>, AllocError> {
    let mut content = Vec::new(alloc);
    for i in 0..20_000u32 {
        content.push((i % 251) as u8)?;
    }
    ReadAhead::new(alloc, MemBoard::new(alloc, &content, failing, &[])?)
}

fn length<B: Board>(board: &mut B) -> Result<u64, DiskFailed> {
    board.len()
}

fn read(ahead: &mut ReadAhead<MemBoard>, place: usize, into: &mut [u8]) -> Result<(), DiskFailed> {
    let length = ahead.board.octets().len();
    if place > length || into.len() > length - place {
        return Err(DiskFailed);
    }
    ahead.read_at(place as u64, into)
}

fn write(ahead: &mut ReadAhead<MemBoard>, place: usize, from: &[u8]) -> Result<(), DiskFailed> {
    if place > ahead.board.octets().len() || place > 100_000 || from.len() > 1000 {
        return Err(DiskFailed);
    }
    ahead.write_at(place as u64, from)
}

// A read gives what the file has there.
fn agrees(
    alloc: Global,
    ahead: &mut ReadAhead<MemBoard>,
    place: usize,
    count: usize,
) -> Result<bool, AllocError> {
    let mut into = vec![in alloc; 0; count]?;
    let answer = read(ahead, place, &mut into);
    let octets = ahead.board.octets();
    Ok(
        answer.is_ok()
            && place <= octets.len()
            && count <= octets.len() - place
            && octets[place..place + count] == into[..],
    )
}

// In the window, at its ends, over its end, longer than it, and at the end of the file.
const RANGES: [(usize, usize); 11] = [
    (100, 3),
    (100, 8192),
    (8290, 2),
    (8290, 3),
    (8289, 1),
    (90, 20),
    (0, 8193),
    (0, 0),
    (19_997, 3),
    (20_000, 0),
    (12_000, 8000),
];

#[test]
fn reads_give_what_the_file_has(rt: HostRuntime) -> Result<(), Fail> {
    let alloc = rt.alloc();
    let mut ahead = board(alloc, &[])?;
    for (place, count) in RANGES {
        assert!(rt;
            agrees(alloc, &mut ahead, place, count)?,
            "{count} at {place}"
        );
        // in what was read, before it, behind it, and behind the end of the file
        assert_eq!(rt; write(&mut ahead, place, &[1, 2, 3]), Ok(()));
        assert!(rt;
            agrees(alloc, &mut ahead, place, count)?,
            "{count} at {place}, written"
        );
    }
    assert_eq!(rt; length(&mut ahead), Ok(20_003));
    assert!(rt; agrees(alloc, &mut ahead, 19_990, 13)?);
    Ok(())
}

// Of the board's calls, 0 asks for the length, and 1 and 2 fill the window, of which the second fails.
#[test]
fn most_reads_cost_no_call(rt: HostRuntime) -> Result<(), Fail> {
    let alloc = rt.alloc();
    let mut ahead = board(alloc, &[2])?;
    for place in 0..8190 {
        assert!(rt; agrees(alloc, &mut ahead, place, 3)?, "{place}");
        assert_eq!(rt; length(&mut ahead), Ok(20_000));
    }
    let mut into = [0; 3];
    assert_eq!(rt; read(&mut ahead, 8190, &mut into), Err(DiskFailed));
    assert_eq!(rt; read(&mut ahead, 8190, &mut into), Ok(()));
    assert_eq!(rt; into, [158, 159, 160]);
    Ok(())
}

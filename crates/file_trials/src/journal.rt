use board_core::{Board, MemBoard, Payload};
use pef_journal::*;
use std::alloc::Global;
use std::process::Abort;
use std::test::Fail;

// A kind of file with two octets of settings, and one with three.
const SHORT: FileKind = FileKind {
    number: 2,
    settings: 2,
};

const LONG: FileKind = FileKind {
    number: 7,
    settings: 3,
};

// The head and the settings of a file of the short kind; its first gate is at 6.
const HEAD: [u8; 6] = [0xA5, 2, 2, 0, 0x02, 0x6F];

// The octets that a crash leaves where it may leave any.
const TORN: [u8; 4] = [0, 0x37, 0xA5, 0xFF];

// The entries of a file of the short kind, each behind its length, and the fault that ended the reading.
fn read_all<B: Board>(
    alloc: Global,
    board: &mut B,
) -> Result<(Vec<u8>, Option<JournalFault>), Fail> {
    let mut read = Vec::new(alloc);
    let mut settings = [0; 2];
    let mut journal = match Journal::open(board, SHORT, &mut settings) {
        Ok(journal) => journal,
        Err(fault) => return Ok((read, Some(fault))),
    };
    let mut entry = Payload::new();
    'gates: for _ in 0..64 {
        match journal.entry(board, &mut entry) {
            Ok(true) => {}
            Ok(false) => return Ok((read, None)),
            Err(fault) => return Ok((read, Some(fault))),
        }
        let octets = entry.as_slice();
        read.push((octets.len() % 256) as u8)?;
        read.extend_from_slice(octets)?;
    }
    Ok((read, Some(JournalFault::Full)))
}

// Makes a file of the short kind that holds no entries, where it is formatted as neither kind. True where it was.
fn format_short<B: Board>(board: &mut B) -> Result<bool, Fail> {
    let was = is_formatted(board, &[LONG, SHORT])?;
    if !was {
        format(board, SHORT, &[0x02, 0x6F])?;
    }
    Ok(was)
}

// Adds the entry 07 08 behind the last one of a file of the short kind.
fn add<B: Board>(board: &mut B) -> Result<(), Fail> {
    let mut payload = Payload::new();
    let _ = payload.extend(&[7, 8]);
    let mut settings = [0; 2];
    let mut journal = Journal::open(board, SHORT, &mut settings)?;
    let mut last = Payload::new();
    'gates: for _ in 0..64 {
        if !journal.entry(board, &mut last)? {
            journal.append(board, &payload)?;
            return Ok(());
        }
    }
    Ok(())
}

// A file of the short kind with these octets from its first gate on.
fn file_with(alloc: Global, behind: &[u8]) -> Result<MemBoard, Fail> {
    let mut file = HEAD.to_vec(alloc)?;
    file.extend_from_slice(behind)?;
    Ok(MemBoard::new(alloc, file.as_slice(), &[], &[])?)
}

#[test]
fn a_file_is_read_to_its_first_closed_gate(rt: HostRuntime) -> Result<(), Fail> {
    let alloc = rt.alloc();
    // what stands from the first gate on, the entries each behind its length, and the fault
    let corrupt_at_6 = Some(JournalFault::Corrupt { at: 6 });
    let cases: [(&[u8], &[u8], Option<JournalFault>); 14] = [
        (&[0], &[], None),
        (&[0x37], &[], None),
        (&[0xFF, 1, 0, 3, 0], &[], None),
        (&[0xA5, 1, 0, 3, 0], &[1, 3], None),
        (&[0xA5, 1, 0, 3, 0x37, 1, 0, 4, 0], &[1, 3], None),
        (
            &[0xA5, 1, 0, 3, 0xA5, 2, 0, 5, 6, 0],
            &[1, 3, 2, 5, 6],
            None,
        ),
        (
            &[0xA5, 1, 0, 3, 0xA5],
            &[1, 3],
            Some(JournalFault::Corrupt { at: 10 }),
        ),
        (&[0xA5], &[], corrupt_at_6),
        (&[0xA5, 1], &[], corrupt_at_6),
        (&[0xA5, 1, 0], &[], corrupt_at_6),
        (&[0xA5, 1, 0, 3], &[], corrupt_at_6),
        (&[0xA5, 0, 0, 0, 0], &[], corrupt_at_6),
        (&[0xA5, 3, 0, 1, 2, 3], &[], corrupt_at_6),
        (&[], &[], Some(JournalFault::NotFormatted)),
    ];
    for (behind, entries, fault) in cases.iter() {
        let mut board = file_with(alloc, behind)?;
        let (read, found) = read_all(alloc, &mut board)?;
        assert_eq!(rt; read.as_slice(), *entries);
        assert_eq!(rt; found, *fault);
    }
    Ok(())
}

// At each moment of what was done to this board, a crash leaves one of the two lists of entries, and the later one at last.
// Where the file was being formatted, it may also be left unformatted.
fn crashes_leave(
    rt: &impl Abort,
    alloc: Global,
    board: &MemBoard,
    torn: u8,
    before: &[u8],
    after: &[u8],
    unformatted: bool,
) -> Result<(), Fail> {
    let mut is_after = false;
    for moment in 0..64 {
        let Some(mut left) = board.crash(alloc, moment, torn)? else {
            break;
        };
        let (read, fault) = read_all(alloc, &mut left)?;
        is_after = fault.is_none() && read.as_slice() == after;
        let is_before = fault.is_none() && read.as_slice() == before;
        let is_unformatted = unformatted && fault == Some(JournalFault::NotFormatted);
        assert!(rt;
            is_after || is_before || is_unformatted,
            "moment {moment}, torn {torn}"
        );
    }
    assert!(rt; is_after, "torn {torn}");
    Ok(())
}

#[test]
fn a_crash_in_format_leaves_no_entries_or_no_format(rt: HostRuntime) -> Result<(), Fail> {
    let alloc = rt.alloc();
    // files that aren't formatted, and the octets that formatting makes of them
    let cases: [(&[u8], &[u8]); 6] = [
        (&[], &[0xA5, 2, 2, 0, 0x02, 0x6F, 0]),
        (&[0xA5], &[0xA5, 2, 2, 0, 0x02, 0x6F, 0]),
        (&[0xA5, 2, 2, 0, 1, 1], &[0xA5, 2, 2, 0, 0x02, 0x6F, 0]),
        (
            &[0x37, 2, 2, 0, 1, 1, 0xA5, 1, 0, 9, 0],
            &[0xA5, 2, 2, 0, 0x02, 0x6F, 0, 1, 0, 9, 0],
        ),
        (&[0xA5; 9], &[0xA5, 2, 2, 0, 0x02, 0x6F, 0, 0xA5, 0xA5]),
        (&[0; 8], &[0xA5, 2, 2, 0, 0x02, 0x6F, 0, 0]),
    ];
    for (file, whole) in cases.iter() {
        let mut board = MemBoard::new(alloc, file, &[], &[])?;
        assert!(rt; !format_short(&mut board)?);
        assert_eq!(rt; board.octets(), *whole);
        for torn in TORN {
            crashes_leave(&rt, alloc, &board, torn, &[], &[], true)?;
        }
        assert!(rt; format_short(&mut board)?);
    }
    Ok(())
}

#[test]
fn a_file_is_formatted_as_the_kinds_that_are_given(rt: HostRuntime) -> Result<(), Fail> {
    let alloc = rt.alloc();
    // whether each file is formatted as the one kind, as the other, and as either of the two
    let cases: [(&[u8], bool, bool); 9] = [
        (&[], false, false),
        (&[0xA5, 2, 2, 0, 1, 1], false, false),
        (&[0xA5, 2, 2, 0, 1, 1, 0], true, false),
        (&[0xA5, 2, 3, 0, 1, 1, 1, 0], false, false),
        (&[0xA5, 2, 2, 1, 1, 1, 1, 0], false, false),
        (&[0xA5, 7, 3, 0, 1, 1, 1, 0], false, true),
        (&[0xA5, 7, 3, 0, 1, 1, 1], false, false),
        (&[0xA5, 3, 2, 0, 1, 1, 0], false, false),
        (&[0, 2, 2, 0, 1, 1, 0], false, false),
    ];
    for (file, is_short, is_long) in cases {
        let mut board = MemBoard::new(alloc, file, &[], &[])?;
        assert_eq!(rt; is_formatted(&mut board, &[SHORT])?, is_short);
        assert_eq!(rt; is_formatted(&mut board, &[LONG])?, is_long);
        assert_eq!(rt;
            is_formatted(&mut board, &[SHORT, LONG])?,
            is_short || is_long
        );
        assert!(rt; !is_formatted(&mut board, &[])?);
        assert_eq!(rt; board.octets(), file);
    }
    Ok(())
}

#[test]
fn a_crash_in_append_leaves_the_entries_with_the_new_one_or_without(
    rt: HostRuntime,
) -> Result<(), Fail> {
    let alloc = rt.alloc();
    // what stands from the first gate on, the entries of that file, and these with the new one
    let cases: [(&[u8], &[u8], &[u8]); 3] = [
        (&[0], &[], &[2, 7, 8]),
        (&[0xA5, 1, 0, 3, 0], &[1, 3], &[1, 3, 2, 7, 8]),
        (&[0x37, 1, 0, 4, 0xA5, 0xA5, 0xA5], &[], &[2, 7, 8]),
    ];
    for (behind, before, after) in cases.iter() {
        let mut board = file_with(alloc, behind)?;
        add(&mut board)?;
        for torn in TORN {
            crashes_leave(&rt, alloc, &board, torn, before, after, false)?;
        }
    }
    Ok(())
}

// How many calls were made of a board in memory: it has a last moment, two for each call.
fn calls_of(alloc: Global, board: &MemBoard) -> Result<u64, Fail> {
    let mut calls = 0;
    'moments: for moment in 0..256 {
        if board.crash(alloc, moment, 0)?.is_none() {
            break 'moments;
        }
        calls = moment / 2;
    }
    Ok(calls)
}

#[test]
fn an_append_makes_four_calls(rt: HostRuntime) -> Result<(), Fail> {
    let alloc = rt.alloc();
    let cases: [&[u8]; 3] = [
        &[0],
        &[0xA5, 1, 0, 3, 0],
        &[0xA5, 1, 0, 3, 0xA5, 2, 0, 5, 6, 0],
    ];
    for behind in cases {
        let mut read = file_with(alloc, behind)?;
        let _ = read_all(alloc, &mut read)?;
        let mut added = file_with(alloc, behind)?;
        add(&mut added)?;
        assert_eq!(rt;
            calls_of(alloc, &added)?,
            calls_of(alloc, &read)?.wrapping_add(4)
        );
    }
    Ok(())
}

#[test]
fn a_fault_says_what_is_wrong(rt: HostRuntime) -> Result<(), Fail> {
    let alloc = rt.alloc();
    let cases = [
        (
            JournalFault::NotFormatted,
            "the file is not formatted for this kind",
        ),
        (
            JournalFault::Corrupt { at: 10 },
            "the file is corrupt at octet 10",
        ),
        (JournalFault::DiskFault, "the disk failed"),
        (JournalFault::Full, "the file is full"),
    ];
    for (fault, text) in cases {
        assert_eq!(rt; format!(in alloc; "{fault}")?.as_str(), text);
    }
    Ok(())
}

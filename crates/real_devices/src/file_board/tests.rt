use super::*;
use board_core::{Act, Address, Octets};
use std::alloc::AllocError;
use std::process::Abort;
use std::test::Fail;
use std::{fs, process};

// A path of this test alone.
fn path_of(rt: &HostRuntime, name: &str) -> Result<String, AllocError> {
    let id = process::id(rt.process());
    format!(in rt.alloc(); "/tmp/{name}-{id}")
}

// A board over this state file, with the plant beside it.
fn board_of<'a>(
    rt: &'a HostRuntime,
    state: HeldFile,
    path: &str,
) -> Result<FileBoard<'a, HostRuntime>, Fail> {
    let plant = Plant::beside(rt, rt.alloc(), path)?;
    Ok(FileBoard::new(rt, state, plant))
}

fn remove(rt: &HostRuntime, path: &str) -> Result<(), Fail> {
    let plant = format!(in rt.alloc(); "{path}.plant")?;
    fs::remove_file(rt, plant.as_str())?;
    fs::remove_file(rt, path)?;
    Ok(())
}

#[test]
fn a_state_file_keeps_what_is_written(rt: HostRuntime) -> Result<(), Fail> {
    let path = path_of(&rt, "state")?;
    let path = path.as_str();
    write_twice(&rt, board_of(&rt, HeldFile::create(&rt, path)?, path)?);
    let failure = read_again(&rt, board_of(&rt, HeldFile::open(&rt, path)?, path)?);
    let said = format!(in rt.alloc(); "{}", failure.ok_or("no failure")?)?;
    assert_eq!(rt;
        said.as_str(),
        "reading 3 octets at octet 5: failed to fill whole buffer"
    );
    remove(&rt, path)
}

fn write_twice<R: Net + Abort>(rt: &R, board: FileBoard<'_, R>) {
    let mut board = board;
    for (place, octets) in [(0, [1, 2, 3, 4]), (3, [5, 6, 7, 8])] {
        assert_eq!(rt; board.write_at(place, &octets), Ok(()));
    }
    assert_eq!(rt; board.sync(), Ok(()));
}

// Answers the first read that failed, behind the end.
fn read_again<R: Net + Abort>(rt: &R, board: FileBoard<'_, R>) -> Option<Failure> {
    let mut board = board;
    let mut octets = [0u8; 3];
    for (place, answer) in [
        (5, Err(DiskFailed)),
        (u64::MAX, Err(DiskFailed)),
        (2, Ok(())),
    ] {
        assert_eq!(rt; board.read_at(place, &mut octets), answer, "at {place}");
    }
    assert_eq!(rt; octets, [3, 5, 6]);
    assert_eq!(rt; board.len(), Ok(7));
    board.disk_failure()
}

#[test]
fn actions_are_appended_and_a_refused_datagram_fails(rt: HostRuntime) -> Result<(), Fail> {
    let path = path_of(&rt, "steps")?;
    let path = path.as_str();
    let failure = issue_all(&rt, board_of(&rt, HeldFile::create(&rt, path)?, path)?);
    assert!(rt;
        matches!(
            failure,
            Some(Failure {
                call: Call::Send,
                ..
            })
        )
    );
    let plant = format!(in rt.alloc(); "{path}.plant")?;
    let text = fs::read_to_string(&rt, plant.as_str())?;
    assert_eq!(rt;
        text.as_str(),
        "power-down 0001\npower-cycle 00ab\nreset ffff\ndiagnostic 0100\noem 1234\n"
    );
    remove(&rt, path)
}

// Answers the first step that failed, the datagram.
fn issue_all<R: Net + Abort>(rt: &R, board: FileBoard<'_, R>) -> Option<Failure> {
    let mut board = board;
    for (kind, id) in [
        (Act::PowerDown, 0x0001),
        (Act::PowerCycle, 0x00ab),
        (Act::Reset, 0xffff),
        (Act::DiagInt, 0x0100),
        (Act::Oem, 0x1234),
    ] {
        assert_eq!(rt; board.issue(&Step::Act { kind, id }), Told::Done);
    }
    // Only a socket for broadcasts may send to this address.
    let to = Address {
        ip: [255, 255, 255, 255],
        port: 9,
    };
    let octets = Octets::new();
    assert_eq!(rt; board.issue(&Step::Datagram { to, octets }), Told::Failed);
    board.issue_failure()
}

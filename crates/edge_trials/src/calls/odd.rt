// What no line of a trial says: where the words of a form stand, words with blanks, a long text, carriage returns, a full log.
use super::{CLOSED, DONE, EVENT, MADE, OPENED, call, file_with, words_in};
use board_core::MemBoard;
use pef_call::{Form, Paths, paths};
use std::alloc::{AllocError, Global};
use std::test::Fail;

#[test]
fn words_are_a_form_and_its_places(rt: HostRuntime) -> Result<(), Fail> {
    let alloc = rt.alloc();
    let two = Paths {
        form: Form::Init,
        state: 1,
        second: 2,
        arrivals: 0,
    };
    let with = |form| Some(Paths { form, ..two });
    let alone = |form| {
        Some(Paths {
            form,
            second: 0,
            ..two
        })
    };
    let fed = |form, arrivals| {
        Some(Paths {
            form,
            arrivals,
            ..two
        })
    };
    let rows: [(&[&str], Option<Paths>); 12] = [
        (&["init", "state", "settings"], with(Form::Init)),
        (
            &["init-console", "state", "settings"],
            with(Form::InitConsole),
        ),
        (&["run", "state", "script"], with(Form::Run)),
        (&["receive", "state", "capture"], with(Form::Receive)),
        (&["show", "state"], alone(Form::Show)),
        (&["list", "state"], alone(Form::List)),
        (&["live", "state", "127.0.0.1:623", "1"], fed(Form::Live, 1)),
        (
            &["listen", "state", "0.0.0.0:162", "1000000000"],
            fed(Form::Listen, 1_000_000_000),
        ),
        (
            &["listen", "state", "000.00.0.001:00000", "0000000010"],
            fed(Form::Listen, 10),
        ),
        (&["listen", "state", "127.0.0.1:623", ""], None),
        (&["listen", "state", "127.0.0.1:623", "1 "], None),
        (&["listen", "state", "", "1"], None),
    ];
    for (words, form) in rows {
        let all = words_in(alloc, words)?;
        assert_eq!(rt; paths(all.as_slice()), form, "{words:?}");
    }
    Ok(())
}

#[test]
fn settings_of_65_537_octets_are_too_long(rt: HostRuntime) -> Result<(), Fail> {
    let alloc = rt.alloc();
    let octets = vec![in alloc; b'\n'; 65_537]?;
    let text = String::from_utf8(octets).expect(&rt, "UTF-8");
    let mut board = MemBoard::new(alloc, &[], &[], &[])?;
    let (status, out) = call(
        alloc,
        &["init", "state", "settings"],
        &mut board,
        text.as_str(),
    )?;
    assert_eq!(rt; status, 4);
    assert_eq!(rt; out.written(), b"settings long\n".as_slice());
    assert!(rt; board.octets().is_empty());
    Ok(())
}

#[test]
fn a_line_may_end_with_a_carriage_return(rt: HostRuntime) -> Result<(), Fail> {
    let alloc = rt.alloc();
    let whole = file_with(alloc, &[&OPENED, &EVENT, &DONE, &CLOSED])?;
    let mut board = MemBoard::new(alloc, &MADE, &[], &[])?;
    let script = "script 00000001 1\r\nevent 01000200ca9a3b200004043001521020\r\nend\r\n";
    let (status, _) = call(alloc, &["run", "state", "script"], &mut board, script)?;
    assert_eq!(rt; status, 0);
    assert!(rt; board.octets() == whole.as_slice());
    Ok(())
}

// PEF is disabled.
const OFF: [u8; 8] = [0xa5, 5, 0, 2, 4, 0x12, 1, 0];

// A file with all records of a log, 0001h to 0400h. PEF was disabled before they came.
fn full_log(alloc: Global) -> Result<Vec<u8>, AllocError> {
    let mut file = MADE[..59].to_vec(alloc)?;
    file.extend_from_slice(&OFF)?;
    for id in 1..=1024u16 {
        let mut entry = EVENT;
        entry[4] = (id % 256) as u8;
        entry[5] = (id / 256) as u8;
        file.extend_from_slice(&entry)?;
    }
    file.push(0)?;
    Ok(file)
}

// Record 0400h once more, and one more than the log holds.
const ONE_MORE: &str =
    "script 00000005 2\nevent 00040200ca9a3b200004043001521020\nevent 01040200ca9a3b200004043001521020\nend\n";

#[test]
fn a_log_of_1024_records_takes_no_more(rt: HostRuntime) -> Result<(), Fail> {
    let alloc = rt.alloc();
    let full = full_log(alloc)?;
    let mut board = MemBoard::new(alloc, full.as_slice(), &[], &[])?;
    let (status, out) = call(alloc, &["run", "state", "script"], &mut board, ONE_MORE)?;
    assert_eq!(rt; status, 0);
    assert_eq!(rt;
        out.written(),
        b"open 00000005 2\nevent duplicate 0400\nevent full\nclose\nok 4\n".as_slice()
    );
    let (status, out) = call(alloc, &["show", "state"], &mut board, "")?;
    assert_eq!(rt; status, 0);
    assert_eq!(rt;
        out.written(),
        b"records 1024\nprocessed 0\nlast 0000\njob none\nimmediate 00\nticks 0\ndelay 0\npostpone 0\nsequence 1\nscript 00000005 2 2 closed\npending no\nok 0\n".as_slice()
    );
    Ok(())
}

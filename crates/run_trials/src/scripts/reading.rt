// How far a script is read: a read that fails behind what the answer needs isn't made.
use super::limit::{NEXT, OPEN_4, PUT, THREE, file_with};
use super::shelf::Shelf;
use board_core::{MemBoard, MemSink, MemSource};
use script_run::run;
use std::test::Fail;

#[test]
fn nothing_is_read_behind_what_the_answer_needs(rt: HostRuntime) -> Result<(), Fail> {
    let alloc = rt.alloc();
    // the entries in the file, the text, the status and the last line, where all reads but the first fail
    let cases: [(&[&[u8]], &str, u8, &str); 5] = [
        (&[], THREE, 0, "ok 5\n"),
        (&[], "script 00000001 3\nput\ntake\nput\n", 4, "line 3\n"),
        (&[], "scripts 00000001 3\nput\n", 4, "line 1\n"),
        (&[&OPEN_4, &PUT], NEXT, 5, "unfinished 00000001 4\n"),
        // here the next line is needed
        (&[], "script 00000001 3\nput\n", 6, "input failed\n"),
    ];
    for (entries, text, status, last) in cases {
        let file = file_with(alloc, entries)?;
        let mut board = MemBoard::new(alloc, file.as_slice(), &[], &[])?;
        let mut source = MemSource::new(alloc, text.as_bytes(), &[1, 2, 3])?;
        let mut out = MemSink::new(alloc, None);
        let answer = run::<Shelf, MemBoard, MemSource, MemSink>(
            alloc,
            &mut board,
            &mut source,
            &mut out,
        );
        assert_eq!(rt; answer, status);
        assert!(rt; out.written().ends_with(last.as_bytes()));
    }
    Ok(())
}

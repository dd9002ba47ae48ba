// The objects of this crate, each call on its happy path and where it fails, against values worked out by hand.
use board_core::{
    Act, Address, Arrival, Board, Bytes, DiskFailed, Feed, MemBoard, MemFeed, MemSink, MemSource,
    Sink, SinkFailed, Source, SourceFailed, Step, Told, community_of, octets_of, payload_of,
    text_of,
};
use std::test::Fail;

/// A call on a board.
#[derive(Clone, Copy)]
pub enum Do {
    Len,
    Read(u64, usize),
    Write(u64, &'static [u8]),
    Sync,
    Issue,
}

fn length<B: Board>(board: &mut B) -> Result<u64, DiskFailed> {
    board.len()
}

fn sync<B: Board>(board: &mut B) -> Result<(), DiskFailed> {
    board.sync()
}

fn reset<B: Board>(board: &mut B) -> Told {
    board.issue(&Step::Act {
        kind: Act::Reset,
        id: 7,
    })
}

fn read(board: &mut MemBoard, place: u64, into: &mut [u8]) -> Result<(), DiskFailed> {
    if place as usize > board.octets().len() || into.len() > board.octets().len() - place as usize {
        return Err(DiskFailed);
    }
    board.read_at(place, into)
}

fn write(board: &mut MemBoard, place: u64, from: &[u8]) -> Result<(), DiskFailed> {
    if place as usize > board.octets().len() || place > 1000 || from.len() > 1000 {
        return Err(DiskFailed);
    }
    board.write_at(place, from)
}

/// Makes a call within the file, and tells whether it succeeded.
pub fn succeeds(board: &mut MemBoard, call: Do) -> bool {
    match call {
        Do::Len => length(board).is_ok(),
        Do::Read(place, count) => {
            let mut into = [0; 8];
            count <= 8 && read(board, place, &mut into[..count]).is_ok()
        }
        Do::Write(place, from) => write(board, place, from).is_ok(),
        Do::Sync => sync(board).is_ok(),
        Do::Issue => reset(board) == Told::Done,
    }
}

#[test]
fn octet_lists_end_at_their_room(rt: HostRuntime) {
    let mut list: Bytes<3> = Bytes::new();
    assert!(rt; list.push(1));
    assert!(rt; list.extend(&[2, 3]));
    assert!(rt; !list.push(4));
    assert!(rt; !list.extend(&[4]));
    assert_eq!(rt; list.as_slice(), [1, 2, 3].as_slice());
    let copy = list.copy();
    list.truncate(1);
    assert_eq!(rt; list.as_slice(), [1].as_slice());
    list.clear();
    assert!(rt; list.as_slice().is_empty());
    assert_eq!(rt; copy.as_slice(), [1, 2, 3].as_slice());
}

#[test]
fn lists_hold_so_many_octets(rt: HostRuntime) -> Result<(), Fail> {
    // how many octets there are, and whether a datagram, an entry, a text and a community string hold them
    let cases: [(usize, [bool; 4]); 10] = [
        (0, [true, true, true, true]),
        (18, [true, true, true, true]),
        (19, [true, true, true, false]),
        (61, [true, true, true, false]),
        (62, [true, true, false, false]),
        (511, [true, true, false, false]),
        (512, [true, true, false, false]),
        (513, [false, true, false, false]),
        (520, [false, true, false, false]),
        (521, [false, false, false, false]),
    ];
    for (count, wanted) in cases {
        let from = vec![in rt.alloc(); 7; count]?;
        let held = [
            octets_of(&from).is_some(),
            payload_of(&from).is_some(),
            text_of(&from).is_some(),
            community_of(&from).is_some(),
        ];
        assert_eq!(rt; held, wanted, "{count} octets");
    }
    let text = text_of(b"a text".as_slice()).ok_or("no text")?;
    assert_eq!(rt; text.as_slice(), b"a text".as_slice());
    Ok(())
}

#[test]
fn a_board_gives_what_was_written(rt: HostRuntime) -> Result<(), Fail> {
    let mut board = MemBoard::new(rt.alloc(), &[1, 2, 3, 4], &[], &[])?;
    assert_eq!(rt; write(&mut board, 2, &[8, 9, 10]), Ok(()));
    assert_eq!(rt; length(&mut board), Ok(5));
    let mut into = [0; 4];
    assert_eq!(rt; read(&mut board, 1, &mut into), Ok(()));
    assert_eq!(rt; into, [2, 8, 9, 10]);
    Ok(())
}

// The file is of two octets. Of the calls on the file 1, 3, 4 and 7 are to fail, and of those of `issue` 1 is.
const LISTED: [(Do, bool); 12] = [
    (Do::Len, true),
    (Do::Len, false),
    (Do::Write(2, &[3]), true),
    (Do::Write(0, &[9]), false),
    (Do::Sync, false),
    (Do::Issue, true),
    (Do::Issue, false),
    (Do::Issue, true),
    (Do::Sync, true),
    (Do::Read(0, 3), true),
    (Do::Read(0, 3), false),
    (Do::Read(0, 3), true),
];

#[test]
fn listed_calls_fail_and_others_do_not(rt: HostRuntime) -> Result<(), Fail> {
    let mut board = MemBoard::new(rt.alloc(), &[1, 2], &[1, 3, 4, 7], &[1])?;
    for (call, wanted) in LISTED {
        assert_eq!(rt; succeeds(&mut board, call), wanted);
    }
    assert_eq!(rt; board.octets(), [1, 2, 3].as_slice());
    assert_eq!(rt; board.starved(), 0);
    let told = [Told::Done, Told::Failed, Told::Done];
    assert_eq!(rt; board.issued().len(), told.len());
    for (sent, told) in board.issued().iter().zip(&told) {
        assert_eq!(rt; sent.told, *told);
    }
    Ok(())
}

fn pull<S: Source>(source: &mut S, into: &mut [u8]) -> Result<usize, SourceFailed> {
    source.read(into)
}

// The room of a read, and what it answers: five octets, of which reads 1 and 4 are to fail.
const READS: [(usize, Result<usize, SourceFailed>); 6] = [
    (3, Ok(3)),
    (3, Err(SourceFailed)),
    (0, Ok(0)),
    (3, Ok(2)),
    (3, Err(SourceFailed)),
    (3, Ok(0)),
];

#[test]
fn a_source_gives_all_in_pieces(rt: HostRuntime) -> Result<(), Fail> {
    let mut source = MemSource::new(rt.alloc(), &[1, 2, 3, 4, 5], &[1, 4])?;
    let mut all = Vec::new(rt.alloc());
    for (room, wanted) in READS {
        let mut into = [0; 3];
        let got = pull(&mut source, &mut into[..room.min(3)]);
        assert_eq!(rt; got, wanted);
        if let Ok(count) = got {
            all.extend_from_slice(&into[..count.min(3)])?;
        }
    }
    assert_eq!(rt; all.as_slice(), [1, 2, 3, 4, 5].as_slice());
    Ok(())
}

fn push<S: Sink>(sink: &mut S, from: &[u8]) -> Result<(), SinkFailed> {
    sink.write(from)
}

#[test]
fn a_sink_keeps_all_but_the_listed_write(rt: HostRuntime) {
    let mut sink = MemSink::new(rt.alloc(), Some(1));
    assert_eq!(rt; push(&mut sink, &[1, 2]), Ok(()));
    assert_eq!(rt; push(&mut sink, &[3]), Err(SinkFailed));
    assert_eq!(rt; push(&mut sink, &[4, 5]), Ok(()));
    assert_eq!(rt; sink.written(), [1, 2, 4, 5].as_slice());
    assert_eq!(rt; sink.starved(), 0);
    let mut other = MemSink::new(rt.alloc(), None);
    assert_eq!(rt; push(&mut other, &[6]), Ok(()));
    assert_eq!(rt; other.written(), [6].as_slice());
}

#[test]
fn failures_say_what_failed(rt: HostRuntime) -> Result<(), Fail> {
    let disk = format!(in rt.alloc(); "{DiskFailed}")?;
    assert_eq!(rt; disk.as_str(), "the disk failed");
    let source = format!(in rt.alloc(); "{SourceFailed}")?;
    assert_eq!(rt; source.as_str(), "the source could not be read");
    let sink = format!(in rt.alloc(); "{SinkFailed}")?;
    assert_eq!(rt; sink.as_str(), "the sink could not be written");
    Ok(())
}

fn next<F: Feed>(feed: &mut F) -> Arrival {
    feed.next()
}

// The datagram is the one that the feed has.
fn named(arrival: &Arrival) -> &'static str {
    match arrival {
        Arrival::Datagram { from, octets } => {
            if from.ip == [10, 0, 0, 2]
                && from.port == 162
                && octets.as_slice() == [6, 0].as_slice()
            {
                "datagram"
            } else {
                "another datagram"
            }
        }
        Arrival::Tick => "tick",
        Arrival::End => "end",
        Arrival::Failed => "failed",
    }
}

#[test]
fn a_feed_gives_its_arrivals_and_then_the_end(rt: HostRuntime) -> Result<(), Fail> {
    let arrivals = [
        Arrival::Tick,
        Arrival::Datagram {
            from: Address {
                ip: [10, 0, 0, 2],
                port: 162,
            },
            octets: octets_of(&[6, 0]).ok_or("no octets")?,
        },
        Arrival::Tick,
    ];
    let mut feed = MemFeed::new(rt.alloc(), &arrivals, &[1, 4])?;
    let wanted = ["tick", "failed", "datagram", "tick", "failed", "end", "end"];
    for name in wanted {
        assert_eq!(rt; named(&next(&mut feed)), name);
    }
    Ok(())
}

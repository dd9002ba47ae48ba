ghost use Rattle.board_core.specs.Causes.{IsCount};

use board_core::{Address, Source, SourceFailed};
use script_text::*;

// A text that comes a few octets at a time. The read with the number `fails` fails.
#[derive(Drop)]
struct Pieces<'a> {
    left: &'a [u8],
    each: usize,
    fails: u64,
    reads: u64,
    faults: u64,
    ghost counted: { IsCount faults },
}

impl<'a> Source for Pieces<'a> {
    ghost use Rattle.std.specs.Prelude.{None};

    ghost left = { λ source. None };

    ghost faults = { λ source. source.faults };

    ghost counted = { λ source. source.counted };

    fn read(&mut self, into: &mut [u8]) -> Result<usize, SourceFailed> {
        if self.reads == self.fails {
            self.faults = self.faults.saturating_add(1);
            self.reads = self.reads.saturating_add(1);
            return Err(SourceFailed);
        }
        self.reads = self.reads.saturating_add(1);
        let count = self.each.min(into.len()).min(self.left.len());
        into[..count].copy_from_slice(&self.left[..count]);
        self.left = &self.left[count..];
        Ok(count)
    }
}

fn in_pieces(text: &[u8], each: usize) -> Pieces<'_> {
    Pieces {
        left: text,
        each,
        fails: u64::MAX,
        reads: 0,
        faults: 0,
    }
}

// The item of the scripts of these tests: `event <16 octets>`.
fn event(line: &[u8]) -> Option<[u8; 16]> {
    let (word, digits) = first_word(line);
    if word != b"event".as_slice() {
        return None;
    }
    octets_exactly::<16>(digits?)
}

const EVENT: [u8; 16] = [1, 0, 2, 0, 202, 154, 59, 32, 0, 4, 4, 48, 1, 82, 16, 32];

#[test]
fn a_head_has_its_word_an_id_and_a_count(rt: HostRuntime) {
    let rows = [
        ("script 00000001 1", Some(Head { id: 1, count: 1 })),
        ("script 0000000A 01", Some(Head { id: 10, count: 1 })),
        (
            "script fedcBA98 1000000",
            Some(Head {
                id: 0xfedc_ba98,
                count: 1_000_000,
            }),
        ),
        ("script 00000000 0000000", Some(Head { id: 0, count: 0 })),
        ("script 00000001 1000001", None),
        ("script 00000001 00000001", None),
        ("script 00000001 +1", None),
        ("script 00000001 ", None),
        ("script 00000001", None),
        ("script 0000001 1", None),
        ("script 00000001 1 1", None),
        ("script  00000001 1", None),
        ("capture 00000001 1", None),
        ("scripts 00000001 1", None),
        ("", None),
    ];
    for (line, head) in rows {
        assert_eq!(rt; read_head(b"script", line.as_bytes()), head, "{line}");
    }
    assert_eq!(rt;
        read_head(b"capture", b"capture 00000001 1"),
        Some(Head { id: 1, count: 1 })
    );
    // 1,200 octets are the longest line.
    for (count, head) in [(1189, Some(Head { id: 1, count: 1 })), (1190, None)] {
        let word = vec![in rt.alloc(); b'x'; count].expect(&rt, "memory");
        let mut line = word.clone().expect(&rt, "memory");
        line.extend_from_slice(b" 00000001 1").expect(&rt, "memory");
        assert_eq!(rt;
            read_head(word.as_slice(), line.as_slice()),
            head,
            "{count} octets"
        );
    }
}

#[test]
fn an_item_or_the_end_is_a_line(rt: HostRuntime) {
    let rows = [
        ("event 01000200CA9a3b200004043001521020", Some(EVENT), false),
        ("end", None, true),
        ("event 01000200CA9a3b2000040430015210", None, false),
        ("event 01000200CA9a3b20000404300152102000", None, false),
        ("event 01000200CA9a3b20000404300152102g", None, false),
        ("event  01000200CA9a3b200004043001521020", None, false),
        ("event -", None, false),
        ("event", None, false),
        ("end ", None, false),
        (" end", None, false),
        ("END", None, false),
        ("tick", None, false),
        ("", None, false),
    ];
    for (line, item, ends) in rows {
        assert_eq!(rt; event(line.as_bytes()), item, "{line}");
        assert_eq!(rt; is_end(line.as_bytes()), ends, "{line}");
    }
}

#[test]
fn a_word_says_octets_an_address_or_a_count(rt: HostRuntime) {
    let octets: [(&str, Option<&[u8]>); 9] = [
        ("-", Some(&[])),
        ("0a", Some(&[10])),
        ("00fFA5", Some(&[0, 255, 165])),
        ("00fFA500", None),
        ("", None),
        ("0", None),
        ("0a1", None),
        ("0g", None),
        ("--", None),
    ];
    for (word, want) in octets {
        match (octets_up_to::<3>(word.as_bytes()), want) {
            (Some(octets), Some(want)) => assert_eq!(rt; octets.as_slice(), want, "{word}"),
            (None, None) => {}
            (_, _) => assert!(rt; false, "{word}"),
        }
    }
    let addresses = [
        ("192.168.0.7:162", Some(([192, 168, 0, 7], 162))),
        ("010.000.00.255:00162", Some(([10, 0, 0, 255], 162))),
        ("0.0.0.0:0", Some(([0, 0, 0, 0], 0))),
        (
            "255.255.255.255:65535",
            Some(([255, 255, 255, 255], 65_535)),
        ),
        ("256.0.0.1:162", None),
        ("1.0.0.256:162", None),
        ("0001.0.0.1:162", None),
        ("1.2.3:162", None),
        ("1.2.3.4.5:162", None),
        ("1.2.3.4", None),
        ("1.2.3.4:", None),
        ("1.2.3.4:65536", None),
        ("1.2.3.4:000162", None),
        ("1.2.3.4:1:2", None),
        ("1..3.4:162", None),
        ("a.2.3.4:162", None),
        ("1.2.3.4:-1", None),
        ("", None),
    ];
    for (word, want) in addresses {
        let want = want.map(|(ip, port)| Address { ip, port });
        assert_eq!(rt; address(word.as_bytes()), want, "{word}");
    }
    for (word, want) in [
        ("0", Some(0)),
        ("0000001", Some(1)),
        ("1000000", Some(1_000_000)),
        ("1000001", None),
        ("00000001", None),
        ("1a", None),
        ("", None),
    ] {
        assert_eq!(rt; count(word.as_bytes()), want, "{word}");
    }
}

#[test]
fn lines_come_whole_from_pieces_of_any_size(rt: HostRuntime) {
    let text = b"a\r\nb\n\nc\rd\r\r\ne\r";
    let lines = ["a", "b", "", "c\rd\r", "e\r"];
    for each in [1, 2, 3, 5, 256, 1000] {
        let mut source = in_pieces(text, each);
        let mut reader = Reader::new();
        let mut line = LineBuffer::new();
        for want in lines {
            assert_eq!(rt;
                reader.line(&mut source, &mut line),
                Ok(Found::Line),
                "in pieces of {each}"
            );
            assert_eq!(rt; line.as_slice(), want.as_bytes(), "in pieces of {each}");
        }
        assert_eq!(rt;
            reader.line(&mut source, &mut line),
            Ok(Found::End),
            "in pieces of {each}"
        );
    }
}

#[test]
fn a_line_of_1200_octets_is_the_longest(rt: HostRuntime) {
    for (count, end, found) in [
        (1200, "\n", Found::Line),
        (1200, "\r\n", Found::Line),
        (1200, "", Found::Line),
        (1201, "\n", Found::TooLong),
        (1201, "\r\n", Found::TooLong),
        (1201, "", Found::TooLong),
        (5000, "\n", Found::TooLong),
    ] {
        let mut text = vec![in rt.alloc(); b'x'; count].expect(&rt, "memory");
        text.extend_from_slice(end.as_bytes()).expect(&rt, "memory");
        let mut source = in_pieces(text.as_slice(), 100);
        let mut line = LineBuffer::new();
        assert_eq!(rt;
            Reader::new().line(&mut source, &mut line),
            Ok(found),
            "{count} octets"
        );
    }
}

#[test]
fn a_script_is_read_line_by_line(rt: HostRuntime) {
    let text = b"script 00000001 1\r\nevent 01000200CA9a3b200004043001521020\nend\nmore";
    let mut source = in_pieces(text, 7);
    let mut reader = Reader::new();
    let mut line = LineBuffer::new();
    assert_eq!(rt; reader.line(&mut source, &mut line), Ok(Found::Line));
    assert_eq!(rt;
        read_head(b"script", line.as_slice()),
        Some(Head { id: 1, count: 1 })
    );
    assert_eq!(rt; reader.line(&mut source, &mut line), Ok(Found::Line));
    assert_eq!(rt; event(line.as_slice()), Some(EVENT));
    assert_eq!(rt; reader.line(&mut source, &mut line), Ok(Found::Line));
    assert!(rt; is_end(line.as_slice()));
    assert_eq!(rt; reader.line(&mut source, &mut line), Ok(Found::Line));
    assert_eq!(rt; line.as_slice(), b"more".as_slice());
    assert_eq!(rt; reader.line(&mut source, &mut line), Ok(Found::End));
    assert_eq!(rt; reader.line(&mut source, &mut line), Ok(Found::End));

    // The third read fails in the middle of the event's line.
    let mut source = in_pieces(text, 10);
    source.fails = 2;
    let mut reader = Reader::new();
    assert_eq!(rt; reader.line(&mut source, &mut line), Ok(Found::Line));
    assert_eq!(rt; reader.line(&mut source, &mut line), Err(SourceFailed));
    assert_eq!(rt; source.faults, 1);
}

#[test]
fn a_text_of_65536_octets_is_the_longest(rt: HostRuntime) {
    let alloc = rt.alloc();
    for (count, is_read) in [
        (0, true),
        (256, true),
        (65_536, true),
        (65_537, false),
        (70_000, false),
    ] {
        let text = vec![in alloc; b'x'; count].expect(&rt, "memory");
        let mut source = in_pieces(text.as_slice(), 1000);
        let Ok(read) = read_text(alloc, &mut source) else {
            assert!(rt; false, "{count} octets");
            return;
        };
        assert_eq!(rt; source.left.len(), text.len().saturating_sub(65_537));
        match read {
            Some(read) => assert!(rt;
                is_read && read.as_slice() == text.as_slice(),
                "{count} octets"
            ),
            None => assert!(rt; !is_read, "{count} octets"),
        }
    }
}

use crate::program::top;
use board_core::{MemSink, MemSource};
use std::alloc::{AllocError, Global};
use std::test::Fail;

// Lines, and the sentence that is put behind each: none where it is empty.
const LINES: [(&str, &str); 33] = [
    (
        "1 00112233-4455-6677-8899-aabbccddeeff 1 116387200 127.0.0.1:162 262402 10 20 30 521020 c1",
        "fan, sensor 30h: lower critical, going low, asserted (critical); reading 10h, threshold 20h",
    ),
    (
        "65536 00112233-4455-6677-8899-aabbccddeeff 65535 0 10.0.0.2:162 262530 02 20 30 521020 c24100c1 text a tail of words",
        "fan, sensor 30h: lower critical, going low, deasserted (information); reading 10h, threshold 20h",
    ),
    (
        "datagram 127.0.0.1:162 306a02010004067075626c6963a45d06092b06010401986f010140040a0000020201060203040102430100303f303d060a2b06010401986f010101042f00112233445566778899aabbccddeeff000106efed80ffff202010203000005210200000000000ff0001869f0001c1",
        "fan, sensor 30h: lower critical, going low, asserted (critical); reading 10h, threshold 20h",
    ),
    (
        "send 127.0.0.1:162 306a02010004067075626c6963a45d06092b06010401986f010140040a0000020201060203040102430100303f303d060a2b06010401986f010101042f00112233445566778899aabbccddeeff000106efed80ffff202010203000005210200000000000ff0001869f0001c1 done",
        "fan, sensor 30h: lower critical, going low, asserted (critical); reading 10h, threshold 20h",
    ),
    (
        "306a02010004067075626c6963a45d06092b06010401986f010140040a0000020201060203040102430100303f303d060a2b06010401986f010101042f00112233445566778899aabbccddeeff000106efed80ffff202010203000005210200000000000ff0001869f0001c1",
        "fan, sensor 30h: lower critical, going low, asserted (critical); reading 10h, threshold 20h",
    ),
    (
        "306A02010004067075626C6963A45D06092B06010401986F010140040A0000020201060203040102430100303F303D060A2B06010401986F010101042F00112233445566778899AABBCCDDEEFF000106EFED80FFFF202010203000005210200000000000FF0001869F0001C1",
        "fan, sensor 30h: lower critical, going low, asserted (critical); reading 10h, threshold 20h",
    ),
    (
        "event 01000200ca9a3b200004043001521020",
        "fan, sensor 30h: lower critical, going low, asserted; reading 10h, threshold 20h",
    ),
    (
        "01000200ca9a3b200004043001521020",
        "fan, sensor 30h: lower critical, going low, asserted; reading 10h, threshold 20h",
    ),
    (
        "0500c000ca9a3b200004043001521020",
        "OEM timestamped record, type c0h",
    ),
    (
        "0500e000ca9a3b200004043001521020",
        "OEM non-timestamped record, type e0h",
    ),
    ("", ""),
    ("event 0001", ""),
    ("event 0001 0002", ""),
    ("row 1", ""),
    ("ok 1", ""),
    ("send 127.0.0.1:623 0600ff0700000000000000001320 done", ""),
    (
        "send 127.0.0.1:162 306a02010004067075626c6963a45d06092b06010401986f010140040a0000020201060203040102430100303f303d060a2b06010401986f010101042f00112233445566778899aabbccddeeff000106efed80ffff202010203000005210200000000000ff0001869f0001c1 gone",
        "",
    ),
    (
        "sent 127.0.0.1:162 306a02010004067075626c6963a45d06092b06010401986f010140040a0000020201060203040102430100303f303d060a2b06010401986f010101042f00112233445566778899aabbccddeeff000106efed80ffff202010203000005210200000000000ff0001869f0001c1 done",
        "",
    ),
    (
        "datagram 127.0.0.256:162 306a02010004067075626c6963a45d06092b06010401986f010140040a0000020201060203040102430100303f303d060a2b06010401986f010101042f00112233445566778899aabbccddeeff000106efed80ffff202010203000005210200000000000ff0001869f0001c1",
        "",
    ),
    (
        "trap 127.0.0.1:162 306a02010004067075626c6963a45d06092b06010401986f010140040a0000020201060203040102430100303f303d060a2b06010401986f010101042f00112233445566778899aabbccddeeff000106efed80ffff202010203000005210200000000000ff0001869f0001c1",
        "",
    ),
    ("events 01000200ca9a3b200004043001521020", ""),
    (" 01000200ca9a3b200004043001521020", ""),
    ("01000200ca9a3b20000404300152102", ""),
    ("01000200ca9a3b20000404300152102000", ""),
    ("00000200ca9a3b200004043001521020", ""),
    ("01000100ca9a3b200004043001521020", ""),
    (
        "306a02010004067075626c6963a45d06092b06010401986f010140040a0000020201060203040102430100303f303d060a2b06010401986f010101042f00112233445566778899aabbccddeeff000106efed80ffff202010203000005210200000000000ff0001869f0001",
        "",
    ),
    (
        "1 00112233-4455-6677-8899-aabbccddeeff 1 116387200 127.0.0.1:162 16777216 10 20 30 521020 c1",
        "",
    ),
    (
        "1 00112233-4455-6677-8899-aabbccddeeff 1 116387200 127.0.0.1:162 262418 10 20 30 521020 c1",
        "",
    ),
    (
        "1 00112233-4455-6677-8899-aabbccddeeff 1 116387200 127.0.0.1:162 262402 10 20 30 521020",
        "",
    ),
    (
        "65537 00112233-4455-6677-8899-aabbccddeeff 1 116387200 127.0.0.1:162 262402 10 20 30 521020 c1",
        "",
    ),
    (
        "1 00112233-4455-6677-8899-aabbccddeeff0 1 116387200 127.0.0.1:162 262402 10 20 30 521020 c1",
        "",
    ),
    (
        "1 00112233-4455-6677-8899-aabbccddeeff 1 116387200 127.0.0.1:162 262402 10 20 30 5210 c1",
        "",
    ),
];

#[test]
fn a_line_with_an_event_gets_its_sentence(rt: HostRuntime) -> Result<(), Fail> {
    let alloc = rt.alloc();
    for (line, sentence) in LINES {
        let text = format!(in alloc; "{line}\n")?;
        let wanted = match sentence {
            "" => format!(in alloc; "{line}\n")?,
            words => format!(in alloc; "{line}\t{words}\n")?,
        };
        let mut source = MemSource::new(alloc, text.as_bytes(), &[])?;
        let mut out = MemSink::new(alloc, None);
        assert_eq!(rt; top(&mut source, &mut out), 0, "{line}");
        assert_eq!(rt; out.written(), wanted.as_bytes(), "{line}");
    }
    Ok(())
}

// A fan's record, alone on a line.
const RECORD: &[u8] = b"01000200ca9a3b200004043001521020";

// `count` copies of an octet.
fn copies(alloc: Global, octet: u8, count: usize) -> Result<Vec<u8>, AllocError> {
    vec![in alloc; octet; count]
}

#[test]
fn long_lines_and_the_last_one(rt: HostRuntime) -> Result<(), Fail> {
    let alloc = rt.alloc();
    // a line of 1,199 octets or more that isn't UTF-8, and then one without an end
    for count in [1_198, 1_199, 1_200, 1_201, 2_398, 2_399, 10_000] {
        let mut text = copies(alloc, 0xFF, count)?;
        text.push(b'\n')?;
        text.extend_from_slice(RECORD)?;
        let mut wanted = text.clone()?;
        wanted.extend_from_slice(
            b"\tfan, sensor 30h: lower critical, going low, asserted; reading 10h, threshold 20h\n",
        )?;
        let mut source = MemSource::new(alloc, text.as_slice(), &[])?;
        let mut out = MemSink::new(alloc, None);
        assert_eq!(rt; top(&mut source, &mut out), 0, "{count}");
        assert_eq!(rt; out.written(), wanted.as_slice(), "{count}");
    }
    Ok(())
}

#[test]
fn a_fault_ends_it_behind_a_first_part(rt: HostRuntime) -> Result<(), Fail> {
    let alloc = rt.alloc();
    // the second read fails, and so does the first write
    let text = copies(alloc, b'a', 5_000)?;
    let mut source = MemSource::new(alloc, text.as_slice(), &[1])?;
    let mut out = MemSink::new(alloc, None);
    assert_eq!(rt; top(&mut source, &mut out), 6);
    assert_eq!(rt; out.written().len(), 3 * 1_199);
    let mut source = MemSource::new(alloc, b"ok 1\n", &[])?;
    let mut out = MemSink::new(alloc, Some(0));
    assert_eq!(rt; top(&mut source, &mut out), 8);
    assert_eq!(rt; out.written().len(), 0);
    Ok(())
}

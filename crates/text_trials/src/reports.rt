ghost use Rattle.std.specs.Prelude.{◌≡◌, ◌≤◌, ◌++◌, [], ◌∷◌, codes, decimal, length};
ghost use Rattle.std.specs.Int.{to_be_bytes, w16, w32};
ghost use Rattle.hex.specs.Hex.{encode_lower};
ghost use Rattle.board_core.specs.Acts.{act_word};
ghost use Rattle.report_line.specs.Line.{line_end, address_text};

use board_core::{Act, Address, MemSink, Octets, Sink, SinkFailed};
use report_line::*;

// The lines that the program has today, each with its contract: the checker shows that their callers need no proof of room.
fn act_line(kind: Act, id: u16) -> ReportLine
    ensures { result ≡ codes "act " ++ act_word kind ++ codes " " ++ encode_lower (to_be_bytes w16 id) ++ codes " " ++ codes "done" ++ line_end }
{
    LineBuilder::new()
        .text(b"act ")
        .text(kind.word())
        .text(b" ")
        .hexadecimal(&id.to_be_bytes())
        .text(b" ")
        .text(b"done")
        .end()
}

fn send_line(to: &Address, octets: &Octets) -> ReportLine
    ensures { result ≡ codes "send " ++ address_text to.now ++ codes " " ++ encode_lower octets.now ++ codes " " ++ codes "failed" ++ line_end }
{
    octets.fits();
    LineBuilder::new()
        .text(b"send ")
        .address(to)
        .text(b" ")
        .hexadecimal(octets.as_slice())
        .text(b" ")
        .text(b"failed")
        .end()
}

fn open_line(id: u32, count: u32) -> ReportLine
    ensures { result ≡ codes "open " ++ encode_lower (to_be_bytes w32 id) ++ codes " " ++ decimal count ++ line_end }
{
    LineBuilder::new()
        .text(b"open ")
        .hexadecimal(&id.to_be_bytes())
        .text(b" ")
        .decimal(count)
        .end()
}

fn kind_line(kind: u8) -> ReportLine
    ensures { result ≡ codes "event kind " ++ encode_lower (kind ∷ []) ++ line_end }
{
    LineBuilder::new()
        .text(b"event kind ")
        .hexadecimal(&[kind])
        .end()
}

#[test]
fn a_line_is_its_parts_and_its_end(rt: HostRuntime) {
    let to = Address {
        ip: [255, 0, 10, 1],
        port: 65_535,
    };
    let mut octets = Octets::new();
    assert!(rt; octets.extend(&[0, 0xab, 255]));
    let lines = [
        (
            act_line(Act::PowerCycle, 0x00ff),
            "act power-cycle 00ff done\n",
        ),
        (
            send_line(&to, &octets),
            "send 255.0.10.1:65535 00abff failed\n",
        ),
        (
            open_line(0xfedc_ba98, u32::MAX),
            "open fedcba98 4294967295\n",
        ),
        (open_line(1, 0), "open 00000001 0\n"),
        (kind_line(0xc1), "event kind c1\n"),
    ];
    for (line, text) in lines {
        assert_eq!(rt; line.as_slice(), text.as_bytes(), "{text}");
    }

    // The longest datagram still has room.
    let to = Address {
        ip: [255; 4],
        port: 65_535,
    };
    let mut longest = Octets::new();
    for _ in 0..512 {
        assert!(rt; longest.push(0xff));
    }
    assert_eq!(rt; send_line(&to, &longest).as_slice().len(), 1059);
}

// Each ending with its status, its status where the last line can't be written, and that line.
const ENDINGS: [(Ending, u8, u8, &str); 16] = [
    (Ending::Done { count: 0 }, 0, 8, "ok 0\n"),
    (Ending::Done { count: 1_000_000 }, 0, 8, "ok 1000000\n"),
    (Ending::Usage, 2, 2, "usage\n"),
    (Ending::Unformatted, 3, 3, "unformatted\n"),
    (Ending::Line(1), 4, 4, "line 1\n"),
    (Ending::Line(1_000_002), 4, 4, "line 1000002\n"),
    (
        Ending::Settings(SettingsRefusal::Long),
        4,
        4,
        "settings long\n",
    ),
    (
        Ending::Settings(SettingsRefusal::Text),
        4,
        4,
        "settings text\n",
    ),
    (
        Ending::Settings(SettingsRefusal::Unknown),
        4,
        4,
        "settings unknown\n",
    ),
    (
        Ending::Unfinished { id: 10, count: 7 },
        5,
        5,
        "unfinished 0000000a 7\n",
    ),
    (Ending::Input, 6, 6, "input failed\n"),
    (Ending::Disk, 7, 7, "disk failed\n"),
    (Ending::Output, 8, 8, ""),
    (Ending::Full, 9, 9, "full\n"),
    (Ending::Memory, 10, 10, "memory\n"),
    (Ending::Formatted, 11, 11, "formatted\n"),
];

#[test]
fn a_refused_key_is_named(rt: HostRuntime) {
    let keys = [
        (SettingsKey::Guid, "settings guid\n"),
        (SettingsKey::Agent, "settings agent\n"),
        (SettingsKey::Manufacturer, "settings manufacturer\n"),
        (SettingsKey::System, "settings system\n"),
        (SettingsKey::PetPort, "settings pet_port\n"),
        (SettingsKey::Oem1Port, "settings oem1_port\n"),
        (SettingsKey::Oem2Port, "settings oem2_port\n"),
        (SettingsKey::Control, "settings control\n"),
        (SettingsKey::Actions, "settings actions\n"),
        (SettingsKey::Delay, "settings delay\n"),
        (SettingsKey::Filter, "settings filter\n"),
        (SettingsKey::AckPort, "settings ack_port\n"),
    ];
    for (key, line) in keys {
        let ending = Ending::Settings(SettingsRefusal::Key(key));
        assert_eq!(rt; last_line(ending).as_slice(), line.as_bytes(), "{line}");
    }
}

#[test]
fn a_call_ends_with_its_status_and_last_line(rt: HostRuntime) {
    for (ending, status_said, status_unsaid, line) in ENDINGS {
        assert_eq!(rt; status(ending), status_said, "{line}");
        assert_eq!(rt; last_line(ending).as_slice(), line.as_bytes(), "{line}");

        let mut out = MemSink::new(rt.alloc(), None);
        assert_eq!(rt; out.write(b"first\n"), Ok(()));
        assert_eq!(rt; finish(&mut out, ending), status_said, "{line}");
        let all = format!(in rt.alloc(); "first\n{line}").expect(&rt, "memory");
        assert_eq!(rt; out.written(), all.as_bytes(), "{line}");

        let mut out = MemSink::new(rt.alloc(), Some(0));
        assert_eq!(rt; finish(&mut out, ending), status_unsaid, "{line}");
        assert_eq!(rt; out.written().len(), 0, "{line}");
        assert_eq!(rt; out.write(b"again"), Ok::<(), SinkFailed>(()), "{line}");
    }
}

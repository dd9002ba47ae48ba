//! Worked rows: what comes of one entry after another, what is printed, and which lines are items.
ghost use Rattle.std.specs.Prelude.{OnOk};
ghost use Rattle.pef_engine.specs.MachineView.{IsReadyFor, KeepsAllButReady};
ghost use Rattle.trap_console.specs.View.{view_of};

use Comes::{Close, Open, Trap};
use board_core::{Address, Octets, Step, Told};
use pef_engine::{Entry, Machine, MachineFault, Script, Scripted};
use pet_body::Body;
use report_line::ReportLine;
use std::process::Abort;
use std::test::Fail;
use trap_console::*;

/// A fan below its lower critical threshold, with sequence number 1.
const TRAP: [u8; 108] = [
    0x30, 0x6A, 0x02, 0x01, 0x00, 0x04, 0x06, 0x70, 0x75, 0x62, 0x6C, 0x69, 0x63, 0xA4, 0x5D, 0x06,
    0x09, 0x2B, 0x06, 0x01, 0x04, 0x01, 0x98, 0x6F, 0x01, 0x01, 0x40, 0x04, 0x0A, 0x00, 0x00, 0x02,
    0x02, 0x01, 0x06, 0x02, 0x03, 0x04, 0x01, 0x02, 0x43, 0x01, 0x00, 0x30, 0x3F, 0x30, 0x3D, 0x06,
    0x0A, 0x2B, 0x06, 0x01, 0x04, 0x01, 0x98, 0x6F, 0x01, 0x01, 0x01, 0x04, 0x2F, 0x00, 0x11, 0x22,
    0x33, 0x44, 0x55, 0x66, 0x77, 0x88, 0x99, 0xAA, 0xBB, 0xCC, 0xDD, 0xEE, 0xFF, 0x00, 0x01, 0x06,
    0xEF, 0xED, 0x80, 0xFF, 0xFF, 0x20, 0x20, 0x10, 0x20, 0x30, 0x00, 0x00, 0x52, 0x10, 0x20, 0x00,
    0x00, 0x00, 0x00, 0x00, 0xFF, 0x00, 0x01, 0x86, 0x9F, 0x00, 0x01, 0xC1,
];

/// Where octets of the trap stand: the first of its body and of the GUID there, the last ones of its sequence number and its
/// timestamp, its severity, and its tail.
const BODY: usize = 61;

const SEQUENCE: usize = 78;

const TIMESTAMP: usize = 82;

const SEVERITY: usize = 87;

const TAIL: usize = 107;

/// Acknowledgements go to port 623.
const SETTINGS: [u8; 2] = [0x6F, 0x02];

const SENDER: Address = Address {
    ip: [10, 0, 0, 2],
    port: 32_768,
};

const OTHER: Address = Address {
    ip: [10, 0, 0, 3],
    port: 162,
};

/// What comes to the console: the trap comes from this sender, with one octet changed.
#[derive(Clone, Copy)]
enum Comes {
    Open(u32, u32),
    Trap(Address, usize, u8),
    Close,
    Outcome(Told),
}

fn entry_of(comes: Comes) -> Entry<Item> {
    match comes {
        Comes::Open(id, count) => Entry::Item(Item::Open { id, count }),
        Comes::Trap(from, at, new) => datagram(from, &changed(&[(at, new)])),
        Comes::Close => Entry::Item(Item::Close),
        Comes::Outcome(told) => Entry::Outcome(told),
    }
}

fn datagram(from: Address, octets: &[u8]) -> Entry<Item> {
    let mut held = Octets::new();
    held.extend(octets);
    Entry::Item(Item::Datagram { from, octets: held })
}

/// The trap with these changes.
fn changed(changes: &[(usize, u8)]) -> [u8; 108] {
    let mut octets = TRAP;
    for (at, new) in changes {
        if let Some(octet) = octets.get_mut(*at) {
            *octet = *new;
        }
    }
    octets
}

fn ready(console: &mut Console, entry: &Entry<Item>) -> Result<(), MachineFault>
    ensures same { KeepsAllButReady (view_of console.old) (view_of console.new) }
    ensures ready { OnOk result (IsReadyFor (view_of console.new) entry.now) }
{
    match entry {
        Entry::Item(item) => console.prepare(item),
        Entry::Outcome(_) => Ok(()),
    }
}

/// Goes on with the entry where it is allowed and there is room for it, and says whether.
fn go(console: &mut Console, entry: &Entry<Item>) -> bool {
    if !console.allows(entry) {
        return false;
    }
    match ready(console, entry) {
        Ok(()) => {
            console.apply(entry);
            true
        }
        Err(_) => false,
    }
}

/// What the console reports of the entry.
fn line(console: &Console, entry: &Entry<Item>) -> ReportLine {
    match entry {
        Entry::Item(item) => console.say(item),
        Entry::Outcome(_) => ReportLine::new(),
    }
}

/// Where the acknowledgement that is due goes, and for which sequence number it is.
fn due(console: &Console) -> Option<(Address, u8)> {
    match console.next() {
        Some(Step::Datagram { to, octets }) => Some((to, *octets.as_slice().get(20)?)),
        _ => None,
    }
}

const DONE: Comes = Comes::Outcome(Told::Done);

const FAILED: Comes = Comes::Outcome(Told::Failed);

/// Port 623 at the address of the sender, and at that of the other one.
const TO_SENDER: Address = Address {
    ip: [10, 0, 0, 2],
    port: 623,
};

const TO_OTHER: Address = Address {
    ip: [10, 0, 0, 3],
    port: 623,
};

/// The acknowledgements of sequence numbers 1 and 2, to either.
const ACK_1: Option<(Address, u8)> = Some((TO_SENDER, 1));

const ACK_2: Option<(Address, u8)> = Some((TO_SENDER, 2));

const OTHER_1: Option<(Address, u8)> = Some((TO_OTHER, 1));

const OTHER_2: Option<(Address, u8)> = Some((TO_OTHER, 2));

/// What comes, what is reported of it, or none where it isn't allowed, and which acknowledgement is due then.
type Case = (Comes, Option<&'static str>, Option<(Address, u8)>);

const ROWS: [Case; 30] = [
    (DONE, None, None),
    (Close, None, None),
    (Open(1, 1_000_001), None, None),
    (Open(10, 8), Some("open 0000000a 8\n"), None),
    (Open(2, 1), None, None),
    (Trap(SENDER, SEQUENCE, 1), Some("row 1\n"), ACK_1),
    (Trap(SENDER, SEQUENCE, 2), None, ACK_1),
    (Close, None, ACK_1),
    (DONE, Some(""), None),
    (FAILED, None, None),
    (Trap(SENDER, SEQUENCE, 2), Some("row 2\n"), ACK_2),
    (FAILED, Some(""), None),
    (Trap(SENDER, SEQUENCE, 1), Some("again 1\n"), ACK_1),
    (FAILED, Some(""), None),
    (Trap(SENDER, BODY, 0x01), Some("row 3\n"), ACK_1),
    (DONE, Some(""), None),
    (Trap(SENDER, TIMESTAMP, 0x81), Some("row 4\n"), ACK_1),
    (DONE, Some(""), None),
    (Close, None, None),
    (Trap(OTHER, SEQUENCE, 2), Some("again 2\n"), OTHER_2),
    (DONE, Some(""), None),
    (Trap(OTHER, SEVERITY, 0x20), Some("again 1\n"), OTHER_1),
    (DONE, Some(""), None),
    (Trap(SENDER, TIMESTAMP, 0x81), Some("again 4\n"), ACK_1),
    (DONE, Some(""), None),
    (Close, Some("close\n"), None),
    (Close, None, None),
    (Trap(SENDER, SEQUENCE, 1), Some("again 1\n"), ACK_1),
    (DONE, Some(""), None),
    (Open(2, 0), Some("open 00000002 0\n"), None),
];

#[test]
fn each_entry_comes_where_it_is_allowed_and_each_trap_is_one_row(
    rt: HostRuntime,
) -> Result<(), Fail> {
    let mut console = Console::fresh(rt.alloc(), &SETTINGS)?;
    assert_eq!(rt; (console.heard(), console.script()), (Heard::Nothing, None));
    for case in &ROWS {
        check(&rt, &mut console, case);
    }
    check_rows(&rt, &console);
    let script = Script {
        id: 2,
        count: 0,
        taken: 0,
        closed: false,
    };
    assert_eq!(rt; console.script(), Some(script));
    Ok(())
}

fn check(rt: &impl Abort, console: &mut Console, case: &Case) {
    let (comes, said, acknowledged) = case;
    let entry = entry_of(*comes);
    assert_eq!(rt; go(console, &entry), said.is_some(), "{said:?}");
    if let Some(said) = said {
        assert_eq!(rt; line(console, &entry).as_slice(), said.as_bytes(), "{said}");
    }
    assert_eq!(rt; due(console), *acknowledged, "{said:?}");
}

// Each row is the trap as it first arrived.
fn check_rows(rt: &impl Abort, console: &Console) {
    assert_eq!(rt; console.rows().len(), 4);
    for row in console.rows() {
        assert_eq!(rt;
            (row.from, row.specific, row.body.severity),
            (SENDER, 0x04_01_02, 0x10)
        );
    }
}

// The trap with two octets changed, and what is said of it.
const REFUSED: [([(usize, u8); 2], &str); 11] = [
    ([(1, 0x6B), (0, 0x30)], "refused Truncated 108\n"),
    ([(0, 0x31), (1, 0x6A)], "refused Tag 0\n"),
    ([(1, 0x80), (0, 0x30)], "refused Length 1\n"),
    ([(14, 0x5E), (0, 0x30)], "refused Over 13\n"),
    ([(60, 0x2E), (0, 0x30)], "refused Trailing 107\n"),
    ([(3, 0x00), (0, 0x30)], "refused Integer 2\n"),
    ([(4, 0x01), (0, 0x30)], "refused Version 2\n"),
    ([(17, 0x2A), (0, 0x30)], "refused Enterprise 15\n"),
    ([(34, 0x05), (0, 0x30)], "refused Generic 32\n"),
    ([(49, 0x2A), (0, 0x30)], "refused NoBinding 43\n"),
    ([(60, 0x2D), (0, 0x30)], "refused Body 59\n"),
];

#[test]
fn what_is_no_trap_is_refused_with_its_place(rt: HostRuntime) -> Result<(), Fail> {
    let mut console = Console::fresh(rt.alloc(), &SETTINGS)?;
    for (changes, said) in REFUSED {
        let entry = datagram(SENDER, &changed(&changes));
        assert!(rt; go(&mut console, &entry));
        assert_eq!(rt;
            line(&console, &entry).as_slice(),
            said.as_bytes(),
            "{said}"
        );
        assert_eq!(rt; due(&console), None, "{said}");
    }
    assert!(rt; console.rows().is_empty());
    Ok(())
}

// Tails, and what stands of them in a row: a text that can be printed, three that can't, and no tail.
const TAILS: [(&[u8], &str); 6] = [
    (&[0xC1], "c1"),
    (
        &[0xC4, 0x41, 0x20, 0x7E, 0x00, 0xC1],
        "c441207e00c1 text A ~",
    ),
    (&[0xC3, 0x41, 0x7F, 0x00, 0xC1], "c3417f00c1"),
    (&[0xC3, 0x1F, 0x41, 0x00, 0xC1], "c31f4100c1"),
    (&[0xC2, 0x41, 0xC1], "c241c1"),
    (&[], "-"),
];

#[test]
fn a_row_is_a_line_of_the_list(rt: HostRuntime) -> Result<(), Fail> {
    for (tail, said) in TAILS {
        let wanted = format!(in rt.alloc();
            "65536 00112233-4455-6677-8899-aabbccddeeff 1 116387200 10.0.0.2:32768 262402 10 20 30 521020 {said}\n"
        )?;
        let row = row_with_tail(tail).ok_or("no body")?;
        assert_eq!(rt;
            row_line(65_536, &row).as_slice(),
            wanted.as_bytes(),
            "{said}"
        );
    }
    Ok(())
}

/// The row of the trap with this tail.
fn row_with_tail(tail: &[u8]) -> Option<Row> {
    let mut octets = Octets::new();
    octets.extend(&TRAP[BODY..TAIL]);
    octets.extend(tail);
    Some(Row {
        from: SENDER,
        specific: 0x04_01_02,
        body: Body::read(octets.as_slice()).ok()?,
    })
}

#[test]
fn a_line_of_a_capture_is_a_datagram(rt: HostRuntime) {
    let lines = [
        ("datagram 10.0.0.2:32768 30aF", Some(2)),
        ("datagram 10.0.0.3:162 -", Some(0)),
        ("datagram 10.0.0.2:32768", None),
        ("datagram 10.0.0.2:32768 ", None),
        ("datagram 10.0.0.2:65536 30", None),
        ("datagram 10.0.0.2 30", None),
        ("datagram 10.0.0.2:32768 3", None),
        ("datagram 10.0.0.2:32768 30 ", None),
        ("Datagram 10.0.0.2:32768 30", None),
        ("event 10.0.0.2:32768 30", None),
        ("end", None),
        ("", None),
    ];
    for (text, length) in lines {
        let found = match Console::item_of(text.as_bytes()) {
            Some(Item::Datagram { octets, .. }) => Some(octets.as_slice().len()),
            _ => None,
        };
        assert_eq!(rt; found, length, "{text}");
    }
    assert_eq!(rt; Console::word(), b"capture".as_slice());
}

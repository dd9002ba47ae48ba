use pef_settings::*;
use report_line::{SettingsKey, SettingsRefusal};
use script_text::{SettingsFault, SettingsText};
use std::alloc::Global;

const GUID: &str = "guid = \"00112233-4455-6677-8899-aabbccddeeff\"\n";

const AGENT: &str = "agent = \"10.0.0.2\"\n";

// The octets of these two keys with the defaults.
const DEFAULTS: [u8; SETTINGS] = [
    0, 0x11, 0x22, 0x33, 0x44, 0x55, 0x66, 0x77, 0x88, 0x99, 0xaa, 0xbb, 0xcc, 0xdd, 0xee, 0xff, // GUID
    10, 0, 0, 2, // agent address
    0, 0, 0, 0, // manufacturer ID
    0, 0, // system ID
    162, 0, 162, 0, 162, 0, // ports
    1, 63, 0, // PEF control, actions, startup delay
    0, 0, 0, 0, 0, 0, 0, 0, 0, 0, 0, 0, 0, 0, 0, 0, 0, 0, 0, 0, // filter
];

// Every key, in another order than the octets have.
const ALL: &[u8] = b"# A controller's settings.
filter = \"80200010ffff04FF010400000000000000000000\" # upper and lower case
delay = 0x0a
actions = 61
control = 3
oem2_port = 6_630
oem1_port = 0b1
pet_port = 0o12
system = 65534
manufacturer = 99999
agent = '010.0.0.2'
\"guid\" = '{FFEEDDCC-BBAA-9988-7766-554433221100}'
";

const ALL_OCTETS: [u8; SETTINGS] = [
    0xff, 0xee, 0xdd, 0xcc, 0xbb, 0xaa, 0x99, 0x88, 0x77, 0x66, 0x55, 0x44, 0x33, 0x22, 0x11, 0, // GUID
    10, 0, 0, 2, // agent address
    0x9f, 0x86, 1, 0, // manufacturer ID
    0xfe, 0xff, // system ID
    10, 0, 1, 0, 0xe6, 0x19, // ports
    3, 61, 10, // PEF control, actions, startup delay
    0x80, 0x20, 0, 0x10, 0xff, 0xff, 4, 0xff, 1, 4, 0, 0, 0, 0, 0, 0, 0, 0, 0, 0, // filter
];

// Whether a text gives these octets.
fn gives(alloc: Global, text: &[u8], octets: &[u8]) -> bool {
    match ControllerSettings::read(alloc, text) {
        Ok(settings) => settings.as_slice() == octets,
        Err(_) => false,
    }
}

// Whether a text is refused for this reason.
fn refuses(alloc: Global, text: &[u8], why: SettingsRefusal) -> bool {
    match ControllerSettings::read(alloc, text) {
        Ok(_) => false,
        Err(fault) => fault == SettingsFault::Refused(why),
    }
}

#[test]
fn a_document_gives_the_octets(rt: HostRuntime) {
    let alloc = rt.alloc();
    let short = format!(in alloc; "{GUID}{AGENT}").expect(&rt, "memory");
    assert!(rt; gives(alloc, short.as_bytes(), &DEFAULTS));
    assert!(rt; gives(alloc, ALL, &ALL_OCTETS));
}

#[test]
fn each_key_stands_at_its_place(rt: HostRuntime) {
    let alloc = rt.alloc();
    let cases: [(&str, usize, usize, &[u8]); 22] = [
        ("manufacturer = 0", 20, 24, &[0, 0, 0, 0]),
        ("manufacturer = 4294967295", 20, 24, &[255; 4]),
        ("manufacturer = 0x01020304", 20, 24, &[4, 3, 2, 1]),
        ("system = 0", 24, 26, &[0, 0]),
        ("system = 65535", 24, 26, &[255, 255]),
        ("system = 0x0102", 24, 26, &[2, 1]),
        ("pet_port = 0", 26, 28, &[0, 0]),
        ("pet_port = 65535", 26, 28, &[255, 255]),
        ("pet_port = 0x0102", 26, 32, &[2, 1, 162, 0, 162, 0]),
        ("oem1_port = 0", 28, 30, &[0, 0]),
        ("oem1_port = 65535", 28, 30, &[255, 255]),
        ("oem1_port = 0x0102", 26, 32, &[162, 0, 2, 1, 162, 0]),
        ("oem2_port = 0", 30, 32, &[0, 0]),
        ("oem2_port = 65535", 30, 32, &[255, 255]),
        ("oem2_port = 0x0102", 26, 32, &[162, 0, 162, 0, 2, 1]),
        ("control = 0", 32, 35, &[0, 63, 0]),
        ("control = 255", 32, 35, &[255, 63, 0]),
        ("actions = 0", 32, 35, &[1, 0, 0]),
        ("actions = 255", 32, 35, &[1, 255, 0]),
        ("delay = 0", 32, 35, &[1, 63, 0]),
        ("delay = 255", 32, 35, &[1, 63, 255]),
        (
            "filter = \"ffFFffffffffffffffffffffffffffffffffff01\"",
            35,
            55,
            &[
                255, 255, 255, 255, 255, 255, 255, 255, 255, 255, 255, 255, 255, 255, 255, 255,
                255, 255, 255, 1,
            ],
        ),
    ];
    for (line, from, to, octets) in cases {
        let text = format!(in alloc; "{line}\n{GUID}{AGENT}").expect(&rt, "memory");
        match ControllerSettings::read(alloc, text.as_bytes()) {
            Ok(settings) => {
                assert_eq!(rt; settings.as_slice().get(from..to), Some(octets), "{line}");
                assert_eq!(rt; settings.as_slice().len(), SETTINGS, "{line}");
            }
            Err(_) => assert!(rt; false, "{line}"),
        }
    }
}

#[test]
fn each_form_of_a_guid_is_read(rt: HostRuntime) {
    let alloc = rt.alloc();
    let forms = [
        "00112233-4455-6677-8899-aabbccddeeff",
        "00112233-4455-6677-8899-AABBCCDDEEFF",
        "00112233445566778899aabbccddeeff",
        "00112233445566778899AABBCCDDEEFF",
        "{00112233-4455-6677-8899-aabbccddeeff}",
        "urn:uuid:00112233-4455-6677-8899-aabbccddeeff",
        "URN:UUID:00112233-4455-6677-8899-aabbccddeeff",
    ];
    for form in forms {
        let text = format!(in alloc; "guid = \"{form}\"\n{AGENT}").expect(&rt, "memory");
        assert!(rt; gives(alloc, text.as_bytes(), &DEFAULTS), "{form}");
    }
    let others = [
        "",
        "00112233-4455-6677-8899-aabbccddeef",
        "00112233-4455-6677-8899-aabbccddeefff",
        "00112233-4455-6677-8899-aabbccddeefg",
        "0011223344556677-8899-aabbccddeeff",
        "00112233-44556-677-8899-aabbccddeeff",
        "{00112233445566778899aabbccddeeff}",
        "(00112233-4455-6677-8899-aabbccddeeff)",
        "uuid:00112233-4455-6677-8899-aabbccddeeff",
        " 00112233-4455-6677-8899-aabbccddeeff",
    ];
    for other in others {
        let text = format!(in alloc; "guid = \"{other}\"\n{AGENT}").expect(&rt, "memory");
        let why = SettingsRefusal::Key(SettingsKey::Guid);
        assert!(rt; refuses(alloc, text.as_bytes(), why), "{other}");
    }
}

#[test]
fn the_first_key_that_is_wrong_is_named(rt: HostRuntime) {
    let alloc = rt.alloc();
    let cases = [
        (SettingsKey::Manufacturer, "manufacturer = 4294967296"),
        (SettingsKey::Manufacturer, "manufacturer = -1"),
        (SettingsKey::Manufacturer, "manufacturer = 1.0"),
        (SettingsKey::Manufacturer, "manufacturer = \"1\""),
        (SettingsKey::Manufacturer, "manufacturer = true"),
        (SettingsKey::System, "system = 65536"),
        (SettingsKey::System, "system = -1"),
        (SettingsKey::System, "system = 1979-05-27"),
        (SettingsKey::PetPort, "pet_port = 65536"),
        (SettingsKey::PetPort, "pet_port = [162]"),
        (SettingsKey::Oem1Port, "oem1_port = 65536"),
        (SettingsKey::Oem1Port, "oem1_port = { a = 1 }"),
        (SettingsKey::Oem2Port, "oem2_port = 65536"),
        (SettingsKey::Oem2Port, "oem2_port.a = 1"),
        (SettingsKey::Control, "control = 256"),
        (SettingsKey::Control, "control = false"),
        (SettingsKey::Actions, "actions = 256"),
        (SettingsKey::Actions, "actions = 1e1"),
        (SettingsKey::Delay, "delay = 256"),
        (SettingsKey::Delay, "delay = \"\""),
        (
            SettingsKey::Filter,
            "filter = \"80200010ffff04ff0104000000000000000000\"",
        ),
        (
            SettingsKey::Filter,
            "filter = \"80200010ffff04ff01040000000000000000000g\"",
        ),
        (
            SettingsKey::Filter,
            "filter = \"80200010ffff04ff01040000000000000000000000\"",
        ),
        (SettingsKey::Filter, "filter = \"\""),
        (SettingsKey::Filter, "filter = 0"),
        // Of two that are wrong the first in the order of the octets is named, also before an unknown key.
        (SettingsKey::Manufacturer, "system = -1\nmanufacturer = -1"),
        (SettingsKey::PetPort, "oem1_port = -1\npet_port = -1"),
        (SettingsKey::Actions, "x = 1\nfilter = 1\nactions = -1"),
        (SettingsKey::Delay, "x = 1\ndelay = 256"),
    ];
    for (key, lines) in cases {
        let text = format!(in alloc; "{GUID}{AGENT}{lines}\n").expect(&rt, "memory");
        let why = SettingsRefusal::Key(key);
        assert!(rt; refuses(alloc, text.as_bytes(), why), "{lines}");
    }
}

#[test]
fn the_required_keys_are_asked_for(rt: HostRuntime) {
    let alloc = rt.alloc();
    let cases = [
        (SettingsKey::Guid, ""),
        (SettingsKey::Guid, "# nothing\n"),
        (SettingsKey::Guid, "agent = \"10.0.0.2\""),
        (SettingsKey::Guid, "guid = 1\nagent = \"10.0.0.2\""),
        (SettingsKey::Guid, "guid = 1\nagent = 1"),
        (SettingsKey::Guid, "x = 1"),
        // The settings of the first programs: a document as any other.
        (
            SettingsKey::Guid,
            "filter = \"80200010ffff04ff010400000000000000000000\"",
        ),
        // A key in a table of its own isn't the key.
        (
            SettingsKey::Guid,
            "[a]\nguid = \"00112233445566778899aabbccddeeff\"",
        ),
    ];
    for (key, text) in cases {
        let why = SettingsRefusal::Key(key);
        assert!(rt; refuses(alloc, text.as_bytes(), why), "{text}");
    }
    let agents = [
        "",
        "agent = 1",
        "agent = \"\"",
        "agent = \"10.0.0\"",
        "agent = \"10.0.0.2.1\"",
        "agent = \"10.0.0.256\"",
        "agent = \"10.0.0.0002\"",
        "agent = \"10.0.0.2:162\"",
        "agent = \"10.0.0.a\"",
        "agent = [10, 0, 0, 2]",
    ];
    for agent in agents {
        let text = format!(in alloc; "{GUID}{agent}\n").expect(&rt, "memory");
        let why = SettingsRefusal::Key(SettingsKey::Agent);
        assert!(rt; refuses(alloc, text.as_bytes(), why), "{agent}");
    }
}

#[test]
fn another_key_and_another_text_are_refused(rt: HostRuntime) {
    let alloc = rt.alloc();
    for line in [
        "x = 1",
        "Guid = 1",
        "guids = 1",
        "ack_port = 623",
        "[guid_]",
        "\"\" = 1",
    ] {
        let text = format!(in alloc; "{GUID}{AGENT}{line}\n").expect(&rt, "memory");
        assert!(rt;
            refuses(alloc, text.as_bytes(), SettingsRefusal::Unknown),
            "{line}"
        );
    }
    let texts: [&[u8]; 8] = [
        b"x",
        b"guid = ",
        b"guid = 00112233-4455-6677-8899-aabbccddeeff",
        b"guid = 1\nguid = 2",
        b"manufacturer = 9223372036854775808",
        b"manufacturer = 010",
        b"\xff",
        b"# \xff\n",
    ];
    for text in texts {
        assert!(rt; refuses(alloc, text, SettingsRefusal::Text));
    }
}

#[test]
fn a_text_of_65_537_octets_is_too_long(rt: HostRuntime) {
    let alloc = rt.alloc();
    let mut text = Vec::with_capacity(alloc, 65_536).expect(&rt, "memory");
    text.extend_from_slice(ALL).expect(&rt, "memory");
    text.resize(65_536, b'\n').expect(&rt, "memory");
    assert!(rt; gives(alloc, text.as_slice(), &ALL_OCTETS));
    text.push(b'\n').expect(&rt, "memory");
    assert!(rt; refuses(alloc, text.as_slice(), SettingsRefusal::Long));
    text.truncate(65_536);
    text.push(0xff).expect(&rt, "memory");
    assert!(rt; refuses(alloc, text.as_slice(), SettingsRefusal::Long));
}

#[test]
fn a_controllers_file_has_its_kind_and_length(rt: HostRuntime) {
    let kind = ControllerSettings::kind();
    assert_eq!(rt; (kind.number, kind.settings), (1, 55));
}

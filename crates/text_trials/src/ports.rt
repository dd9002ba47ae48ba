use console_settings::*;
use report_line::{SettingsKey, SettingsRefusal};
use script_text::{SettingsFault, SettingsText};

#[test]
fn a_document_gives_the_port(rt: HostRuntime) {
    let good: [(&str, [u8; 2]); 12] = [
        ("", [0x6f, 2]),
        ("\n", [0x6f, 2]),
        ("# the default", [0x6f, 2]),
        ("ack_port = 623", [0x6f, 2]),
        ("ack_port=623\r\n", [0x6f, 2]),
        (" \"ack_port\" = 623 # RMCP\n", [0x6f, 2]),
        ("ack_port = 162\n", [162, 0]),
        ("ack_port = 664", [0x98, 2]),
        ("ack_port = 0", [0, 0]),
        ("ack_port = 0x100", [0, 1]),
        ("ack_port = 255", [255, 0]),
        ("ack_port = 65535", [255, 255]),
    ];
    for (text, octets) in good {
        match ConsoleSettings::read(rt.alloc(), text.as_bytes()) {
            Ok(settings) => assert_eq!(rt; settings.as_slice(), octets.as_slice(), "{text}"),
            Err(_) => assert!(rt; false, "{text}"),
        }
    }
}

#[test]
fn another_value_another_key_and_another_text_are_refused(rt: HostRuntime) {
    let port = SettingsRefusal::Key(SettingsKey::AckPort);
    let bad = [
        ("ack_port = 65536", port),
        ("ack_port = -1", port),
        ("ack_port = 623.0", port),
        ("ack_port = \"623\"", port),
        ("ack_port = true", port),
        ("ack_port = [623]", port),
        ("x = 1\nack_port = 65536", port),
        ("x = 1", SettingsRefusal::Unknown),
        ("Ack_port = 623", SettingsRefusal::Unknown),
        ("ack_port = 623\nport = 623", SettingsRefusal::Unknown),
        ("[a]\nack_port = 623", SettingsRefusal::Unknown),
        (
            "filter = \"80200010ffff04ff010400000000000000000000\"",
            SettingsRefusal::Unknown,
        ),
        ("ack_port = ", SettingsRefusal::Text),
        ("ack_port = 26f", SettingsRefusal::Text),
        ("ack_port = 0623", SettingsRefusal::Text),
        ("ack_port = 9223372036854775808", SettingsRefusal::Text),
        ("ack_port = 623\nack_port = 623\n", SettingsRefusal::Text),
    ];
    for (text, why) in bad {
        match ConsoleSettings::read(rt.alloc(), text.as_bytes()) {
            Ok(_) => assert!(rt; false, "{text}"),
            Err(fault) => assert_eq!(rt; fault, SettingsFault::Refused(why), "{text}"),
        }
    }
}

#[test]
fn a_text_of_65_537_octets_is_too_long(rt: HostRuntime) {
    let mut text = Vec::with_capacity(rt.alloc(), 65_537).expect(&rt, "memory");
    text.resize(65_536, b'\n').expect(&rt, "memory");
    assert!(rt; ConsoleSettings::read(rt.alloc(), text.as_slice()).is_ok());
    text.push(b'\n').expect(&rt, "memory");
    match ConsoleSettings::read(rt.alloc(), text.as_slice()) {
        Ok(_) => assert!(rt; false),
        Err(fault) => assert_eq!(rt; fault, SettingsFault::Refused(SettingsRefusal::Long)),
    }
}

#[test]
fn a_consoles_file_has_its_kind_and_length(rt: HostRuntime) {
    let kind = ConsoleSettings::kind();
    assert_eq!(rt; (kind.number, kind.settings), (2, 2));
}

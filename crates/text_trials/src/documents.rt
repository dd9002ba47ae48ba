use report_line::{SettingsKey, SettingsRefusal};
use script_text::SettingsFault;
use settings_document::*;
use toml::Value;

const TEXT: &[u8] = b"system = 7\nactions = \"7\"\n";

#[test]
fn a_document_has_its_keys(rt: HostRuntime) {
    let Ok(document) = read_document(rt.alloc(), TEXT) else {
        assert!(rt; false);
        return;
    };
    let system = value_at(&document, SettingsKey::System).and_then(Value::as_integer);
    assert_eq!(rt; system, Some(7));
    assert!(rt; value_at(&document, SettingsKey::Delay).is_none());

    let wrong = SettingsRefusal::Key(SettingsKey::System);
    assert_eq!(rt; number_or(&document, SettingsKey::System, 1, 7), Ok(7));
    assert_eq!(rt; number_or(&document, SettingsKey::System, 1, 6), Err(wrong));
    assert_eq!(rt; number_or(&document, SettingsKey::Delay, 1, 6), Ok(1));
    let string = SettingsRefusal::Key(SettingsKey::Actions);
    assert_eq!(rt;
        number_or(&document, SettingsKey::Actions, 1, 7),
        Err(string)
    );

    let keys = [SettingsKey::Actions, SettingsKey::Guid, SettingsKey::System];
    assert!(rt; has_only(&document, &keys));
    assert!(rt; !has_only(&document, &keys[..2]));
}

#[test]
fn another_text_is_no_document(rt: HostRuntime) {
    for (text, why) in [
        (b"system".as_slice(), SettingsRefusal::Text),
        (b"\xff".as_slice(), SettingsRefusal::Text),
        ([b'#'; 65_537].as_slice(), SettingsRefusal::Long),
    ] {
        match read_document(rt.alloc(), text) {
            Ok(_) => assert!(rt; false, "{why:?}"),
            Err(fault) => assert_eq!(rt; fault, SettingsFault::Refused(why)),
        }
    }
}

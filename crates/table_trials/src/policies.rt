//! Worked entries.
use policy_table::*;
use std::test::Fail;

#[test]
fn an_entry_shows_its_fields(rt: HostRuntime) {
    // The octets; number, enabled, policy; channel, destination; string key.
    let rows = [
        ([0x18, 0x11, 0x00], (1, true, 0), (1, 1), 0x00),
        ([0x19, 0x12, 0x82], (1, true, 1), (1, 2), 0x82),
        ([0x1B, 0x21, 0x01], (1, true, 3), (2, 1), 0x01),
        ([0x00, 0x00, 0x00], (0, false, 0), (0, 0), 0x00),
        ([0x17, 0x0F, 0x80], (1, false, 7), (0, 15), 0x80),
        ([0xF0, 0xF0, 0x7F], (15, false, 0), (15, 0), 0x7F),
        ([0xFF, 0xFF, 0xFF], (15, true, 7), (15, 15), 0xFF),
    ];
    for (octets, (number, enabled, policy), (channel, destination), key) in rows {
        let entry = PolicyEntry::read(&octets);
        assert_eq!(rt; entry.number(), number, "{octets:?}");
        assert_eq!(rt; entry.enabled(), enabled, "{octets:?}");
        assert_eq!(rt; entry.policy(), policy, "{octets:?}");
        assert_eq!(rt; entry.channel(), channel, "{octets:?}");
        assert_eq!(rt; entry.destination(), destination, "{octets:?}");
        assert_eq!(rt; entry.key(), key, "{octets:?}");
        assert_eq!(rt; entry.write(), octets);
    }
}

#[test]
fn entries_are_numbered_from_1_to_16(rt: HostRuntime) -> Result<(), Fail> {
    let entry = PolicyEntry::read(&[0x18, 0x11, 0x82]);
    let mut policies = Policies::new();
    for number in [0, 17, 255] {
        assert_eq!(rt; policies.set(number, entry), Err(NoSuch(number)));
        assert_eq!(rt; policies.get(number), Err(NoSuch(number)));
    }
    for set in [1, 7, 16] {
        policies.set(set, entry)?;
        for number in 1..=16 {
            let octets = policies.get(number)?.write();
            let wanted = if number == set {
                [0x18, 0x11, 0x82]
            } else {
                [0; 3]
            };
            assert_eq!(rt; octets, wanted, "{number} after {set}");
        }
        policies.set(set, PolicyEntry::read(&[0; 3]))?;
    }
    Ok(())
}

#[test]
fn a_fault_says_what_is_wrong(rt: HostRuntime) -> Result<(), Fail> {
    let fault = NoSuch(17);
    assert_eq!(rt;
        format!(in rt.alloc(); "{fault}")?.as_str(),
        "there is no policy entry 17"
    );
    Ok(())
}

//! Worked rows: which alerts a record gets.
use board_core::Text;
use event_record::Record;
use lan_dest::{Lan, Ports};
use pef_config::{Config, Initial};
use pef_match::*;
use std::test::Fail;

const PORTS: Ports = Ports {
    pet: 162,
    oem1: 1006,
    oem2: 1007,
};

/// A system event of sensor type 04h with event data 52h, 10h and 20h.
const EVENT: [u8; 16] = [
    0x01, 0x00, 0x02, 0x00, 0xCA, 0x9A, 0x3B, 0x20, 0x00, 0x04, 0x04, 0x30, 0x01, 0x52, 0x10, 0x20,
];

/// Destinations 1 and 2 of channel 1 and destination 1 of channel 2; destination 2 is one of OEM 1, to be acknowledged, with a
/// wait of 3 seconds and 2 retries. Destination 3 of channel 1 has an address, and a type that can't be sent to.
fn destinations() -> Lan {
    let mut lan = Lan::new();
    for (channel, number, last) in [(1, 1, 9), (1, 2, 10), (2, 1, 11), (1, 3, 12)] {
        let address = [number, 0, 0, 10, 0, 0, last, 0, 0, 0, 0, 0, 0];
        lan.set(channel, 19, &address);
    }
    lan.set(1, 18, &[0x02, 0x86, 0x02, 0x02]);
    lan.set(1, 18, &[0x03, 0x01, 0x00, 0x00]);
    lan
}

/// Filters on the event with number, actions, policy number and severity; policy entries with their numbers in front; and two
/// strings, of the keys filter 2 and filter 4 in string set 5.
fn config_with(mask: u8, filters: &[[u8; 4]], entries: &[[u8; 4]]) -> Config {
    let mut config = Config::new(&Initial {
        control: 0x01,
        actions: mask,
        delay: 0,
        filter: [0; 20],
    });
    for filter in filters {
        let [number, actions, policy_number, severity] = *filter;
        let mut octets = [0; 21];
        octets[..12].copy_from_slice(&[
            number,
            0x80,
            actions,
            policy_number,
            severity,
            0xFF,
            0xFF,
            0x04,
            0xFF,
            0x01,
            0x04,
            0x00,
        ]);
        config.set(6, &octets);
    }
    for entry in entries {
        config.set(9, entry);
    }
    config.set(12, &[2, 2, 5]);
    config.set(12, &[3, 4, 5]);
    config.set(13, b"\x02\x01fan");
    config.set(13, b"\x03\x01hot");
    config
}

/// Policy number, entry, policy, channel, the last octet of the address, severity, and the first octet of the text, 0 if there is none.
type Alert = [u8; 7];

fn first_of(text: &Text) -> u8 {
    match text.as_slice() {
        [first, ..] => *first,
        [] => 0,
    }
}

#[test]
fn alerts_go_to_usable_destinations_by_policy_number(rt: HostRuntime) -> Result<(), Fail> {
    let event = Record::read(&EVENT)?;
    let lan = destinations();
    // Parameter 2, filters, policy entries, and the alerts.
    let rows: [(u8, &[[u8; 4]], &[[u8; 4]], &[Alert]); 9] = [
        // the three entries of one set
        (
            0x3D,
            &[[1, 0x01, 1, 0x10]],
            &[[1, 0x18, 0x11, 0], [2, 0x19, 0x12, 0], [3, 0x1B, 0x21, 0]],
            &[
                [1, 1, 0, 1, 9, 0x10, 0],
                [1, 2, 1, 1, 10, 0x10, 0],
                [1, 3, 3, 2, 11, 0x10, 0],
            ],
        ),
        // severity of the greatest, strings by the least
        (
            0x01,
            &[[2, 0x01, 1, 0x04], [4, 0x01, 1, 0x20], [6, 0x01, 1, 0x08]],
            &[
                [5, 0x18, 0x11, 0x85],
                [7, 0x18, 0x11, 0x03],
                [16, 0x18, 0x11, 0x86],
            ],
            &[
                [1, 5, 0, 1, 9, 0x20, b'f'],
                [1, 7, 0, 1, 9, 0x20, b'h'],
                [1, 16, 0, 1, 9, 0x20, 0],
            ],
        ),
        // filters without the alert bit, and of another policy number
        (
            0x3F,
            &[[2, 0x3E, 1, 0x20], [4, 0x01, 1, 0x08], [5, 0x01, 2, 0x20]],
            &[[5, 0x18, 0x11, 0x85]],
            &[[1, 5, 0, 1, 9, 0x08, b'h']],
        ),
        // destinations without an address, of another type, that there aren't, and of another channel
        (
            0x3F,
            &[[1, 0x01, 1, 0x10]],
            &[
                [1, 0x18, 0x14, 0],
                [2, 0x18, 0x13, 0],
                [3, 0x18, 0x15, 0],
                [4, 0x18, 0x31, 0],
                [5, 0x18, 0x12, 0],
            ],
            &[[1, 5, 0, 1, 10, 0x10, 0]],
        ),
        // reserved policies, a disabled entry, and another policy number
        (
            0x3F,
            &[[1, 0x01, 1, 0x10]],
            &[
                [1, 0x1D, 0x11, 0],
                [2, 0x1E, 0x11, 0],
                [3, 0x1F, 0x11, 0],
                [4, 0x10, 0x11, 0],
                [5, 0x28, 0x11, 0],
                [6, 0x1C, 0x21, 0],
            ],
            &[[1, 6, 4, 2, 11, 0x10, 0]],
        ),
        // sets by policy number
        (
            0x3F,
            &[[1, 0x01, 0x0F, 0x10], [2, 0x01, 0xF2, 0x08]],
            &[
                [1, 0xF8, 0x11, 0],
                [2, 0x28, 0x12, 0],
                [3, 0xF8, 0x21, 0],
                [4, 0x28, 0x21, 0],
            ],
            &[
                [2, 2, 0, 1, 10, 0x08, 0],
                [2, 4, 0, 2, 11, 0x08, 0],
                [15, 1, 0, 1, 9, 0x10, 0],
                [15, 3, 0, 2, 11, 0x10, 0],
            ],
        ),
        // policy number 0, and parameter 2 without the alert bit
        (0x3F, &[[1, 0x01, 0, 0x10]], &[[1, 0x08, 0x11, 0]], &[]),
        (0x3E, &[[1, 0x3F, 1, 0x10]], &[[1, 0x18, 0x11, 0]], &[]),
        // no filter
        (0x3F, &[], &[[1, 0x18, 0x11, 0]], &[]),
    ];
    for (mask, filters, entries, alerts) in rows {
        let job = job_of(&config_with(mask, filters, entries), &lan, &PORTS, &event);
        assert_eq!(rt;
            job.targets().len(),
            alerts.len(),
            "{filters:?} {entries:?}"
        );
        for (target, alert) in job.targets().iter().zip(alerts) {
            let found = [
                target.policy_number,
                target.entry,
                target.stop.policy,
                target.stop.channel,
                target.to.to.ip[3],
                target.severity,
                first_of(&target.text),
            ];
            assert_eq!(rt; found, *alert, "{filters:?} {entries:?}");
        }
    }
    Ok(())
}

#[test]
fn an_alert_has_all_of_its_destination(rt: HostRuntime) -> Result<(), Fail> {
    let mut config = config_with(0x01, &[[2, 0x01, 1, 0x10]], &[]);
    for number in 1..=16 {
        config.set(9, &[number, 0x18, 0x12, 0x85]);
    }
    let job = job_of(&config, &destinations(), &PORTS, &Record::read(&EVENT)?);
    assert_eq!(rt; job.targets().len(), 16);
    let last = job.targets().last().ok_or("no alert")?.copy();
    assert_eq!(rt; (last.entry, last.stop.kind, last.to.kind), (16, 6, 6));
    assert_eq!(rt; (last.to.to.ip, last.to.to.port), ([10, 0, 0, 10], 1006));
    assert_eq!(rt;
        (last.to.acknowledged, last.to.wait, last.to.retries),
        (true, 3, 2)
    );
    assert_eq!(rt; last.to.community.as_slice(), b"public".as_slice());
    assert_eq!(rt; last.text.as_slice(), b"fan".as_slice());
    Ok(())
}

#[test]
fn an_alert_at_once_goes_to_a_usable_destination(rt: HostRuntime) -> Result<(), Fail> {
    let config = config_with(0x3F, &[], &[]);
    let lan = destinations();
    // Channel, destination and string; the last octet of the address and the first octet of the text, if there is an alert.
    let rows = [
        (1, 1, None, Some((9, 0))),
        (1, 2, Some(3), Some((10, b'h'))),
        (2, 1, Some(2), Some((11, b'f'))),
        (2, 1, Some(0), Some((11, 0))),
        // a type that can't be sent to, no address, no such destination, no such channel
        (1, 3, None, None),
        (1, 4, None, None),
        (1, 5, None, None),
        (3, 1, None, None),
    ];
    for (channel, number, string, alert) in rows {
        let target = target_at_once(&config, &lan, &PORTS, channel, number, string);
        let got = target
            .as_ref()
            .map(|target| (target.to.to.ip[3], first_of(&target.text)));
        assert_eq!(rt; got, alert, "{channel} {number}");
        if let Some(target) = target {
            let job = Job::at_once(target);
            assert!(rt; job.event().is_none());
            assert_eq!(rt;
                (job.act(), job.oem(), job.targets().len()),
                (None, false, 1)
            );
        }
    }
    Ok(())
}

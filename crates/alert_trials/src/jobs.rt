//! Worked rows: what records ask for.
use board_core::{Act, Text};
use event_record::Record;
use lan_dest::{Lan, Ports};
use pef_config::{Config, Initial};
use pef_match::*;
use std::test::Fail;

const PORTS: Ports = Ports {
    pet: 162,
    oem1: 1006,
    oem2: 1007,
};

/// A system event of sensor type 04h with event data 52h, 10h and 20h.
const EVENT: [u8; 16] = [
    0x01, 0x00, 0x02, 0x00, 0xCA, 0x9A, 0x3B, 0x20, 0x00, 0x04, 0x04, 0x30, 0x01, 0x52, 0x10, 0x20,
];

/// A filter on sensor type 04h and offset 2 with this first octet and these actions, its selector in front.
fn filter_write(selector: u8, flags: u8, actions: u8) -> [u8; 21] {
    [
        selector, flags, actions, 0x01, 0x10, 0xFF, 0xFF, 0x04, 0xFF, 0x01, 0x04, 0x00, 0x00, 0x00,
        0x00, 0x00, 0x00, 0x00, 0x00, 0x00, 0x00,
    ]
}

fn config_with(mask: u8, writes: &[[u8; 21]]) -> Config {
    let mut config = Config::new(&Initial {
        control: 0x01,
        actions: mask,
        delay: 0,
        filter: [0; 20],
    });
    for write in writes {
        config.set(6, write);
    }
    config
}

#[test]
fn one_act_by_priority_and_the_oem_action(rt: HostRuntime) -> Result<(), Fail> {
    let event = Record::read(&EVENT)?;
    // Parameter 2, selector, first octet and actions of two filters, and what is asked for.
    let rows = [
        (
            0x3D,
            (1, 0x80, 0x3F),
            (2, 0x00, 0x00),
            Some(Act::PowerCycle),
            true,
        ),
        (
            0x3F,
            (1, 0x80, 0x3F),
            (2, 0x00, 0x00),
            Some(Act::PowerDown),
            true,
        ),
        (
            0x3F,
            (1, 0x80, 0x20),
            (2, 0x80, 0x08),
            Some(Act::PowerCycle),
            false,
        ),
        (
            0x3F,
            (15, 0x80, 0x04),
            (16, 0x80, 0x20),
            Some(Act::Reset),
            false,
        ),
        (
            0x3F,
            (16, 0x80, 0x02),
            (3, 0x80, 0x0C),
            Some(Act::PowerDown),
            false,
        ),
        (
            0x3F,
            (16, 0x80, 0x20),
            (3, 0x80, 0x10),
            Some(Act::DiagInt),
            true,
        ),
        (0x3F, (1, 0x00, 0x3F), (2, 0x7F, 0x3F), None, false),
        (
            0x3F,
            (1, 0x00, 0x02),
            (2, 0x80, 0x04),
            Some(Act::Reset),
            false,
        ),
        (0x3F, (1, 0x80, 0x01), (2, 0x80, 0xC0), None, false),
        (0x00, (1, 0x80, 0x3F), (2, 0x80, 0x3F), None, false),
        (0x10, (1, 0x80, 0x3F), (2, 0x80, 0x3F), None, true),
        (
            0x33,
            (1, 0x80, 0x0C),
            (2, 0x80, 0x20),
            Some(Act::DiagInt),
            false,
        ),
    ];
    for (mask, first, second, act, oem) in rows {
        let writes = [
            filter_write(first.0, first.1, first.2),
            filter_write(second.0, second.1, second.2),
        ];
        let job = job_of(&config_with(mask, &writes), &Lan::new(), &PORTS, &event);
        assert_eq!(rt;
            (job.act(), job.oem()),
            (act, oem),
            "{mask} {first:?} {second:?}"
        );
        assert!(rt; job.targets().is_empty());
        let event = job.event().expect(&rt, "a record");
        assert_eq!(rt; event.write(), EVENT);
    }
    Ok(())
}

#[test]
fn other_records_ask_for_nothing(rt: HostRuntime) -> Result<(), Fail> {
    let config = config_with(0x3F, &[filter_write(1, 0x80, 0x3F)]);
    // The changed octet, counted from 0: an OEM record, another sensor type, another offset.
    for (place, octet) in [(2, 0xC0), (2, 0xFF), (10, 0x05), (13, 0x53)] {
        let mut octets = EVENT;
        assert!(rt; place < octets.len());
        octets[place] = octet;
        let job = job_of(&config, &Lan::new(), &PORTS, &Record::read(&octets)?);
        assert_eq!(rt; (job.act(), job.oem()), (None, false), "{place} {octet}");
    }
    Ok(())
}

#[test]
fn a_job_has_its_parts(rt: HostRuntime) -> Result<(), Fail> {
    let event = Record::read(&EVENT)?;
    let mut text = Text::new();
    assert!(rt; text.extend(b"fan"));
    let first = Target {
        policy_number: 1,
        entry: 2,
        severity: 0x10,
        text,
        ..Target::default()
    };
    let alerts = [first, Target::default()];
    let job = Job::new(Some(Act::Reset), &alerts, true, &event);
    assert_eq!(rt;
        (job.act(), job.oem(), job.targets().len()),
        (Some(Act::Reset), true, 2)
    );
    let first = job.targets().first().ok_or("no alert")?;
    assert_eq!(rt;
        (first.policy_number, first.entry, first.severity),
        (1, 2, 0x10)
    );
    assert_eq!(rt; first.text.as_slice(), b"fan".as_slice());
    Ok(())
}

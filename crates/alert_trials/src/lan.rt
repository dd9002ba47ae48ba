//! Tables of Set and Get LAN, and of usable destinations.
use lan_dest::*;
use std::process::Abort;

/// Acknowledged, type 000b, a retry each three seconds, two retries.
const KIND: [u8; 4] = [0x01, 0x80, 0x02, 0x02];
/// IPv4, gateway 0, address 10.0.0.9, no MAC address.
const ADDRESS: [u8; 13] = [0x01, 0x00, 0x00, 10, 0, 0, 9, 0, 0, 0, 0, 0, 0];
/// The community string `alerts`.
const COMMUNITY: [u8; 18] = *b"alerts\0\0\0\0\0\0\0\0\0\0\0\0";

const PORTS: Ports = Ports {
    pet: 162,
    oem1: 1_006,
    oem2: 1_007,
};

fn set_up(rt: &impl Abort) -> Lan {
    let mut lan = Lan::new();
    assert_eq!(rt; lan.set(1, 16, &COMMUNITY), 0x00);
    assert_eq!(rt; lan.set(1, 18, &KIND), 0x00);
    assert_eq!(rt; lan.set(1, 19, &ADDRESS), 0x00);
    lan
}

#[test]
fn set_checks_in_order(rt: HostRuntime) {
    let long = [0x41; 19];
    // Channel, parameter, payload, code; where two checks refuse, the first of them answers.
    let rows: [(u8, u8, &[u8], u8); 27] = [
        (0, 18, &KIND, 0xCC),
        (3, 18, &KIND, 0xCC),
        (255, 15, &[], 0xCC),
        (0, 17, &[], 0xCC),
        (1, 15, &KIND, 0x80),
        (1, 20, &KIND, 0x80),
        (2, 0, &[], 0x80),
        (1, 17, &[4], 0x82),
        (1, 17, &[], 0x82),
        (1, 16, &COMMUNITY, 0x00),
        (1, 16, &long, 0xC7),
        (1, 16, &long[..17], 0xC7),
        (1, 16, &[], 0xC7),
        (1, 18, &[], 0xC7),
        (1, 18, &[0x05, 0x80, 0x02], 0xC7),
        (1, 18, &[0x05, 0x80, 0x02, 0x02, 0x00], 0xC7),
        (1, 18, &[0x05, 0x80, 0x02, 0x02], 0xC9),
        (1, 18, &[0x0F, 0x80, 0x02, 0x02], 0xC9),
        (1, 18, &[0x04, 0x80, 0x02, 0x02], 0x00),
        (2, 18, &[0xF4, 0x80, 0x02, 0x02], 0x00),
        (1, 19, &ADDRESS[..12], 0xC7),
        (1, 19, &[0x05, 0x10], 0xC7),
        (1, 19, &[0x05, 0x10, 0, 10, 0, 0, 9, 0, 0, 0, 0, 0, 0], 0xC9),
        (1, 19, &[0x04, 0x10, 0, 10, 0, 0, 9, 0, 0, 0, 0, 0, 0], 0xCC),
        (1, 19, &[0x04, 0xF0, 0, 10, 0, 0, 9, 0, 0, 0, 0, 0, 0], 0xCC),
        (1, 19, &[0x04, 0x0F, 0, 10, 0, 0, 9, 0, 0, 0, 0, 0, 0], 0x00),
        (2, 19, &ADDRESS, 0x00),
    ];
    for (channel, parameter, payload, code) in rows {
        let mut lan = set_up(&rt);
        assert_eq!(rt;
            lan.set(channel, parameter, payload),
            code,
            "{channel} {parameter} {payload:?}"
        );
        if code != 0x00 {
            let kind = lan.get(1, 18, 1, false);
            assert_eq!(rt;
                kind.as_slice(),
                [0x00, 0x11, 0x01, 0x80, 0x02, 0x02].as_slice()
            );
        }
    }
}

#[test]
fn get_checks_in_order(rt: HostRuntime) {
    let lan = set_up(&rt);
    // Channel, parameter, set, revision only, reply.
    let rows: [(u8, u8, u8, bool, &[u8]); 14] = [
        (0, 15, 9, true, &[0xCC]),
        (3, 18, 1, false, &[0xCC]),
        (1, 15, 9, true, &[0x80]),
        (1, 20, 0, false, &[0x80]),
        (1, 18, 9, true, &[0x00, 0x11]),
        (1, 17, 0, true, &[0x00, 0x11]),
        (1, 18, 5, false, &[0xC9]),
        (1, 19, 15, false, &[0xC9]),
        (1, 17, 9, false, &[0x00, 0x11, 0x04]),
        (1, 18, 0x01, false, &[0x00, 0x11, 0x01, 0x80, 0x02, 0x02]),
        (1, 18, 0xF1, false, &[0x00, 0x11, 0x01, 0x80, 0x02, 0x02]),
        (1, 18, 4, false, &[0x00, 0x11, 0x04, 0x00, 0x00, 0x00]),
        (2, 18, 1, false, &[0x00, 0x11, 0x01, 0x00, 0x00, 0x00]),
        (
            1,
            19,
            1,
            false,
            &[0x00, 0x11, 0x01, 0, 0, 10, 0, 0, 9, 0, 0, 0, 0, 0, 0],
        ),
    ];
    for (channel, parameter, set, revision_only, reply) in rows {
        let got = lan.get(channel, parameter, set, revision_only);
        assert_eq!(rt;
            got.as_slice(),
            reply,
            "{channel} {parameter} {set} {revision_only}"
        );
    }
    let community = lan.get(1, 16, 9, false);
    assert_eq!(rt;
        community.as_slice(),
        b"\x00\x11alerts\0\0\0\0\0\0\0\0\0\0\0\0".as_slice()
    );
    let first = lan.get(2, 16, 9, false);
    assert_eq!(rt;
        first.as_slice(),
        b"\x00\x11public\0\0\0\0\0\0\0\0\0\0\0\0".as_slice()
    );
}

#[test]
fn power_clears_destination_0_of_both_channels(rt: HostRuntime) {
    let mut lan = Lan::new();
    for channel in [1, 2] {
        for number in [0, 1, 4] {
            assert_eq!(rt; lan.set(channel, 18, &[number, 0x06, 0x09, 0x03]), 0x00);
            assert_eq!(rt;
                lan.set(channel, 19, &[number, 0, 0, 10, 0, 0, 7, 0, 0, 0, 0, 0, 0]),
                0x00
            );
        }
    }
    lan.power();
    for channel in [1, 2] {
        for number in [0, 1, 4] {
            let is_there = lan.destination(&PORTS, channel, number).is_some();
            assert_eq!(rt; is_there, number != 0, "{channel} {number}");
            let kind = lan.get(channel, 18, number, false);
            let wanted = if number == 0 {
                [0, 0, 0]
            } else {
                [0x06, 0x09, 0x03]
            };
            assert_eq!(rt; kind.as_slice().get(3..), Some(wanted.as_slice()));
        }
    }
}

#[test]
fn a_destination_is_usable_by_channel_number_type_and_address(rt: HostRuntime) {
    // Channel, number, the octet of the type, the last octet of the address 0.0.0.x, and the port where it is usable.
    let rows = [
        (1, 1, 0x80, 9, Some(162)),
        (1, 4, 0x00, 1, Some(162)),
        (2, 0, 0x06, 9, Some(1_006)),
        (2, 3, 0x8F, 9, Some(1_007)),
        (1, 1, 0x01, 9, None),
        (1, 1, 0x05, 9, None),
        (1, 1, 0x80, 0, None),
        (2, 2, 0x06, 0, None),
    ];
    for (channel, number, kind, last, port) in rows {
        let mut lan = Lan::new();
        assert_eq!(rt; lan.set(channel, 18, &[number, kind, 0xFF, 0xFF]), 0x00);
        assert_eq!(rt;
            lan.set(
                channel,
                19,
                &[number, 0, 9, 0, 0, 0, last, 9, 9, 9, 9, 9, 9]
            ),
            0x00
        );
        let to = lan.destination(&PORTS, channel, number);
        let got = to.as_ref().map(|to| to.to.port);
        assert_eq!(rt; got, port, "{channel} {number} {kind} {last}");
        if let Some(to) = to {
            assert_eq!(rt; to.to.ip, [0, 0, 0, last]);
            assert_eq!(rt; (to.wait, to.retries), (256, 7));
            assert_eq!(rt; (to.acknowledged, to.kind), (kind / 128 == 1, kind % 8));
            assert_eq!(rt; to.community.as_slice(), b"public".as_slice());
        }
    }
    let lan = set_up(&rt);
    for (channel, number) in [(0, 1), (3, 1), (1, 5), (1, 255), (255, 255), (1, 0)] {
        assert!(rt;
            lan.destination(&PORTS, channel, number).is_none(),
            "{channel} {number}"
        );
    }
    // The worked destination: acknowledged, three ticks between transmissions, two retries.
    let worked = lan.destination(&PORTS, 1, 1);
    assert_eq!(rt;
        worked
            .as_ref()
            .map(|to| (to.acknowledged, to.wait, to.retries)),
        Some((true, 3, 2))
    );
    let mut lan = set_up(&rt);
    assert_eq!(rt; lan.set(1, 16, &[0x41; 18]), 0x00);
    let whole = lan.destination(&PORTS, 1, 1);
    assert_eq!(rt;
        whole.as_ref().map(|to| to.community.as_slice().len()),
        Some(18)
    );
}

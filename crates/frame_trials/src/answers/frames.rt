//! LAN messages, and frames that have no effect.
use super::*;

/// No change: no octet stands at this place.
const NONE: (usize, u8) = (99, 0x00);

/// A message with these octets and this payload.
fn frame(to: u8, netfn_lun: u8, cmd: u8, payload: &[u8]) -> Octets {
    let mut held = Bytes::new();
    held.extend(payload);
    lan_write(&LanMessage {
        to,
        netfn_lun,
        sender: 0x8F,
        seq_lun: 0xFD,
        cmd,
        payload: held,
    })
}

/// The octets with a change and `more` octets behind them.
fn changed(octets: &[u8], change: (usize, u8), more: usize) -> Octets {
    let mut out = Octets::new();
    for (place, octet) in octets.iter().enumerate() {
        out.push(if place == change.0 { change.1 } else { *octet });
    }
    for _ in 0..more {
        out.push(0x00);
    }
    out
}

#[test]
fn a_payload_of_another_length_is_refused(rt: HostRuntime) {
    // How many octets the payload has, the completion code and the checksum behind it.
    let cases = [
        (0, 0xC7, 0x05),
        (11, 0xC7, 0x05),
        (12, 0x00, 0xCC),
        (13, 0xC7, 0x05),
        (64, 0xC7, 0x05),
    ];
    let payload = [0x00; 64];
    for (length, code, checksum) in cases {
        let mut wanted = ANSWER;
        wanted[14] = 0x8F;
        wanted[16] = 0x5D;
        wanted[18] = 0xFD;
        wanted[20] = code;
        wanted[21] = checksum;
        let octets = frame(0x20, 0x10, 0x17, &payload[..length]);
        let answer = answered(FROM, octets.as_slice());
        assert_eq!(rt; answer.kind, FrameKind::Command);
        assert_eq!(rt; answer.ack.is_some(), code == 0x00);
        assert!(rt; are_sent(answer.replies, &[wanted.as_slice()]));
    }
}

#[test]
fn another_message_has_no_effect(rt: HostRuntime) {
    // The address, the network function with the logical unit, and the command.
    let cases = [
        (0x21, 0x10, 0x17),
        (0x81, 0x10, 0x17),
        (0x20, 0x11, 0x17),
        (0x20, 0x14, 0x17),
        (0x20, 0x04, 0x17),
        (0x20, 0x10, 0x16),
        (0x20, 0x10, 0x97),
    ];
    for (to, netfn_lun, cmd) in cases {
        let octets = frame(to, netfn_lun, cmd, &[0x00; 12]);
        assert!(rt; lan_read(octets.as_slice()).is_ok());
        assert!(rt; is_nothing(octets.as_slice()));
    }
    for octets in [PONG.as_slice(), ACK.as_slice(), ANSWER.as_slice()] {
        assert!(rt; is_nothing(octets));
        assert_eq!(rt; kind_of(octets), FrameKind::Nothing);
    }
}

#[test]
fn a_bad_message_has_no_effect(rt: HostRuntime) {
    let first = FrameWhy::Checksum {
        want: 0xD0,
        have: 0xD1,
    };
    let last = FrameWhy::Checksum {
        want: 0x0F,
        have: 0x10,
    };
    let cases = [
        ((13, 0x14), 0, FrameWhy::Short),
        ((0, 0x05), 0, FrameWhy::Version),
        ((3, 0x87), 0, FrameWhy::Class),
        ((4, 0x01), 0, FrameWhy::Auth),
        ((12, 0x01), 0, FrameWhy::Session),
        ((13, 0x06), 0, FrameWhy::Length),
        (NONE, 2, FrameWhy::Trailing),
        ((16, 0xD1), 0, first),
        ((32, 0x10), 1, last),
    ];
    for (change, more, why) in cases {
        let octets = changed(&REQUEST, change, more);
        let fault = lan_read(octets.as_slice()).err();
        assert_eq!(rt; fault.map(|fault| fault.why), Some(why));
        assert!(rt; is_nothing(octets.as_slice()));
    }
}

#[test]
fn a_bad_ping_has_no_effect(rt: HostRuntime) {
    let cases = [
        ((8, 0x40), 0, FrameWhy::Length),
        ((0, 0x07), 0, FrameWhy::Version),
        ((3, 0x08), 0, FrameWhy::Class),
        ((3, 0x86), 0, FrameWhy::Trailing),
        ((7, 0xBF), 0, FrameWhy::Enterprise),
        ((8, 0x81), 0, FrameWhy::Kind),
        ((11, 0x01), 0, FrameWhy::Length),
        (NONE, 1, FrameWhy::Trailing),
    ];
    for (change, more, why) in cases {
        let octets = changed(&PING, change, more);
        let fault = Packet::read(octets.as_slice()).err();
        assert_eq!(rt; fault.map(|fault| fault.why), Some(why));
        assert!(rt; is_nothing(octets.as_slice()));
    }
    for length in 0..12 {
        assert!(rt; is_nothing(&PING[..length]));
    }
}

use super::*;
use board_core::Octets;

/// No change: no octet stands at this place.
const NONE: (usize, u8) = (99, 0x00);

/// The octets with two changes and `more` octets behind them.
fn changed(octets: &[u8], first: (usize, u8), second: (usize, u8), more: usize) -> Octets {
    let mut out = Octets::new();
    for (place, octet) in octets.iter().enumerate() {
        let octet = if place == first.0 { first.1 } else { *octet };
        out.push(if place == second.0 { second.1 } else { octet });
    }
    for _ in 0..more {
        out.push(0x00);
    }
    out
}

#[test]
fn refuses_a_message_at_its_place(rt: HostRuntime) {
    let checksum = FrameWhy::Checksum {
        want: 0xD0,
        have: 0xD1,
    };
    let last = FrameWhy::Checksum {
        want: 0x0F,
        have: 0x10,
    };
    let cases = [
        ((0, 0x05), NONE, 0, FrameWhy::Version, 0),
        ((0, 0x05), (3, 0x08), 0, FrameWhy::Version, 0),
        ((3, 0x08), NONE, 0, FrameWhy::Class, 3),
        ((3, 0x06), NONE, 0, FrameWhy::Class, 3),
        ((3, 0x87), NONE, 0, FrameWhy::Class, 3),
        ((3, 0x86), (4, 0x01), 0, FrameWhy::Class, 3),
        ((4, 0x01), NONE, 0, FrameWhy::Auth, 4),
        ((4, 0x01), (5, 0x01), 0, FrameWhy::Auth, 4),
        ((5, 0x01), NONE, 0, FrameWhy::Session, 5),
        ((12, 0x01), NONE, 0, FrameWhy::Session, 5),
        ((12, 0x80), (13, 0x06), 0, FrameWhy::Session, 5),
        ((13, 0x06), NONE, 0, FrameWhy::Length, 13),
        ((13, 0x48), NONE, 0, FrameWhy::Length, 13),
        ((13, 0x06), NONE, 2, FrameWhy::Length, 13),
        ((13, 0x14), NONE, 0, FrameWhy::Short, 33),
        ((13, 0x14), (16, 0xD1), 0, FrameWhy::Short, 33),
        ((13, 0x11), NONE, 0, FrameWhy::Trailing, 32),
        (NONE, NONE, 2, FrameWhy::Trailing, 34),
        ((16, 0xD1), NONE, 2, FrameWhy::Trailing, 34),
        ((16, 0xD1), NONE, 0, checksum, 16),
        ((16, 0xD1), (32, 0x10), 1, checksum, 16),
        ((32, 0x10), NONE, 1, last, 32),
    ];
    for (first, second, more, why, at) in cases {
        let octets = changed(&REQUEST, first, second, more);
        let fault = lan_read(octets.as_slice()).err();
        assert_eq!(rt; fault, Some(FrameFault { at, why }));
    }
    let padded = changed(&REQUEST, NONE, NONE, 1);
    assert!(rt; lan_read(padded.as_slice()).is_ok());
    // The header's reserved octet and its sequence number aren't looked at.
    let other = changed(&REQUEST, (1, 0xFF), (2, 0x05), 0);
    assert!(rt; lan_read(other.as_slice()).is_ok());
}

#[test]
fn refuses_a_frame_at_its_place(rt: HostRuntime) {
    let cases = [
        ((0, 0x07), NONE, 0, FrameWhy::Version, 0),
        ((3, 0x05), NONE, 0, FrameWhy::Class, 3),
        ((3, 0x88), (4, 0x01), 0, FrameWhy::Class, 3),
        ((3, 0x86), NONE, 0, FrameWhy::Trailing, 4),
        ((3, 0x87), (4, 0x01), 0, FrameWhy::Trailing, 4),
        ((4, 0x01), NONE, 0, FrameWhy::Enterprise, 4),
        ((7, 0xBF), NONE, 0, FrameWhy::Enterprise, 4),
        ((7, 0xBF), (8, 0x81), 0, FrameWhy::Enterprise, 4),
        ((8, 0x81), NONE, 0, FrameWhy::Kind, 8),
        ((8, 0xC0), (11, 0x01), 0, FrameWhy::Kind, 8),
        ((11, 0x0F), NONE, 0, FrameWhy::Length, 11),
        ((11, 0x0F), NONE, 1, FrameWhy::Length, 11),
        ((8, 0x80), NONE, 0, FrameWhy::Length, 11),
        ((8, 0x80), (11, 0x00), 0, FrameWhy::Trailing, 12),
        (NONE, NONE, 1, FrameWhy::Trailing, 28),
        (NONE, NONE, 2, FrameWhy::Trailing, 28),
    ];
    for (first, second, more, why, at) in cases {
        let octets = changed(&PONG, first, second, more);
        let fault = Packet::read(octets.as_slice()).err();
        assert_eq!(rt; fault, Some(FrameFault { at, why }));
    }
    // Reserved octets and a pong's other data aren't looked at.
    for place in [1, 10, 12, 19, 21, 27] {
        let octets = changed(&PONG, (place, 0x5A), NONE, 0);
        assert_eq!(rt; Packet::read(octets.as_slice()), Ok(pong(0)));
    }
}

#[test]
fn a_fault_says_what_is_wrong_and_where(rt: HostRuntime) -> Result<(), Fail> {
    let why = FrameWhy::Checksum {
        want: 0xD0,
        have: 0xD1,
    };
    let text = format!(in rt.alloc(); "{}", FrameFault { at: 16, why })?;
    assert_eq!(rt;
        text.as_str(),
        "checksum d1h where d0h is wanted at octet 16"
    );
    Ok(())
}

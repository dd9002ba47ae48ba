use asf_rmcp::{FrameWhy, LanMessage, Packet, lan_read, lan_write};
use board_core::{Address, Bytes, Octets, Step};
use frame_answers::*;
use pet_body::PetAck;

mod frames;

/// Where the frames come from.
const FROM: Address = Address {
    ip: [10, 0, 0, 9],
    port: 0x9C40,
};

/// A presence ping with tag 07h that wants an acknowledgement.
const PING: [u8; 12] = [
    0x06, 0x00, 0x05, 0x06, 0x00, 0x00, 0x11, 0xBE, 0x80, 0x07, 0x00, 0x00,
];

/// The acknowledgement of that ping.
const ACK: [u8; 4] = [0x06, 0x00, 0x05, 0x86];

/// The pong of that ping.
const PONG: [u8; 28] = [
    0x06, 0x00, 0xFF, 0x06, 0x00, 0x00, 0x11, 0xBE, 0x40, 0x07, 0x00, 0x10, 0x00, 0x00, 0x11, 0xBE,
    0x00, 0x00, 0x00, 0x00, 0x81, 0x00, 0x00, 0x00, 0x00, 0x00, 0x00, 0x00,
];

/// The request PET Acknowledge for the trap of a fan.
const REQUEST: [u8; 33] = [
    0x06, 0x00, 0xFF, 0x07, 0x00, 0x00, 0x00, 0x00, 0x00, 0x00, 0x00, 0x00, 0x00, 0x13, 0x20, 0x10,
    0xD0, 0x81, 0x04, 0x17, 0x01, 0x00, 0x80, 0xED, 0xEF, 0x06, 0x20, 0x20, 0x30, 0x52, 0x10, 0x20,
    0x0F,
];

/// The answer to that request.
const ANSWER: [u8; 22] = [
    0x06, 0x00, 0xFF, 0x07, 0x00, 0x00, 0x00, 0x00, 0x00, 0x00, 0x00, 0x00, 0x00, 0x08, 0x81, 0x14,
    0x6B, 0x20, 0x04, 0x17, 0x00, 0xC5,
];

/// The trap of a fan.
const TRAP: PetAck = PetAck {
    sequence: 1,
    timestamp: 116_387_200,
    event_source: 0x20,
    device: 0x20,
    sensor: 0x30,
    event_data: [0x52, 0x10, 0x20],
};

/// Whether these are the replies, in this order, and all of them go to the sender.
fn are_sent(mut replies: Replies, wanted: &[&[u8]]) -> bool {
    for octets in wanted {
        if !is_sent(replies.first(), octets) {
            return false;
        }
        replies.drop_first();
    }
    replies.is_empty() && replies.first().is_none()
}

/// Whether this step sends these octets to the sender.
fn is_sent(step: Option<Step>, wanted: &[u8]) -> bool {
    match step {
        Some(Step::Datagram { to, octets }) => to == FROM && octets.as_slice() == wanted,
        _ => false,
    }
}

/// Whether octets have no effect.
fn is_nothing(octets: &[u8]) -> bool {
    let answer = answered(FROM, octets);
    answer.kind == FrameKind::Nothing && answer.replies.is_empty() && answer.ack.is_none()
}

#[test]
fn a_ping_has_its_pong(rt: HostRuntime) {
    // A sequence number, and whether it is acknowledged.
    for (sequence, acknowledged) in [(0x05, true), (0xFE, true), (0x00, true), (0xFF, false)] {
        let mut ping = PING;
        ping[2] = sequence;
        let mut ack = ACK;
        ack[2] = sequence;
        let answer = answered(FROM, &ping);
        assert_eq!(rt; answer.kind, FrameKind::Ping);
        assert_eq!(rt; kind_of(&ping), FrameKind::Ping);
        assert!(rt; answer.ack.is_none());
        if acknowledged {
            assert!(rt; are_sent(answer.replies, &[ack.as_slice(), PONG.as_slice()]));
        } else {
            assert!(rt; are_sent(answer.replies, &[PONG.as_slice()]));
        }
    }
    // The tag of the ping.
    for tag in [0x00, 0xFF] {
        let mut ping = PING;
        ping[2] = 0xFF;
        ping[9] = tag;
        let mut pong = PONG;
        pong[9] = tag;
        assert!(rt; are_sent(answered(FROM, &ping).replies, &[pong.as_slice()]));
    }
}

#[test]
fn a_request_is_answered_and_carried_out(rt: HostRuntime) {
    let mut padded = Octets::new();
    padded.extend(&REQUEST);
    padded.push(0xA5);
    // A sequence number of the frame isn't acknowledged.
    let mut numbered = REQUEST;
    numbered[2] = 0x05;
    for octets in [REQUEST.as_slice(), padded.as_slice(), numbered.as_slice()] {
        let answer = answered(FROM, octets);
        assert_eq!(rt; answer.kind, FrameKind::Command);
        assert_eq!(rt; kind_of(octets), FrameKind::Command);
        assert_eq!(rt; answer.ack, Some(TRAP));
        assert!(rt; are_sent(answer.replies, &[ANSWER.as_slice()]));
    }
}

#[test]
fn no_replies_are_empty(rt: HostRuntime) {
    let mut replies = Replies::new();
    replies.is_short();
    few_replies();
    by_layout();
    assert!(rt; replies.is_empty());
    assert!(rt; replies.first().is_none());
    replies.drop_first();
    assert!(rt; replies.is_empty());
}

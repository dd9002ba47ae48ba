use asf_rmcp::*;
use board_core::Bytes;
use pet_body::PetAck;
use std::test::Fail;

mod refusing;
mod slow;

/// A presence ping.
pub const PING: [u8; 12] = [
    0x06, 0x00, 0xFF, 0x06, 0x00, 0x00, 0x11, 0xBE, 0x80, 0x00, 0x00, 0x00,
];

/// Its pong.
pub const PONG: [u8; 28] = [
    0x06, 0x00, 0xFF, 0x06, 0x00, 0x00, 0x11, 0xBE, 0x40, 0x00, 0x00, 0x10, 0x00, 0x00, 0x11, 0xBE,
    0x00, 0x00, 0x00, 0x00, 0x81, 0x00, 0x00, 0x00, 0x00, 0x00, 0x00, 0x00,
];

/// A ping with tag 07h that wants an acknowledgement.
pub const TAGGED_PING: [u8; 12] = [
    0x06, 0x00, 0x05, 0x06, 0x00, 0x00, 0x11, 0xBE, 0x80, 0x07, 0x00, 0x00,
];

/// The acknowledgement of that ping.
pub const ACK: [u8; 4] = [0x06, 0x00, 0x05, 0x86];

/// The pong of that ping.
pub const TAGGED_PONG: [u8; 28] = [
    0x06, 0x00, 0xFF, 0x06, 0x00, 0x00, 0x11, 0xBE, 0x40, 0x07, 0x00, 0x10, 0x00, 0x00, 0x11, 0xBE,
    0x00, 0x00, 0x00, 0x00, 0x81, 0x00, 0x00, 0x00, 0x00, 0x00, 0x00, 0x00,
];

/// The request PET Acknowledge for the trap of a fan.
pub const REQUEST: [u8; 33] = [
    0x06, 0x00, 0xFF, 0x07, 0x00, 0x00, 0x00, 0x00, 0x00, 0x00, 0x00, 0x00, 0x00, 0x13, 0x20, 0x10,
    0xD0, 0x81, 0x04, 0x17, 0x01, 0x00, 0x80, 0xED, 0xEF, 0x06, 0x20, 0x20, 0x30, 0x52, 0x10, 0x20,
    0x0F,
];

/// The answer to that request.
pub const ANSWER: [u8; 22] = [
    0x06, 0x00, 0xFF, 0x07, 0x00, 0x00, 0x00, 0x00, 0x00, 0x00, 0x00, 0x00, 0x00, 0x08, 0x81, 0x14,
    0x6B, 0x20, 0x04, 0x17, 0x00, 0xC5,
];

/// A message's octets before its payload, without the checksum.
pub fn head(message: &LanMessage) -> [u8; 5] {
    [
        message.to,
        message.netfn_lun,
        message.sender,
        message.seq_lun,
        message.cmd,
    ]
}

/// A message with these octets and this payload, of which the first 64 octets count.
fn message(head: [u8; 5], payload: &[u8]) -> LanMessage {
    let [to, netfn_lun, sender, seq_lun, cmd] = head;
    let mut held = Bytes::new();
    held.extend(payload);
    LanMessage {
        to,
        netfn_lun,
        sender,
        seq_lun,
        cmd,
        payload: held,
    }
}

#[test]
fn reads_and_writes_the_frames(rt: HostRuntime) {
    let ping = Packet::Ping {
        sequence: 0xFF,
        tag: 0,
    };
    let tagged_ping = Packet::Ping {
        sequence: 5,
        tag: 7,
    };
    let cases = [
        (ping, PING.as_slice()),
        (pong(0), PONG.as_slice()),
        (tagged_ping, TAGGED_PING.as_slice()),
        (ack_of(5, 6), ACK.as_slice()),
        (pong(7), TAGGED_PONG.as_slice()),
    ];
    for (packet, octets) in cases {
        assert_eq!(rt; Packet::read(octets), Ok(packet));
    }
    assert_eq!(rt; ping.write().as_slice(), PING.as_slice());
    assert_eq!(rt; pong(0).write().as_slice(), PONG.as_slice());
    assert_eq!(rt; tagged_ping.write().as_slice(), TAGGED_PING.as_slice());
    assert_eq!(rt; ack_of(5, 6).write().as_slice(), ACK.as_slice());
    assert_eq!(rt; pong(7).write().as_slice(), TAGGED_PONG.as_slice());
    let ipmi_ack = [0x06, 0x00, 0x09, 0x87];
    assert_eq!(rt; ack_of(9, 7).write().as_slice(), ipmi_ack.as_slice());
    assert_eq!(rt; Packet::read(&ipmi_ack), Ok(ack_of(9, 7)));
    let ipmi = Ok(Packet::Ipmi { sequence: 0xFF });
    for octets in [REQUEST.as_slice(), ANSWER.as_slice(), &REQUEST[..4]] {
        assert_eq!(rt; Packet::read(octets), ipmi);
    }
}

#[test]
fn reads_and_writes_the_messages(rt: HostRuntime) -> Result<(), Fail> {
    let request = lan_read(&REQUEST)?;
    assert_eq!(rt; head(&request), [0x20, 0x10, 0x81, 0x04, 0x17]);
    assert_eq!(rt; request.payload.as_slice(), &REQUEST[20..32]);
    assert_eq!(rt; lan_write(&request).as_slice(), REQUEST.as_slice());
    let answer = lan_read(&ANSWER)?;
    assert_eq!(rt; head(&answer), [0x81, 0x14, 0x20, 0x04, 0x17]);
    assert_eq!(rt; answer.payload.as_slice(), [0x00].as_slice());
    assert_eq!(rt; lan_write(&answer).as_slice(), ANSWER.as_slice());
    // The shortest and the longest payload, and one octet behind the message.
    for payload in [[].as_slice(), [0xFF; 64].as_slice()] {
        let mut octets = lan_write(&message([0xFF, 0x01, 0xFE, 0x02, 0x80], payload));
        for _ in 0..2 {
            let again = lan_read(octets.as_slice())?;
            assert_eq!(rt; head(&again), [0xFF, 0x01, 0xFE, 0x02, 0x80]);
            assert_eq!(rt; again.payload.as_slice(), payload);
            octets.push(0xA5);
        }
    }
    Ok(())
}

#[test]
fn acknowledges_a_trap(rt: HostRuntime) {
    // A trap's sequence number, the message's, the first octets of the payload and the last checksum.
    let cases = [
        (1, 0x04, [0x01, 0x00], 0x0F),
        (63, 0xFC, [0x3F, 0x00], 0xD9),
        (64, 0x00, [0x40, 0x00], 0xD4),
        (65, 0x04, [0x41, 0x00], 0xCF),
        (0x1234, 0xD0, [0x34, 0x12], 0xFE),
        (0xffff, 0xFC, [0xFF, 0xFF], 0x1A),
    ];
    for (sequence, seq_lun, [low, high], checksum) in cases {
        let frame = ack_frame(&PetAck {
            sequence,
            timestamp: 116_387_200,
            event_source: 0x20,
            device: 0x20,
            sensor: 0x30,
            event_data: [0x52, 0x10, 0x20],
        });
        let mut wanted = REQUEST;
        wanted[18] = seq_lun;
        wanted[20] = low;
        wanted[21] = high;
        wanted[32] = checksum;
        assert_eq!(rt; frame.as_slice(), wanted.as_slice());
    }
}

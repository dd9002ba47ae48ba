ghost use Rattle.std.specs.Prelude.{◌≡◌, Ok};

use board_core::Text;
use event_record::Record;
use pet_body::*;
use std::test::Fail;

/// A fan's event, at 1000000000 seconds since 1970-01-01.
const FAN: [u8; 16] = [
    0x01, 0x00, 0x02, 0x00, 0xCA, 0x9A, 0x3B, 0x20, 0x00, 0x04, 0x04, 0x30, 0x01, 0x52, 0x10, 0x20,
];

const IDENTITY: Identity = Identity {
    guid: [
        0x00, 0x11, 0x22, 0x33, 0x44, 0x55, 0x66, 0x77, 0x88, 0x99, 0xAA, 0xBB, 0xCC, 0xDD, 0xEE,
        0xFF,
    ],
    manufacturer: 99_999,
    system: 1,
};

/// The body of the fan's event: sequence number 1, severity critical, no text.
const FAN_BODY: [u8; 47] = [
    0x00, 0x11, 0x22, 0x33, 0x44, 0x55, 0x66, 0x77, 0x88, 0x99, 0xAA, 0xBB, 0xCC, 0xDD, 0xEE, 0xFF,
    0x00, 0x01, 0x06, 0xEF, 0xED, 0x80, 0xFF, 0xFF, 0x20, 0x20, 0x10, 0x20, 0x30, 0x00, 0x00, 0x52,
    0x10, 0x20, 0x00, 0x00, 0x00, 0x00, 0x00, 0xFF, 0x00, 0x01, 0x86, 0x9F, 0x00, 0x01, 0xC1,
];

/// What is written is read back.
fn again(body: &Body) -> Result<Body, BodyFault>
    ensures { result ≡ Ok body.now }
{
    Body::read(body.write().as_slice())
}

fn text_of(octets: &[u8]) -> Text {
    let mut text = Text::new();
    text.extend(octets);
    text
}

#[test]
fn the_body_of_an_event(rt: HostRuntime) -> Result<(), Fail> {
    let fan = Record::read(&FAN)?;
    let body = body_of(Some(&fan), &IDENTITY, 1, 0x10, &Text::new());
    assert_eq!(rt; body.write().as_slice(), FAN_BODY.as_slice());
    assert_eq!(rt; again(&body)?.write().as_slice(), FAN_BODY.as_slice());
    assert_eq!(rt; Body::read(&FAN_BODY)?.timestamp, 116_387_200);
    let ack = PetAck {
        sequence: 1,
        timestamp: 116_387_200,
        event_source: 0x20,
        device: 0x20,
        sensor: 0x30,
        event_data: [0x52, 0x10, 0x20],
    };
    assert_eq!(rt; pet_ack_of(&body), ack);
    Ok(())
}

#[test]
fn the_body_without_a_record(rt: HostRuntime) {
    let body = body_of(None, &IDENTITY, 0xFFFF, 0x00, &text_of(b"A"));
    assert_eq!(rt; (body.sequence, body.timestamp), (0xFFFF, 0));
    assert_eq!(rt; (body.device, body.sensor), (0x20, 0x00));
    assert_eq!(rt; body.event_data, [0; 8]);
    assert_eq!(rt; body.tail.as_slice(), [0xC2, 0x41, 0x00, 0xC1].as_slice());
}

#[test]
fn local_timestamps(rt: HostRuntime) -> Result<(), Fail> {
    let times = [
        (0x02, 883_612_799u32, 0),
        (0x02, 883_612_800, 0),
        (0x02, 883_612_801, 1),
        (0x02, 0xFFFF_FFFF, 0),
        (0x02, 0xFFFF_FFFE, 3_411_354_494),
        (0x02, 1_000_000_000, 116_387_200),
        (0xDF, 1_000_000_000, 116_387_200),
        (0xE0, 1_000_000_000, 0),
    ];
    for (kind, seconds, timestamp) in times {
        let [first, second, third, fourth] = seconds.to_le_bytes();
        let mut octets = FAN;
        octets[2] = kind;
        octets[3] = first;
        octets[4] = second;
        octets[5] = third;
        octets[6] = fourth;
        let body = body_of(
            Some(&Record::read(&octets)?),
            &IDENTITY,
            1,
            0x10,
            &Text::new(),
        );
        assert_eq!(rt; body.timestamp, timestamp);
    }
    Ok(())
}

#[test]
fn specific_numbers(rt: HostRuntime) -> Result<(), Fail> {
    let numbers = [
        (0x04, 0x01, 0x52, 262_402),
        (0x04, 0x81, 0x52, 262_530),
        (0xC0, 0x6F, 0x01, 0x00C0_6F01),
    ];
    for (sensor_type, trigger, data, specific) in numbers {
        let mut octets = FAN;
        octets[10] = sensor_type;
        octets[12] = trigger;
        octets[13] = data;
        assert_eq!(rt; specific_of(Some(&Record::read(&octets)?)), specific);
    }
    assert_eq!(rt; specific_of(None), 0);
    Ok(())
}

#[test]
fn a_text_stands_in_the_tail(rt: HostRuntime) -> Result<(), Fail> {
    let longest = text_of(&[0x7A; 61]);
    let tail = tail_of(&longest);
    assert_eq!(rt; tail.as_slice().len(), 64);
    assert_eq!(rt; tail.as_slice().first(), Some(&0xFE));
    assert_eq!(rt;
        tail_text(tail.as_slice()).as_slice(),
        [0x7A; 61].as_slice()
    );
    let fan = Record::read(&FAN)?;
    let body = body_of(Some(&fan), &IDENTITY, 1, 0x10, &longest);
    assert_eq!(rt; body.write().as_slice().len(), 110);
    assert_eq!(rt; tail_of(&Text::new()).as_slice(), [0xC1].as_slice());
    let without_text: [&[u8]; 6] = [
        &[],
        &[0xC1],
        &[0xC2, 0x41],
        &[0xC2, 0x41, 0x01],
        &[0xFF, 0x41, 0x00],
        &[0x02, 0x41, 0x00],
    ];
    for tail in without_text {
        assert!(rt; tail_text(tail).as_slice().is_empty());
    }
    Ok(())
}

#[test]
fn a_body_has_46_to_110_octets(rt: HostRuntime) -> Result<(), Fail> {
    let octets = [0x2A; 111];
    assert_eq!(rt; Body::read(&octets[..45]).err(), Some(BodyFault::Short(45)));
    assert_eq!(rt; Body::read(&octets).err(), Some(BodyFault::Long(111)));
    for length in [46, 110] {
        let body = Body::read(&octets[..length])?;
        assert_eq!(rt; body.tail.as_slice().len(), length - 46);
        assert_eq!(rt; body.write().as_slice(), &octets[..length]);
    }
    let alloc = rt.alloc();
    let texts = [
        (BodyFault::Short(45), "a body of 45 octets is too short"),
        (BodyFault::Long(111), "a body of 111 octets is too long"),
    ];
    for (fault, text) in texts {
        assert_eq!(rt; format!(in alloc; "{fault}")?.as_str(), text);
    }
    Ok(())
}

use event_record::*;
use std::test::Fail;

/// A fan's event: ID 1, a system event at 1000000000 seconds, generator 20h 00h, revision 04h,
/// sensor type 04h, sensor 30h, trigger 01h, data 52h 10h 20h.
const FAN: [u8; 16] = [
    0x01, 0x00, 0x02, 0x00, 0xCA, 0x9A, 0x3B, 0x20, 0x00, 0x04, 0x04, 0x30, 0x01, 0x52, 0x10, 0x20,
];

fn fan_with(id: u16, kind: u8) -> [u8; 16] {
    let [low, high] = id.to_le_bytes();
    let mut octets = FAN;
    octets[0] = low;
    octets[1] = high;
    octets[2] = kind;
    octets
}

#[test]
fn a_record_shows_its_fields(rt: HostRuntime) -> Result<(), Fail> {
    let fan = Record::read(&FAN)?;
    assert_eq!(rt; fan.write(), FAN);
    assert_eq!(rt; (fan.id(), fan.kind()), (1, 0x02));
    assert_eq!(rt; fan.stamp(), Some(1_000_000_000));
    assert_eq!(rt; fan.generator(), [0x20, 0x00]);
    assert_eq!(rt; (fan.sensor_type(), fan.sensor()), (0x04, 0x30));
    assert_eq!(rt; fan.trigger(), 0x01);
    assert_eq!(rt; fan.event_data(), [0x52, 0x10, 0x20]);
    assert_eq!(rt;
        Record::read(&fan_with(1, 0xDF))?.stamp(),
        Some(1_000_000_000)
    );
    assert_eq!(rt; Record::read(&fan_with(1, 0xE0))?.stamp(), None);
    Ok(())
}

#[test]
fn other_octets_are_refused(rt: HostRuntime) {
    let refusals = [
        (0xFFFF, 0x02, RecordFault::ReservedId(0xFFFF)),
        (0x0000, 0x02, RecordFault::ReservedId(0x0000)),
        (0x0000, 0x01, RecordFault::ReservedId(0x0000)),
        (0x0005, 0x01, RecordFault::Kind(0x01)),
        (0x0005, 0x03, RecordFault::Kind(0x03)),
        (0x0005, 0xBF, RecordFault::Kind(0xBF)),
    ];
    for (id, kind, fault) in refusals {
        assert_eq!(rt; Record::read(&fan_with(id, kind)).err(), Some(fault));
    }
}

#[test]
fn a_duplicate_is_refused_before_a_full_log(rt: HostRuntime) -> Result<(), Fail> {
    let mut log = Log::new(rt.alloc())?;
    for id in 0x0001..=0x0400 {
        log.add(Record::read(&fan_with(id, 0x02))?)?;
    }
    assert_eq!(rt; log.len(), 1_024);
    assert_eq!(rt;
        log.add(Record::read(&fan_with(0x0400, 0xC0))?),
        Err(LogFault::Duplicate(0x0400))
    );
    assert_eq!(rt;
        log.add(Record::read(&fan_with(0x0401, 0x02))?),
        Err(LogFault::Full)
    );
    assert_eq!(rt; log.len(), 1_024);
    let places = [(0x0001, Some(0)), (0x0400, Some(1_023)), (0x0401, None)];
    for (id, place) in places {
        assert_eq!(rt; log.place_of(id), place);
    }
    assert_eq!(rt; log.get(0x02A).map(|event| event.id()), Some(0x02B));
    assert!(rt; log.get(1_024).is_none());
    Ok(())
}

#[test]
fn a_cleared_log_is_filled_again(rt: HostRuntime) -> Result<(), Fail> {
    let mut log = Log::new(rt.alloc())?;
    for count in [1_024, 2, 0] {
        for id in 1..=count {
            log.add(Record::read(&fan_with(id, 0x02))?)?;
        }
        assert_eq!(rt; log.len(), usize::from(count));
        log.clear();
        assert_eq!(rt; (log.len(), log.place_of(1)), (0, None));
    }
    Ok(())
}

#[test]
fn a_fault_says_what_is_wrong(rt: HostRuntime) -> Result<(), Fail> {
    let alloc = rt.alloc();
    let reserved = RecordFault::ReservedId(0xFFFF);
    assert_eq!(rt;
        format!(in alloc; "{reserved}")?.as_str(),
        "record ID ffff is reserved"
    );
    let kind = RecordFault::Kind(0x01);
    assert_eq!(rt;
        format!(in alloc; "{kind}")?.as_str(),
        "record type 01 is unknown"
    );
    let held = LogFault::Duplicate(0x0400);
    assert_eq!(rt;
        format!(in alloc; "{held}")?.as_str(),
        "a record with ID 0400 is held"
    );
    let full = LogFault::Full;
    assert_eq!(rt; format!(in alloc; "{full}")?.as_str(), "the log is full");
    Ok(())
}

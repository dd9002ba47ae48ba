//! Worked rows: which events filters match.
use event_record::Record;
use filter_table::*;
use std::test::Fail;

/// Enabled, for sensor type 04h and offset 2, any other source and any event data.
const FILTER: [u8; 20] = [
    0x80, 0x20, 0x00, 0x10, 0xFF, 0xFF, 0x04, 0xFF, 0x01, 0x04, 0x00, 0x00, 0x00, 0x00, 0x00, 0x00,
    0x00, 0x00, 0x00, 0x00,
];
/// A system event of sensor type 04h with event data 52h, 10h and 20h.
const EVENT: [u8; 16] = [
    0x01, 0x00, 0x02, 0x00, 0xCA, 0x9A, 0x3B, 0x20, 0x00, 0x04, 0x04, 0x30, 0x01, 0x52, 0x10, 0x20,
];

#[test]
fn event_data_fits_its_mask_and_compare_octets(rt: HostRuntime) -> Result<(), Fail> {
    let rows = [
        ([0x00, 0x00, 0x00], 0x00, true),
        ([0x00, 0x00, 0x00], 0x52, true),
        ([0x00, 0x00, 0x00], 0xFF, true),
        ([0xFF, 0xFF, 0x52], 0x52, true),
        ([0xFF, 0xFF, 0x52], 0x53, false),
        ([0x00, 0xFF, 0xFF], 0x00, false),
        ([0x00, 0xFF, 0xFF], 0xFF, false),
        ([0x30, 0xCF, 0x10], 0x00, true),
        ([0x30, 0xCF, 0x10], 0x30, true),
        ([0x30, 0xCF, 0x10], 0x20, false),
    ];
    for (test, value, fits) in rows {
        let mut filter = FILTER;
        filter[9] = 0xFF;
        filter[10] = 0xFF;
        filter[11] = test[0];
        filter[12] = test[1];
        filter[13] = test[2];
        let mut event = EVENT;
        event[13] = value;
        let matched = matches(&Filter::read(&filter), &Record::read(&event)?);
        assert_eq!(rt; matched, fits, "{test:?} and {value}");
    }
    Ok(())
}

#[test]
fn a_changed_octet_decides(rt: HostRuntime) -> Result<(), Fail> {
    // The changed octets of the filter and of the event, counted from 0, and whether they match.
    let rows = [
        ((0, 0x80), (13, 0x52), true),
        ((0, 0x80), (13, 0x53), false),
        ((0, 0x00), (13, 0x52), false),
        ((0, 0x7F), (13, 0x52), false),
        ((0, 0x80), (2, 0xC0), false),
        ((0, 0x80), (2, 0xFF), false),
        ((8, 0x01), (12, 0x81), false),
        ((8, 0xFF), (12, 0x81), true),
        ((4, 0x20), (7, 0x20), true),
        ((5, 0x20), (7, 0x20), false),
        ((6, 0xFF), (10, 0x05), true),
        ((6, 0x04), (10, 0x05), false),
        ((7, 0x30), (11, 0x31), false),
        ((10, 0x80), (13, 0x5F), true),
        ((10, 0x80), (13, 0x5E), false),
    ];
    for ((filter_at, filter_octet), (event_at, event_octet), wanted) in rows {
        let (mut filter, mut event) = (FILTER, EVENT);
        assert!(rt; filter_at < filter.len() && event_at < event.len());
        filter[filter_at] = filter_octet;
        event[event_at] = event_octet;
        let matched = matches(&Filter::read(&filter), &Record::read(&event)?);
        assert_eq!(rt;
            matched,
            wanted,
            "{filter_at}: {filter_octet}, {event_at}: {event_octet}"
        );
    }
    Ok(())
}

/// Whether a value fits an AND mask, compare 1 and compare 2, bit by bit.
fn fits_slowly(mask: u8, exact: u8, compare: u8, value: u8) -> bool {
    let mut another = exact == 0xFF;
    for bit in [1, 2, 4, 8, 16, 32, 64, 128] {
        let is_same = ((value & mask) & bit == 0) == (compare & bit == 0);
        if exact & bit == 0 {
            another = another || is_same;
        } else if !is_same {
            return false;
        }
    }
    another
}

/// Whether an octet of a filter takes the octet of a record, bit by bit.
fn takes_slowly(wanted: u8, value: u8) -> bool {
    let (mut all_set, mut all_same) = (true, true);
    for bit in [1, 2, 4, 8, 16, 32, 64, 128] {
        all_set = all_set && wanted & bit != 0;
        all_same = all_same && (wanted & bit == 0) == (value & bit == 0);
    }
    all_set || all_same
}

/// The standard's conditions one by one, by single bits.
fn matches_slowly(filter: &[u8; 20], event: &[u8; 16]) -> bool {
    let [
        flags,
        _,
        _,
        _,
        generator_1,
        generator_2,
        kind,
        sensor,
        trigger,
        low,
        high,
        ..
    ] = *filter;
    let [
        ..,
        mask_1,
        exact_1,
        compare_1,
        mask_2,
        exact_2,
        compare_2,
        mask_3,
        exact_3,
        compare_3,
    ] = *filter;
    let [_, _, record_type, .., data_1, data_2, data_3] = *event;
    let [
        _,
        _,
        _,
        _,
        _,
        _,
        _,
        event_generator_1,
        event_generator_2,
        _,
        event_kind,
        ..
    ] = *event;
    let [.., event_sensor, event_trigger, _, _, _] = *event;
    let offsets = if data_1 & 8 == 0 { low } else { high };
    flags & 0x80 != 0
        && record_type == 0x02
        && takes_slowly(generator_1, event_generator_1)
        && takes_slowly(generator_2, event_generator_2)
        && takes_slowly(kind, event_kind)
        && takes_slowly(sensor, event_sensor)
        && takes_slowly(trigger, event_trigger)
        && (offsets >> (data_1 % 8)) % 2 == 1
        && fits_slowly(mask_1, exact_1, compare_1, data_1)
        && fits_slowly(mask_2, exact_2, compare_2, data_2)
        && fits_slowly(mask_3, exact_3, compare_3, data_3)
}

#[test]
fn whole_octets_and_single_bits_agree(rt: HostRuntime) -> Result<(), Fail> {
    // A filter that is picky at each octet, and an event that it matches.
    let filter = [
        0x80, 0x20, 0x01, 0x10, 0x20, 0xFF, 0x04, 0x30, 0x01, 0x04, 0x80, 0x5F, 0xC3, 0x56, 0xFF,
        0xFF, 0x10, 0xF0, 0x00, 0x20,
    ];
    assert!(rt; matches(&Filter::read(&filter), &Record::read(&EVENT)?));
    let (mut one_matches, mut one_does_not) = (false, false);
    for octet in 0..=255 {
        for place in 0..20 {
            let mut changed = filter;
            changed[place] = octet;
            let fast = matches(&Filter::read(&changed), &Record::read(&EVENT)?);
            assert_eq!(rt;
                fast,
                matches_slowly(&changed, &EVENT),
                "filter {place} {octet}"
            );
            one_matches = one_matches || fast;
            one_does_not = one_does_not || !fast;
        }
        for place in 2..16 {
            let mut changed = EVENT;
            changed[place] = octet;
            let Ok(event) = Record::read(&changed) else {
                continue;
            };
            let fast = matches(&Filter::read(&filter), &event);
            assert_eq!(rt;
                fast,
                matches_slowly(&filter, &changed),
                "event {place} {octet}"
            );
            one_matches = one_matches || fast;
            one_does_not = one_does_not || !fast;
        }
    }
    assert!(rt; one_matches && one_does_not);
    Ok(())
}

#[test]
fn sixteen_filters_are_held(rt: HostRuntime) -> Result<(), Fail> {
    let mut filters = Filters::new();
    for number in 1..=16 {
        assert_eq!(rt; filters.get(number)?.write(), [0; 20]);
    }
    for number in [0, 17, 0x81, 255] {
        assert_eq!(rt; filters.get(number).err(), Some(NoSuch(number)));
        assert_eq!(rt;
            filters.set(number, Filter::read(&FILTER)),
            Err(NoSuch(number))
        );
        assert_eq!(rt; filters.set_first(number, 0x80), Err(NoSuch(number)));
    }
    for number in [1, 8, 16] {
        filters.set(number, Filter::read(&FILTER))?;
    }
    filters.set_first(16, 0x00)?;
    filters.set_first(2, 0xC0)?;
    // The first and the second octet of each filter.
    let heads = filters
        .as_slice()
        .iter()
        .map(|filter| (filter.write()[0], filter.write()[1]));
    let heads = heads.collect::<Vec<_>>(rt.alloc())?;
    let empty = (0x00, 0x00);
    let mut wanted = [empty; 16];
    wanted[0] = (0x80, 0x20);
    wanted[1] = (0xC0, 0x00);
    wanted[7] = (0x80, 0x20);
    wanted[15] = (0x00, 0x20);
    assert_eq!(rt; heads.as_slice(), wanted.as_slice());
    let text = NoSuch(17);
    assert_eq!(rt;
        format!(in rt.alloc(); "{text}")?.as_str(),
        "there is no filter 17"
    );
    Ok(())
}

#[test]
fn a_filter_shows_its_fields(rt: HostRuntime) {
    let mut octets = FILTER;
    octets[1] = 0x3F;
    octets[2] = 0xF1;
    octets[4] = 0x20;
    octets[10] = 0x80;
    let filter = Filter::read(&octets);
    assert!(rt; filter.is_enabled());
    assert_eq!(rt; filter.actions(), 0x3F);
    assert_eq!(rt; filter.policy_number(), 1);
    assert_eq!(rt; filter.severity(), 0x10);
    assert_eq!(rt; filter.generator(), [0x20, 0xFF]);
    assert_eq!(rt; filter.sensor_type(), 0x04);
    assert_eq!(rt; filter.sensor(), 0xFF);
    assert_eq!(rt; filter.trigger(), 0x01);
    assert_eq!(rt; filter.offset_mask(), 0x8004);
    assert_eq!(rt; filter.write(), octets);
}

//! Worked walks, and all small ones against a slow walk by the definition.
use policy_table::PolicyEntry;
use policy_walk::*;
use std::process::Abort;

/// The stops of three entries of policy number 1, with policies 0, 1 and 3.
fn worked_stops() -> [Stop; 3] {
    let octets = [[0x18, 0x11, 0x00], [0x19, 0x12, 0x00], [0x1B, 0x21, 0x00]];
    [
        Stop::of(&PolicyEntry::read(&octets[0]), 0),
        Stop::of(&PolicyEntry::read(&octets[1]), 0),
        Stop::of(&PolicyEntry::read(&octets[2]), 0),
    ]
}

#[test]
fn a_walk_ends_at_a_success(rt: HostRuntime) {
    // The results told, and the place of the next alert; 9 is none.
    let rows: [(&[bool], u8); 6] = [
        (&[], 0),
        (&[true], 9),
        (&[false], 1),
        (&[false, true], 9),
        (&[false, false], 2),
        (&[false, false, true], 9),
    ];
    let stops = worked_stops();
    assert_eq!(rt;
        (stops[2].policy, stops[2].channel, stops[2].kind),
        (3, 2, 0)
    );
    assert!(rt; stops.iter().all(|stop| stop.policy <= 4));
    for (results, next) in rows {
        let mut walk = Walk::start(&stops);
        for result in results {
            assert!(rt; walk.current().is_some());
            walk.told(*result);
        }
        assert_eq!(rt; walk.current().unwrap_or(9), next, "{results:?}");
    }
}

/// The place behind one that isn't attempted, by its policy; the number of stops where there is none.
fn behind(stops: &[Stop], place: usize) -> usize {
    if place >= stops.len() {
        return place;
    }
    let stop = stops[place];
    let end = stops.len();
    for later in place + 1..end {
        let other = stops[later];
        let wanted = match stop.policy {
            1 => true,
            2 => false,
            3 => other.channel != stop.channel,
            _ => other.kind != stop.kind,
        };
        if wanted {
            return later;
        }
    }
    end
}

/// The place attempted after these results: each stop is attempted where its policy is 0, or nothing was attempted yet,
/// or the last alert attempted failed.
fn slow_walk(stops: &[Stop], results: &[bool]) -> Option<usize> {
    let mut attempts = 0;
    let mut succeeded = false;
    let mut next = 0;
    for place in 0..stops.len() {
        if place < next {
            continue;
        }
        if stops[place].policy == 0 || !succeeded {
            if attempts >= results.len() {
                return Some(place);
            }
            succeeded = results[attempts];
            attempts += 1;
            next = place + 1;
        } else {
            next = behind(stops, place);
        }
    }
    None
}

/// The ways in which four stops can share a channel, or a type: stops with the same number share it.
const SHARED: [[u8; 4]; 15] = [
    [0, 0, 0, 0],
    [0, 0, 0, 1],
    [0, 0, 1, 0],
    [0, 0, 1, 1],
    [0, 0, 1, 2],
    [0, 1, 0, 0],
    [0, 1, 0, 1],
    [0, 1, 0, 2],
    [0, 1, 1, 0],
    [0, 1, 1, 1],
    [0, 1, 1, 2],
    [0, 1, 2, 0],
    [0, 1, 2, 1],
    [0, 1, 2, 2],
    [0, 1, 2, 3],
];

/// Four stops with these policies, in digits to the base 5, on channels and with types that are shared so.
fn stops_of(policies: u32, channels: [u8; 4], kinds: [u8; 4]) -> [Stop; 4] {
    let stop = |digit: u32, channel, kind| Stop {
        policy: (digit % 5) as u8,
        channel,
        kind,
    };
    [
        stop(policies, channels[0], kinds[0]),
        stop(policies / 5, channels[1], kinds[1]),
        stop(policies / 25, channels[2], kinds[2]),
        stop(policies / 125, channels[3], kinds[3]),
    ]
}

/// The stop on another channel and with another type, different for each channel and type.
fn renamed(stop: Stop) -> Stop {
    Stop {
        policy: stop.policy,
        channel: stop.channel ^ 0x0F,
        kind: stop.kind ^ 0x07,
    }
}

/// Compares the walk with the slow one after these results, with the walk over the renamed stops, and behind each as
/// resumed at its place. Results with a success behind the end are another row's.
fn compare(rt: &impl Abort, stops: &[Stop], renamed: &[Stop], results: &[bool; 4]) {
    assert!(rt; stops.len() <= 4 && stops.iter().all(|stop| stop.policy <= 4));
    assert!(rt; renamed.len() <= 4 && renamed.iter().all(|stop| stop.policy <= 4));
    let (mut walk, mut other) = (Walk::start(stops), Walk::start(renamed));
    for told in 0..results.len() {
        let is_own = !results[told..].iter().any(|success| *success);
        if is_own {
            let wanted = slow_walk(stops, &results[..told]);
            assert_eq!(rt; walk.current().map(usize::from), wanted);
            assert_eq!(rt; other.current(), walk.current());
        }
        let Some(place) = walk.current() else {
            return;
        };
        walk.told(results[told]);
        if other.current().is_some() {
            other.told(results[told]);
        }
        if is_own && usize::from(place) < stops.len() {
            let mut resumed = Walk::resume(stops, place);
            assert_eq!(rt; resumed.current(), Some(place));
            resumed.told(results[told]);
            assert_eq!(rt; resumed.current(), walk.current());
        }
    }
    assert_eq!(rt; walk.current().map(usize::from), slow_walk(stops, results));
    assert_eq!(rt; other.current(), walk.current());
}

/// Compares them after all results.
fn compare_all(rt: &impl Abort, stops: &[Stop]) {
    let mut others = [Stop::default(); 4];
    for (place, stop) in stops.iter().enumerate() {
        if place < others.len() {
            others[place] = renamed(*stop);
        }
    }
    let others = &others[..stops.len().min(4)];
    for results in 0..16_u8 {
        let results = [
            results % 2 == 1,
            results / 2 % 2 == 1,
            results / 4 % 2 == 1,
            results / 8 == 1,
        ];
        compare(rt, stops, others, &results);
    }
}

/// All sets of up to four stops. Of channels and types only counts which stops share them (`proofs/Renamed.antt`): so each
/// way to share them is tried, under two namings.
#[test]
fn all_walks_over_four_stops_are_the_slow_ones(rt: HostRuntime) {
    assert_eq!(rt; Walk::start(&[]).current(), None);
    for policies in 0..625 {
        for channels in SHARED {
            for kinds in SHARED {
                let stops = stops_of(policies, channels, kinds);
                compare_all(&rt, &stops);
                if policies < 125 {
                    compare_all(&rt, &stops[..3]);
                }
                if policies < 25 {
                    compare_all(&rt, &stops[..2]);
                }
                if policies < 5 {
                    compare_all(&rt, &stops[..1]);
                }
            }
        }
    }
}

use super::*;
use std::cell::Cell;
use std::io::ErrorKind;

// A clock of the test, in milliseconds.
#[derive(Drop)]
struct Hand {
    at: Cell<u64>,
}

impl Clock for Hand {
    fn monotonic(&self) -> io::Result<Duration> {
        Ok(Duration::from_millis(self.at.get()))
    }

    fn since_1970(&self) -> io::Result<Duration> {
        Err(io::Error::from(ErrorKind::Unsupported))
    }
}

// When it is asked, and the milliseconds until the next second ends; 0 where it has.
const ASKED: [(u64, u64); 10] = [
    (70_300, 1000),
    (70_301, 999),
    (71_299, 1),
    (71_300, 0),
    (71_300, 1000),
    (74_400, 0),
    (74_401, 0),
    (74_402, 0),
    (74_403, 897),
    (75_300, 0),
];

#[test]
fn each_second_is_given_once(rt: HostRuntime) {
    let clock = Hand { at: Cell::new(0) };
    let mut seconds = Seconds::new();
    for (at, wanted) in ASKED {
        clock.at.set(at);
        let left = seconds.until_next(&clock).expect(&rt, "a time");
        let left = left.map_or(0, |left| left.as_millis());
        assert_eq!(rt; left, u128::from(wanted), "at {at}");
    }
}

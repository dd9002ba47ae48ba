//! Worked attempts, and all small ones against a slow attempt by the definition.
ghost use Rattle.std.specs.Prelude.{◌≡◌};

use board_core::{Address, Community, Told};
use lan_dest::*;
use std::process::Abort;

fn destination(acknowledged: bool, wait: u16, retries: u8) -> Destination
    ensures wait { result.wait ≡ wait }
    ensures retries { result.retries ≡ retries }
{
    Destination {
        to: Address {
            ip: [10, 0, 0, 9],
            port: 162,
        },
        acknowledged,
        kind: 0,
        wait,
        retries,
        community: Community::new(),
    }
}

/// What an alert to a destination came to: the ticks since the first outcome, the outcomes, whether one was done.
#[derive(Drop)]
struct Slow {
    acknowledged: bool,
    wait: u16,
    retries: u8,
    ticks: u16,
    outcomes: u16,
    done: bool,
    acked: bool,
}

impl Slow {
    /// The first transmission, and one more for each whole wait since, as long as there are retries.
    fn due(&self) -> bool {
        let whole_waits = self.ticks / self.wait.max(1);
        self.outcomes < 1 + u16::from(self.retries).min(whole_waits)
    }

    fn verdict(&self) -> Option<bool> {
        if self.acknowledged {
            if self.acked {
                Some(true)
            } else if self.ticks / self.wait.max(1) > u16::from(self.retries) {
                Some(false)
            } else {
                None
            }
        } else if self.outcomes == 1 + u16::from(self.retries) {
            Some(self.done)
        } else {
            None
        }
    }
}

/// Compares an attempt with the slow one.
fn compare(rt: &impl Abort, attempt: &Attempt, slow: &Slow) {
    assert_eq!(rt; attempt.due(), slow.due());
    assert_eq!(rt; attempt.verdict(), slow.verdict());
    assert_eq!(rt; u16::from(attempt.outcomes()), slow.outcomes);
    assert_eq!(rt; attempt.done(), slow.done);
    assert_eq!(rt; attempt.ticks(), slow.ticks);
}

/// Goes on for 40 ticks: bit n of `told` is 1 where transmission n, counted from 0, is done, and the acknowledgement comes
/// after the tick `acked`.
fn run(rt: &impl Abort, to: &Destination, told: u32, acked: u16) {
    if to.wait == 0 || to.wait > 256 || to.retries > 7 {
        return;
    }
    let mut attempt = Attempt::start(to);
    let mut slow = Slow {
        acknowledged: to.acknowledged,
        wait: to.wait,
        retries: to.retries,
        ticks: 0,
        outcomes: 0,
        done: false,
        acked: false,
    };
    compare(rt, &attempt, &slow);
    for tick in 0..=40_u16 {
        if attempt.due() {
            assert!(rt; slow.outcomes < 8);
            let is_done = told >> slow.outcomes & 1 == 1;
            attempt.told(if is_done { Told::Done } else { Told::Failed });
            slow.outcomes += 1;
            slow.done = slow.done || is_done;
            compare(rt, &attempt, &slow);
        }
        if attempt.verdict().is_some() || attempt.due() {
            return;
        }
        if tick == acked {
            attempt.acked();
            slow.acked = to.acknowledged;
            compare(rt, &attempt, &slow);
        }
        if attempt.verdict().is_some() || attempt.due() {
            return;
        }
        attempt.tick();
        assert!(rt; slow.ticks < 41);
        slow.ticks += 1;
        compare(rt, &attempt, &slow);
    }
}

/// All waits of 1 to 4 ticks, all retries, all outcomes of the transmissions that there are at most, and an acknowledgement
/// after each tick, or none.
#[test]
fn all_small_attempts_are_the_slow_ones(rt: HostRuntime) {
    for wait in 1..=4 {
        for retries in 0..=7 {
            let to = destination(true, wait, retries);
            let other = destination(false, wait, retries);
            for told in 0..2_u32 << retries {
                for acked in 0..=41 {
                    run(&rt, &to, told, acked);
                    run(&rt, &other, told, acked);
                }
            }
        }
    }
}

/// Goes on to a tick, and tells each transmission done; the ticks at which there was one.
fn sends_until(rt: &impl Abort, attempt: &mut Attempt, last: u16) -> [u16; 3] {
    let mut sends = [99; 3];
    let mut made = 0;
    for tick in 0..=last {
        if attempt.due() {
            assert!(rt; made < 3);
            sends[made] = tick;
            made += 1;
            attempt.told(Told::Done);
        }
        if tick < last && !attempt.due() && attempt.verdict().is_none() {
            attempt.tick();
        }
    }
    sends
}

#[test]
fn an_acknowledged_alert_is_sent_at_ticks_0_3_and_6_and_fails_at_9(rt: HostRuntime) {
    let to = destination(true, 3, 2);
    let mut attempt = Attempt::start(&to);
    assert_eq!(rt; sends_until(&rt, &mut attempt, 8), [0, 3, 6]);
    assert_eq!(rt; (attempt.ticks(), attempt.verdict()), (8, None));
    assert!(rt; !attempt.due());
    if !attempt.due() && attempt.verdict().is_none() {
        attempt.tick();
    }
    // The acknowledgement at tick 9 is too late.
    assert_eq!(rt; (attempt.ticks(), attempt.verdict()), (9, Some(false)));

    let mut answered = Attempt::start(&to);
    assert_eq!(rt; sends_until(&rt, &mut answered, 3), [0, 3, 99]);
    if !answered.due() && answered.verdict().is_none() {
        answered.acked();
    }
    assert_eq!(rt; (answered.due(), answered.verdict()), (false, Some(true)));
}

#[test]
fn an_unacknowledged_alert_makes_all_its_sends(rt: HostRuntime) {
    let mut attempt = Attempt::start(&destination(false, 3, 2));
    assert_eq!(rt; sends_until(&rt, &mut attempt, 5), [0, 3, 99]);
    assert_eq!(rt; attempt.verdict(), None);
    if !attempt.due() && attempt.verdict().is_none() {
        attempt.acked();
    }
    assert_eq!(rt; attempt.verdict(), None);
    assert_eq!(rt;
        (attempt.outcomes(), attempt.done(), attempt.ticks()),
        (2, true, 5)
    );
    let resumed = Attempt::resume(false, 3, 2, 2, true, 5);
    assert_eq!(rt; (resumed.due(), resumed.verdict()), (false, None));
    // The last one is made though the others were done, and the alert ends with its outcome.
    let mut late = Attempt::resume(false, 3, 2, 2, true, 6);
    assert_eq!(rt; (late.due(), late.verdict()), (true, None));
    if late.due() {
        late.told(Told::Failed);
    }
    assert_eq!(rt; (late.outcomes(), late.verdict()), (3, Some(true)));
}

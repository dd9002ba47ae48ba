//! A job by its parts: what is due of each, and what comes after its outcome.
ghost use Rattle.std.specs.Prelude.{◌≤◌};
ghost use Rattle.job_course.specs.Progress.{IsProgress};
ghost use Rattle.pef_match.specs.Parts.{CanBeSent};

use alert_trap::Origin;
use board_core::{Act, Address, Community, Step, Text, Told};
use event_record::Record;
use job_course::*;
use lan_dest::{Destination, Ports};
use pef_match::{Job, Target};
use policy_walk::Stop;
use std::process::Abort;
use std::test::Fail;

const OWN: Own = Own {
    guid: [0; 16],
    origin: Origin {
        agent: [10, 0, 0, 2],
        manufacturer: 99999,
        system: 1,
    },
    ports: Ports {
        pet: 162,
        oem1: 162,
        oem2: 162,
    },
};

/// A fan's event, of the record with ID 0001h.
const EVENT: [u8; 16] = [
    0x01, 0x00, 0x02, 0x00, 0xCA, 0x9A, 0x3B, 0x20, 0x00, 0x04, 0x04, 0x30, 0x01, 0x52, 0x10, 0x20,
];

/// A target of this policy number and policy at 10.0.0.x, to which an alert is sent once.
fn target(policy_number: u8, policy: u8, last: u8) -> Target
    requires { policy ≤ 4 }
    ensures { CanBeSent result }
{
    Target {
        policy_number,
        entry: 1,
        stop: Stop {
            policy,
            channel: 1,
            kind: 0,
        },
        to: Destination {
            to: Address {
                ip: [10, 0, 0, last],
                port: 162,
            },
            acknowledged: false,
            kind: 0,
            wait: 1,
            retries: 0,
            community: Community::new(),
        },
        severity: 0x10,
        text: Text::new(),
    }
}

/// A datagram goes to 10.0.0.x.
fn to(last: u8) -> Option<(Option<Act>, u8)> {
    Some((None, last))
}

/// The part whose turn comes has this outcome. Its action, or the last octet of the address to which its datagram goes, is told beside.
fn next(rt: &impl Abort, progress: Progress, told: Told) -> (Progress, Option<(Option<Act>, u8)>)
    requires { IsProgress progress }
    ensures { IsProgress result.0 }
{
    let running = match progress {
        Progress::GoesOn(running) => running,
        Progress::Ended {
            work,
            turn,
            success,
        } => match turn {
            Some(turn) => Running::begin(work, turn, 1, 0),
            None => {
                let over = Progress::Ended {
                    work,
                    turn: None,
                    success,
                };
                return (over, None);
            }
        },
    };
    assert_eq!(rt; (running.is_job(), running.id()), (true, 0x0001));
    let Some(step) = running.step(&OWN) else {
        return (Progress::GoesOn(running), None);
    };
    let shown = match &step {
        Step::Act { kind, .. } => (Some(*kind), 0),
        Step::Datagram { to, .. } => (None, to.ip[3]),
    };
    (running.after(&Counts::Heard(told)), Some(shown))
}

#[test]
fn each_part_comes_in_its_turn(rt: HostRuntime) -> Result<(), Fail> {
    let event = Record::read(&EVENT)?;
    let reset = Some((Some(Act::Reset), 0));
    let oem = Some((Some(Act::Oem), 0));
    // The outcome of each part, and what is due one after the other. The second target is tried only where the first failed.
    let rows = [
        (Told::Failed, [reset, to(9), to(10), to(11), oem]),
        (Told::Done, [reset, to(9), to(11), oem, None]),
    ];
    for (told, steps) in rows {
        let targets = [target(1, 0, 9), target(1, 1, 10), target(2, 0, 11)];
        let job = Job::new(Some(Act::Reset), &targets, true, &event);
        let turn = first_turn(&job);
        let work = Work {
            number: Some(1),
            job,
            guid: [0; 16],
        };
        let begin = Progress::Ended {
            work,
            turn,
            success: true,
        };
        let (progress, first) = next(&rt, begin, told);
        let (progress, second) = next(&rt, progress, told);
        let (progress, third) = next(&rt, progress, told);
        let (progress, fourth) = next(&rt, progress, told);
        let (progress, fifth) = next(&rt, progress, told);
        let (_, none) = next(&rt, progress, told);
        assert_eq!(rt; [first, second, third, fourth, fifth], steps, "{told:?}");
        assert_eq!(rt; none, None);
    }
    Ok(())
}

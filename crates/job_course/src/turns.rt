//! Whose turn comes in a job.
ghost use Rattle.std.specs.Prelude.{◌≡◌, ◌+◌, ◌<◌, ◌≤◌, ◌==◌, length, drop, map, IfSome, All};
ghost use Rattle.pef_match.specs.Parts.{CanBeSent};
ghost use Rattle.std.specs.List.{prefix_len};
ghost use Rattle.job_course.specs.Turns.{first_turn as first_turn_of, turn_from as turn_from_of, turn_or_next};
ghost use Rattle.policy_walk.specs.First.{first_tried};
ghost use Rattle.policy_walk.specs.Tried.{Any};
ghost use Rattle.job_course.specs.Running.{IsTurn};
ghost use Rattle.job_course.specs.Undertaking.{one_set, set_at as set_at_of, stops_at as stops_at_of};

use crate::turn::Turn;
use arrayvec::ArrayVec;
use pef_match::{Job, Target};
use policy_walk::{STOPS, Stop, Walk};

/// The turn that a job begins with: its act, else the first alert, else the OEM action. A job that asks for nothing has none.
pub fn first_turn(job: &Job) -> Option<Turn>
    ensures value { result ≡ first_turn_of job.now }
    ensures turn { IfSome result (λ turn. IsTurn job.now.targets turn) }
{
    match job.act() {
        Some(act) => Some(Turn::ToAct(act)),
        None => turn_from(job, 0),
    }
}

/// The turn of the policy set that begins with this target; behind the last target that of the OEM action.
pub(crate) fn turn_from(job: &Job, first: usize) -> Option<Turn>
    ensures value { result ≡ turn_from_of job.now first }
    ensures turn { IfSome result (λ turn. IsTurn job.now.targets turn) }
{
    if first < job.targets().len() {
        Some(Turn::ToAlert { first, place: 0 })
    } else if job.oem() {
        Some(Turn::ToOemAction)
    } else {
        None
    }
}

/// The turn behind the alert of a target, which ended so: that of the next in its set (IPMI 2.0, section 17.11), and behind the
/// set's end that of the next set.
pub(crate) fn turn_behind(job: &Job, first: usize, place: usize, success: bool) -> Option<Turn>
    requires first { first ≤ length job.now.targets }
    requires place { place < length (set_at_of job.now.targets first) }
    ensures value { result ≡ turn_or_next job.now first (first_tried Any success (place + 1) (drop (place + 1) (stops_at_of job.now.targets first))) }
    ensures turn { IfSome result (λ turn. IsTurn job.now.targets turn) }
{
    let stops = stops_of(set_at(job.targets(), first));
    let mut walk = Walk::resume(stops.as_slice(), place as u8);
    walk.told(success);
    match walk.current() {
        Some(next) => Some(Turn::ToAlert {
            first,
            place: usize::from(next),
        }),
        None => turn_from(job, first + stops.len()),
    }
}

// The targets from this place on that have one policy number.
fn set_at(targets: &[Target], first: usize) -> &[Target]
    requires first { first ≤ length targets.now }
    requires ready { All CanBeSent targets.now }
    ensures set { result.now ≡ set_at_of targets.now first }
    ensures ready { All CanBeSent result.now }
{
    one_set(&targets[first..])
}

// The targets at the front that have one policy number.
fn one_set(targets: &[Target]) -> &[Target]
    requires { All CanBeSent targets.now }
    ensures set { result.now ≡ one_set targets.now }
    ensures ready { All CanBeSent result.now }
{
    let [target, ..] = targets else {
        return targets;
    };
    &targets[..count_of(targets, target.policy_number)]
}

// How many targets have this policy number, from the first on and up to one that has another.
fn count_of(targets: &[Target], number: u8) -> usize
    ensures count { result ≡ prefix_len (λ other. other.policy_number == number) targets.now }
    ensures within { result ≤ length targets.now }
{
    targets
        .iter()
        .take_while(|other| other.policy_number == number)
        .count()
}

// The stops of a set.
fn stops_of(set: &[Target]) -> ArrayVec<Stop, STOPS>
    requires few { length set.now ≤ 16 }
    requires ready { All CanBeSent set.now }
    ensures stops { result.items ≡ map (λ target. target.stop) set.now }
    ensures known { All (λ stop. stop.policy ≤ 4) result.items }
{
    let mut stops = ArrayVec::new();
    for target in set {
        stops.push(target.stop);
    }
    stops
}

//! The job that runs.
ghost use Rattle.std.specs.Prelude.{◌≡◌, ◌<◌, ◌≤◌, length, is_some, option_copied};
ghost use Rattle.lan_dest.specs.Attempts.{verdict};
ghost use Rattle.job_course.specs.Progress.{part_begun, progress, attempt_after, IsProgress};
ghost use Rattle.job_course.specs.Counting.{same_ack};
ghost use Rattle.job_course.specs.Steps.{part_step, id_of};
ghost use Rattle.job_course.specs.Running.{IsTurn, MayCount, IsOpenAlert, IsOpenPart};
ghost use Rattle.job_course.specs.Undertaking.{set_at, target_at};
ghost use Rattle.pef_match.specs.Parts.{CanBeSent};

use crate::counts::Counts;
use crate::own::Own;
use crate::part::{Alerting, Part};
use crate::progress::Progress;
use crate::turn::Turn;
use crate::turns::{turn_behind, turn_from};
use crate::work::Work;
use alert_trap::{Draw, awaited, trap_of};
use board_core::{Act, Step, Told};
use event_record::Record;
use lan_dest::Attempt;
use pef_match::{Job, Target};
use pet_body::PetAck;
use std::marker::Model;

/// The job that runs, with the part that is open.
#[derive(Drop)]
pub struct Running {
    work: Work,
    part: Part,
}

impl Model for Running {
    ghost use Rattle.job_course.specs.Running.{Running, IsOpenPart};

    ghost Value = { Running };

    ghost view = { λ r. record { work = r.work; part = r.part } };

    ghost invariant = { λ r. IsOpenPart r.work.job.targets r.part };
}

impl Running {
    /// What was begun, with the part whose turn it is. An alert has this sequence number, 1 to 65535, and this time-stamp, in hundredths
    /// of a second; another part has neither.
    pub fn begin(work: Work, turn: Turn, sequence: u16, stamp: u32) -> Running
        requires { IsTurn work.job.targets turn }
        ensures { result ≡ record { work = work; part = part_begun work.job sequence stamp turn } }
    {
        let part = match turn {
            Turn::ToAct(act) => Part::Acting(act),
            Turn::ToAlert { first, place } => Part::Alerting(Alerting {
                first,
                place,
                sequence,
                stamp,
                attempt: Attempt::start(&target_of(&work.job, first, place).to),
            }),
            Turn::ToOemAction => Part::OemAction,
        };
        Running { work, part }
    }

    /// The part is open: an alert has one of the job's targets, hasn't ended, and at most one transmission of it is due. This does nothing
    /// when it runs.
    pub fn is_open(&self)
        ensures { IsOpenPart self.now.work.job.targets self.now.part }
    {
        let _ = &self.part;
    }

    /// The ID of the record whose job this is; 0000h for an alert at once.
    pub fn id(&self) -> u16
        ensures { result ≡ id_of self.now.work.job.event }
    {
        id_of(self.work.job.event())
    }

    /// Whether this is the job of a record, and no alert at once.
    pub fn is_job(&self) -> bool
        ensures { result ≡ is_some self.now.work.number }
    {
        self.work.number.is_some()
    }

    /// The step of the open part. Of an alert none is due while it waits.
    pub fn step(&self, own: &Own) -> Option<Step>
        ensures { result ≡ part_step own.now self.now.work self.now.part }
    {
        let id = self.id();
        match &self.part {
            Part::Acting(kind) => Some(Step::Act { kind: *kind, id }),
            Part::Alerting(alert) => alert_step(own, &self.work, alert),
            Part::OemAction => Some(Step::Act { kind: Act::Oem, id }),
        }
    }

    /// How the job goes on behind what counts for it now: the act and the OEM action end with their outcome, an alert when it is
    /// acknowledged or its retries are over (IPMI 2.0, section 23.2, LAN parameter 18). An alert is told an outcome only where a transmission of
    /// it is due, and a second or an acknowledgement only where none is.
    pub fn after(self, counts: &Counts) -> Progress
        requires { MayCount counts.now self.part }
        ensures progress { result ≡ progress counts.now self }
        ensures turn { IsProgress result }
    {
        let Running { work, part } = self;
        match part {
            Part::Acting(act) => match counts {
                Counts::Heard(told) => {
                    let turn = turn_from(&work.job, 0);
                    let success = *told == Told::Done;
                    Progress::Ended {
                        work,
                        turn,
                        success,
                    }
                }
                _ => Progress::GoesOn(Running {
                    work,
                    part: Part::Acting(act),
                }),
            },
            Part::Alerting(alert) => alert_after(work, alert, counts),
            Part::OemAction => match counts {
                Counts::Heard(told) => Progress::Ended {
                    work,
                    turn: None,
                    success: *told == Told::Done,
                },
                _ => Progress::GoesOn(Running {
                    work,
                    part: Part::OemAction,
                }),
            },
        }
    }
}

// The ID of the record that an action is for.
fn id_of(event: Option<&Record>) -> u16
    ensures { result ≡ id_of (option_copied event.entry) }
{
    match event {
        Some(event) => event.id(),
        None => 0x0000,
    }
}

// The target of a turn.
fn target_of(job: &Job, first: usize, place: usize) -> &Target
    requires first { first ≤ length job.now.targets }
    requires place { place < length (set_at job.now.targets first) }
    ensures target { result.now ≡ target_at job.now.targets first place }
    ensures ready { CanBeSent result.now }
{
    &job.targets()[first + place]
}

// The transmission of an alert that is due: its trap, the same octets each time.
fn alert_step(own: &Own, work: &Work, alert: &Alerting) -> Option<Step>
    requires { IsOpenAlert work.now.job.targets alert.now }
    ensures { result ≡ part_step own.now work.now (Part.Alerting alert.now) }
{
    if !alert.attempt.due() {
        return None;
    }
    let target = target_of(&work.job, alert.first, alert.place);
    let draw = Draw {
        guid: work.guid,
        sequence: alert.sequence,
        stamp: alert.stamp,
    };
    let event = work.job.event();
    let octets = trap_of(
        &own.origin,
        &draw,
        event,
        target.severity,
        &target.text,
        &target.to.community,
    );
    Some(Step::Datagram {
        to: target.to.to,
        octets,
    })
}

// How a job goes on behind what counts for its open alert.
fn alert_after(work: Work, alert: Alerting, counts: &Counts) -> Progress
    requires open { IsOpenAlert work.job.targets alert }
    requires may { MayCount counts.now (Part.Alerting alert) }
    ensures progress { result ≡ progress counts.now (record { work = work; part = Part.Alerting alert }) }
    ensures turn { IsProgress result }
{
    let mut alert = alert;
    let wanted = awaited(alert.sequence, work.job.event());
    count(&mut alert.attempt, counts, &wanted);
    match alert.attempt.verdict() {
        Some(success) => {
            let turn = turn_behind(&work.job, alert.first, alert.place, success);
            Progress::Ended {
                work,
                turn,
                success,
            }
        }
        None => {
            alert.attempt.has_one_due();
            Progress::GoesOn(Running {
                work,
                part: Part::Alerting(alert),
            })
        }
    }
}

// Tells an attempt, which waits for this acknowledgement, what counts now.
fn count(attempt: &mut Attempt, counts: &Counts, wanted: &PetAck)
    requires goes_on { verdict attempt.old ≡ None }
    requires may { MayCount counts.now (Part.Alerting (record { first = 0; place = 0; sequence = 0; stamp = 0; attempt = attempt.old })) }
    ensures { attempt.new ≡ attempt_after counts.now wanted.now attempt.old }
{
    match counts {
        Counts::Second => attempt.tick(),
        Counts::Ack(ack) => {
            if is_same(ack, wanted) {
                attempt.acked();
            }
        }
        Counts::Heard(told) => attempt.told(*told),
    }
}

// Whether two acknowledgements agree in all fields.
fn is_same(a: &PetAck, b: &PetAck) -> bool
    ensures { result ≡ same_ack a.now b.now }
{
    a.sequence == b.sequence
        && a.timestamp == b.timestamp
        && a.event_source == b.event_source
        && a.device == b.device
        && a.sensor == b.sensor
        && a.event_data == b.event_data
}

//! What is to be done for one event record.
ghost use Rattle.std.specs.Prelude.{◌≡◌, ◌≤◌, Some, length, All, option_copied};
ghost use Rattle.pef_match.specs.AtOnce.{at_once};
ghost use Rattle.pef_match.specs.Parts.{CanBeSent};

use crate::target::Target;
use arrayvec::ArrayVec;
use board_core::Act;
use event_record::Record;
use std::marker::Model;

/// How many alerts a job has at most.
pub(crate) const TARGETS: usize = 16;

/// What is to be done for one event record: at most one act, then at most 16 alerts, then the OEM action.
#[derive(Drop)]
pub struct Job {
    act: Option<Act>,
    targets: ArrayVec<Target, TARGETS>,
    oem: bool,
    event: Option<Record>,
}

impl Model for Job {
    ghost use Rattle.std.specs.Prelude.{◌≤◌, length, All};
    ghost use Rattle.pef_match.specs.Parts.{Parts, CanBeSent};

    ghost Value = { Parts };

    ghost view = { λ j. record { act = j.act; targets = j.targets.items; oem = j.oem; event = j.event } };

    ghost invariant = { λ j. (length j.targets.items ≤ 16) × All CanBeSent j.targets.items };
}

impl Job {
    /// The job with these parts. There are at most 16 alerts, each with a policy of 0 to 4, a wait of 1 to 256 seconds
    /// and at most 7 retries.
    pub fn new(act: Option<Act>, targets: &[Target], oem: bool, event: &Record) -> Job
        requires few { length targets.now ≤ 16 }
        requires ready { All CanBeSent targets.now }
        ensures { result ≡ record { act = act; targets = targets.now; oem = oem; event = Some event.now } }
    {
        let mut held = ArrayVec::new();
        for target in targets {
            held.push(target.copy());
        }
        Job {
            act,
            targets: held,
            oem,
            event: Some(*event),
        }
    }

    /// The job of Alert Immediate (IPMI 2.0, section 30.7): one alert, of no record. Its target has a policy of 0 to 4, a wait of 1 to
    /// 256 seconds and at most 7 retries.
    pub fn at_once(target: Target) -> Job
        requires { CanBeSent target }
        ensures { result ≡ at_once target }
    {
        let mut targets = ArrayVec::new();
        targets.push(target);
        Job {
            act: None,
            targets,
            oem: false,
            event: None,
        }
    }

    /// The act, where there is one.
    pub fn act(&self) -> Option<Act>
        ensures { result ≡ self.now.act }
    {
        self.act
    }

    /// The alerts, by policy number and then by entry.
    pub fn targets(&self) -> &[Target]
        ensures value { result.now ≡ self.now.targets }
        ensures within { length result.now ≤ 16 }
        ensures ready { All CanBeSent result.now }
    {
        self.targets.as_slice()
    }

    /// Whether the OEM action is to be done, last.
    pub fn oem(&self) -> bool
        ensures { result ≡ self.now.oem }
    {
        self.oem
    }

    /// The record that the job is of; that of Alert Immediate has none.
    pub fn event(&self) -> Option<&Record>
        ensures { option_copied result ≡ self.now.event }
    {
        self.event.as_ref()
    }
}

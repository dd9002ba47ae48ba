//! The job of an event record.
ghost use Rattle.std.specs.Prelude.{◌≡◌};
ghost use Rattle.lan_dest.specs.Kept.{kept};
ghost use Rattle.pef_config.specs.Places.{our_sizes};
ghost use Rattle.pef_config.specs.Kept.{tables};
ghost use Rattle.pef_match.specs.Job.{job};

use crate::alerts::targets_of;
use crate::asked::{act_of, asked_by, has_oem};
use crate::job::Job;
use event_record::Record;
use lan_dest::{Lan, Ports};
use pef_config::Config;

/// The job of this event record under these parameters (IPMI 2.0, sections 17.6 and 17.11): of the acts that the matching filters ask
/// for and parameter 2 lets through the first by priority, the alerts of their policy sets, and the OEM action where one of them asks for
/// it. A policy set has the alerts of its enabled entries with a policy of 0 to 4 and a destination that can be sent to.
pub fn job_of(config: &Config, lan: &Lan, ports: &Ports, event: &Record) -> Job
    ensures { result ≡ job our_sizes (tables config.now) (kept lan.now) ports.now event.now }
{
    let asked = asked_by(config.filters().as_slice(), config.actions(), event);
    let targets = targets_of(config, lan, ports, event);
    Job::new(act_of(asked), targets.as_slice(), has_oem(asked), event)
}

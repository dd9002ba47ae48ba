//! The alerts of an event record.
ghost use Rattle.std.specs.Prelude.{◌≡◌, ◌+◌, ◌≤◌, ◌++◌, length, Some, None, All, if◌then◌else◌};
ghost use Rattle.std.specs.Option.{ForSome};
ghost use Rattle.lan_dest.specs.Kept.{kept};
ghost use Rattle.lan_dest.specs.Usable.{destination_at, CanBeTried};
ghost use Rattle.pef_config.specs.Places.{our_sizes, Policy};
ghost use Rattle.pef_config.specs.Kept.{tables};
ghost use Rattle.policy_table.specs.Entry.{channel, destination};
ghost use Rattle.pef_match.specs.Alerts.{is_in_set as is_in_set_of, target_of, set_by, set_of, targets_of};
ghost use Rattle.pef_match.specs.Parts.{CanBeSent};
ghost use Rattle.pef_match.specs.Texts.{alert_text};

use crate::alarm::{Alarm, alarm_of};
use crate::job::TARGETS;
use crate::target::Target;
use arrayvec::ArrayVec;
use board_core::Text;
use event_record::Record;
use lan_dest::{Destination, Lan, Ports};
use pef_config::Config;
use policy_table::PolicyEntry;
use policy_walk::Stop;

/// The last policy that an entry can have: 5 to 7 are reserved.
const LAST_POLICY: u8 = 4;

/// The last policy number. The first is 1, since 0 is reserved.
const LAST_POLICY_NUMBER: u8 = 15;

/// The number of the last entry of the alert policy table. The first is 1.
const LAST_ENTRY: u8 = 16;

/// The alerts of an event, by policy number and then by entry.
pub(crate) fn targets_of(
    config: &Config,
    lan: &Lan,
    ports: &Ports,
    event: &Record,
) -> ArrayVec<Target, TARGETS>
    ensures value { result.items ≡ targets_of our_sizes (tables config.now) (kept lan.now) ports.now event.now }
    ensures within { length result.items ≤ 16 }
    ensures ready { All CanBeSent result.items }
{
    let mut targets = ArrayVec::new();
    for policy_number in 1..LAST_POLICY_NUMBER + 1 {
        add_set(&mut targets, config, lan, ports, event, policy_number);
    }
    targets
}

/// Adds the alerts of the policy set of this number, by the number of the entry.
fn add_set(
    targets: &mut ArrayVec<Target, TARGETS>,
    config: &Config,
    lan: &Lan,
    ports: &Ports,
    event: &Record,
    policy_number: u8,
)
    requires room { length targets.old.items + length (set_of our_sizes (tables config.now) (kept lan.now) ports.now event.now policy_number) ≤ 16 }
    requires ready { All CanBeSent targets.old.items }
    ensures value { targets.new.items ≡ targets.old.items ++ set_of our_sizes (tables config.now) (kept lan.now) ports.now event.now policy_number }
    ensures ready { All CanBeSent targets.new.items }
{
    let filters = config.filters().as_slice();
    if let Some(alarm) = alarm_of(filters, config.actions(), event, policy_number) {
        add_entries(targets, config, lan, ports, policy_number, &alarm);
    }
}

/// Adds the alerts of the entries of this policy number, by the number of the entry.
fn add_entries(
    targets: &mut ArrayVec<Target, TARGETS>,
    config: &Config,
    lan: &Lan,
    ports: &Ports,
    policy_number: u8,
    alarm: &Alarm,
)
    requires room { length targets.old.items + length (set_by our_sizes (tables config.now) (kept lan.now) ports.now policy_number (Some alarm.now)) ≤ 16 }
    requires ready { All CanBeSent targets.old.items }
    ensures value { targets.new.items ≡ targets.old.items ++ set_by our_sizes (tables config.now) (kept lan.now) ports.now policy_number (Some alarm.now) }
    ensures ready { All CanBeSent targets.new.items }
{
    for number in 1..LAST_ENTRY + 1 {
        if let Some(target) = target_at(config, lan, ports, policy_number, number, alarm) {
            targets.push(target);
        }
    }
}

/// The alert for the policy entry of this number, where the entry belongs to the set and its destination is usable.
fn target_at(
    config: &Config,
    lan: &Lan,
    ports: &Ports,
    policy_number: u8,
    number: u8,
    alarm: &Alarm,
) -> Option<Target>
    requires { (1 ≤ number) × (number ≤ 16) }
    ensures value { result ≡ (if is_in_set_of policy_number (tables config.now (Policy number))
        then target_of our_sizes (tables config.now) (kept lan.now) ports.now alarm.now number (tables config.now (Policy number))
        else None) }
    ensures ready { ForSome result CanBeSent }
{
    let Ok(entry) = config.policies().get(number) else {
        return None;
    };
    if !is_in_set(&entry, policy_number) {
        return None;
    }
    let to = destination_of(&entry, lan, ports)?;
    Some(Target {
        policy_number: entry.number(),
        entry: number,
        stop: Stop::of(&entry, to.kind),
        to,
        severity: alarm.severity,
        text: text_of(config, entry.key(), alarm.filter),
    })
}

/// The destination of an entry, where an alert can be sent to it.
fn destination_of(entry: &PolicyEntry, lan: &Lan, ports: &Ports) -> Option<Destination>
    ensures found { result ≡ destination_at ports.now (kept lan.now) (channel entry.now) (destination entry.now) }
    ensures ranges { ForSome result CanBeTried }
{
    lan.destination(ports, entry.channel(), entry.destination())
}

/// Whether an entry belongs to the set of this policy number, and is in force.
fn is_in_set(entry: &PolicyEntry, policy_number: u8) -> bool
    ensures { result ≡ is_in_set_of policy_number entry.now }
{
    entry.number() == policy_number && entry.enabled() && entry.policy() <= LAST_POLICY
}

/// The text that a string key gives to an alert for this filter: none where it names no string.
fn text_of(config: &Config, key: u8, filter: u8) -> Text
    ensures { result ≡ alert_text our_sizes (tables config.now) key filter }
{
    let strings = config.strings();
    match strings.text_for(key, filter) {
        Some(number) => strings.text(number),
        None => Text::new(),
    }
}

//! What the filters that ask for alerts give to them.
ghost use Rattle.std.specs.Prelude.{◌≡◌, ◌≤◌, length, max, min, IfSome, Some, None, MatchOption};
ghost use Rattle.filter_table.specs.Filters.{numbered};
ghost use Rattle.pef_match.specs.Alerts.{asks_alert as asks_alert_of, alarm};

use crate::asked::asks_for_alert;
use event_record::Record;
use filter_table::{Filter, matches};

/// What the filters that ask for an alert by one policy number give to its alerts.
#[derive(Clone, Copy, Debug, PartialEq, Eq)]
pub struct Alarm {
    /// The greatest severity of these filters.
    pub severity: u8,
    /// The least number of these filters, counted from 1, by which alert strings are looked up.
    pub filter: u8,
}

/// What those of these filters give that ask for an alert by this policy number, where there are any.
pub(crate) fn alarm_of(
    filters: &[Filter],
    mask: u8,
    event: &Record,
    policy_number: u8,
) -> Option<Alarm>
    requires { length filters.now ≤ 16 }
    ensures { result ≡ alarm (length filters.now) (numbered filters.now) mask event.now policy_number }
{
    let mut alarm = None;
    let mut number = 0;
    for filter in filters {
        number += 1;
        if asks_alert(filter, mask, event, policy_number) {
            alarm = Some(joined(alarm, filter.severity(), number));
        }
    }
    alarm
}

/// Whether a filter asks for an alert by this policy number: it names the number, its action octet under the mask has
/// the alert bit, and it matches.
fn asks_alert(filter: &Filter, mask: u8, event: &Record, policy_number: u8) -> bool
    ensures { result ≡ asks_alert_of mask event.now policy_number filter.now }
{
    filter.policy_number() == policy_number
        && asks_for_alert(filter.actions() & mask)
        && matches(filter, event)
}

/// What these filters and one more of this severity and number give.
fn joined(alarm: Option<Alarm>, severity: u8, number: u8) -> Alarm
    ensures { MatchOption alarm (result ≡ record { severity = severity; filter = number })
        (λ before. result ≡ record { severity = max before.severity severity; filter = min before.filter number }) }
{
    match alarm {
        Some(alarm) => Alarm {
            severity: alarm.severity.max(severity),
            filter: alarm.filter.min(number),
        },
        None => Alarm {
            severity,
            filter: number,
        },
    }
}

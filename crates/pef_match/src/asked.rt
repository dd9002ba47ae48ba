//! What the matching filters ask for.
ghost use Rattle.std.specs.Prelude.{◌≡◌, ◌==◌, ◌<◌, ℕ, bit_and, if◌then◌else◌};
ghost use Rattle.filter_table.specs.BitTest.{is_match};
ghost use Rattle.filter_table.specs.Entry.{actions};
ghost use Rattle.std.specs.Int.{bit_at};
ghost use Rattle.pef_match.specs.Job.{asked_by as asked_by_of, has_bit, act_by};

use board_core::Act;
use event_record::Record;
use filter_table::{Filter, matches};

/// The bits of a filter's actions (IPMI 2.0, section 17.7), by their numbers.
const ALERT: u8 = 0;

const POWER_DOWN: u8 = 1;

const RESET: u8 = 2;

const POWER_CYCLE: u8 = 3;

const OEM: u8 = 4;

const DIAGNOSTIC: u8 = 5;

/// The actions that one of the matching filters at least asks for, under the mask.
pub(crate) fn asked_by(filters: &[Filter], mask: u8, event: &Record) -> u8
    ensures { (n : ℕ) → (bit_at result n == 1) ≡ has_bit (asked_by_of filters.now mask event.now) n }
{
    let mut asked = 0;
    for filter in filters {
        asked |= asked_of(filter, mask, event);
    }
    asked
}

/// The actions that one filter asks for under the mask, none where it doesn't match.
fn asked_of(filter: &Filter, mask: u8, event: &Record) -> u8
    ensures { result ≡ (if is_match filter.now event.now then bit_and (actions filter.now) mask else 0) }
{
    if matches(filter, event) {
        filter.actions() & mask
    } else {
        0
    }
}

/// The one act of these actions, by priority.
pub(crate) fn act_of(asked: u8) -> Option<Act>
    ensures { result ≡ act_by (λ n. bit_at asked n == 1) }
{
    if is_asked(asked, POWER_DOWN) {
        Some(Act::PowerDown)
    } else if is_asked(asked, POWER_CYCLE) {
        Some(Act::PowerCycle)
    } else if is_asked(asked, RESET) {
        Some(Act::Reset)
    } else if is_asked(asked, DIAGNOSTIC) {
        Some(Act::DiagInt)
    } else {
        None
    }
}

/// Whether the OEM action is among these actions.
pub(crate) fn has_oem(asked: u8) -> bool
    ensures { result ≡ (bit_at asked 4 == 1) }
{
    is_asked(asked, OEM)
}

/// Whether an alert is among these actions.
pub(crate) fn asks_for_alert(actions: u8) -> bool
    ensures { result ≡ (bit_at actions 0 == 1) }
{
    is_asked(actions, ALERT)
}

/// Whether the action of this bit is among these actions.
fn is_asked(asked: u8, bit: u8) -> bool
    requires { bit < 8 }
    ensures { result ≡ (bit_at asked bit == 1) }
{
    (asked >> bit) & 1 == 1
}

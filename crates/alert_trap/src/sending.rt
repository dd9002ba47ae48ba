//! The octets of an alert's trap.
ghost use Rattle.std.specs.Prelude.{◌≡◌, ◌<◌, ◌≤◌, ◌^◌, length, option_copied};
ghost use Rattle.snmp_trap.specs.Grammar.{IsBody, IsTrap};
ghost use Rattle.snmp_trap.specs.Shortest.{Shortest};
ghost use Rattle.snmp_trap.specs.Spelling.{fields};
ghost use Rattle.alert_trap.specs.Trap.{alert_body, trap_for, trap_octets};

use crate::draw::Draw;
use crate::origin::Origin;
use board_core::{Community, Octets, Text};
use event_record::Record;
use pet_body::{Body, Identity, body_of, specific_of};
use snmp_trap::{Trap, encode};

/// The body of an alert's trap.
fn alert_body(
    origin: &Origin,
    draw: &Draw,
    event: Option<&Record>,
    severity: u8,
    text: &Text,
) -> Body
    ensures { result ≡ alert_body origin.now draw.now (option_copied event.entry) severity text.now }
{
    let identity = Identity {
        guid: draw.guid,
        manufacturer: origin.manufacturer,
        system: origin.system,
    };
    body_of(event, &identity, draw.sequence, severity, text)
}

/// The trap of an alert.
fn alert_trap(
    origin: &Origin,
    draw: &Draw,
    event: Option<&Record>,
    severity: u8,
    text: &Text,
    community: &Community,
) -> Trap
    ensures trap { fields result
        ≡ trap_for origin.now draw.now (option_copied event.entry) severity text.now community.now }
    ensures body { IsBody result.body }
    ensures specific { result.specific < 2 ^ 24 }
{
    Trap {
        community: community.copy(),
        agent: origin.agent,
        specific: specific_of(event),
        ticks: draw.stamp,
        body: alert_body(origin, draw, event, severity, text).write(),
    }
}

/// The datagram of an alert: the Platform Event Trap (PET 1.0) of the event, or of an alert without a record, with this
/// severity (as in the event filter table), text and community. It has at most 190 octets.
pub fn trap_of(
    origin: &Origin,
    draw: &Draw,
    event: Option<&Record>,
    severity: u8,
    text: &Text,
    community: &Community,
) -> Octets
    ensures octets { result
        ≡ trap_octets origin.now draw.now (option_copied event.entry) severity text.now community.now }

    // It is the shortest spelling of the trap, and is read as this trap.
    ensures shortest { Shortest
        (trap_for origin.now draw.now (option_copied event.entry) severity text.now community.now) result }
    ensures read_again { IsTrap result
        (trap_for origin.now draw.now (option_copied event.entry) severity text.now community.now) }
    ensures length { length result ≤ 190 }
{
    let trap = alert_trap(origin, draw, event, severity, text, community);
    let mut octets = Octets::new();
    encode(&trap, &mut octets);
    octets
}

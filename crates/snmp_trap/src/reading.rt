//! A trap message is read: RFC 1157, sections 4 and 4.1.6.
ghost use Rattle.std.specs.Prelude.{◌≡◌, ℕ, IfOk, IfErr, IsOkAnd, IsErrAnd, is_some, option_map};
ghost use Rattle.snmp_trap.specs.declared.refusal.Why.{Why};
ghost use Rattle.snmp_trap.specs.Grammar.{Seen, IsTrap};
ghost use Rattle.snmp_trap.specs.Refusals.{refusal, RefusedTrap, one};
ghost use Rattle.snmp_trap.specs.Reading.{Gives, named_at, binding_at, list_at, trap_part_at, message_at, read, seen};

use crate::contents::BODY_NAME;
use crate::element::{Element, Reader, Tags};
use crate::refusal::{Refusal, Why};
use crate::trap::TrapView;

const INTEGER: Tags = Tags::One(0x02);

const OCTET_STRING: Tags = Tags::One(0x04);

const OBJECT_IDENTIFIER: Tags = Tags::One(0x06);

const SEQUENCE: Tags = Tags::One(0x30);

const NETWORK_ADDRESS: Tags = Tags::One(0x40);

const TIME_TICKS: Tags = Tags::One(0x43);

const TRAP: Tags = Tags::One(0xA4);

/// What stands behind a binding's name: a body where the name counts, else any value.
#[tactic(auto, unfolding(crate::specs::Reading::named_at))]
fn named(rest: Reader<'_>, counts: bool) -> Result<Option<&[u8]>, Refusal>
    ensures { Gives (option_map (λ b. b.now)) result (named_at counts rest.entry.at rest.entry.octets.now) }
{
    if counts {
        let (value, rest) = rest.element(OCTET_STRING)?;
        let body = value.body()?;
        rest.ended()?;
        Ok(Some(body))
    } else {
        let (_, rest) = rest.element(Tags::AnyValue)?;
        rest.ended()?;
        Ok(None)
    }
}

/// A binding's value, where its name counts: that of the body, which no binding before it has where none is `found`.
#[tactic(auto, unfolding(crate::specs::Reading::binding_at))]
fn binding<'a>(binding: &Element<'a>, found: bool) -> Result<Option<&'a [u8]>, Refusal>
    ensures { Gives (option_map (λ b. b.now)) result (binding_at found binding.now.at binding.now.inside.at binding.now.inside.octets.now) }
{
    let (name, rest) = binding.inside.element(OBJECT_IDENTIFIER)?;
    let counts = !found && name.inside.octets == BODY_NAME.as_slice();
    named(rest, counts)
}

/// The value of the first binding with the name of the body.
fn body<'a>(list: &Element<'a>) -> Result<&'a [u8], Refusal>
    ensures { Gives (λ b. b.now) result (list_at list.now.at list.now.inside.at list.now.inside.octets.now) }
{
    let mut body = None;
    let mut rest = list.inside;
    while !rest.octets.is_empty() {
        let (next, after) = rest.element(SEQUENCE)?;
        body = binding(&next, body.is_some())?.or(body);
        rest = after;
    }
    body.ok_or(Refusal {
        at: list.at,
        why: Why::NoBinding,
    })
}

/// The trap itself, for a message of this community.
#[tactic(auto, unfolding(crate::specs::Reading::trap_part_at))]
fn trap_part<'a>(trap: &Element<'a>, community: &'a [u8]) -> Result<TrapView<'a>, Refusal>
    ensures { Gives seen result (trap_part_at community.now trap.now.at trap.now.inside.at trap.now.inside.octets.now) }
{
    let (enterprise, rest) = trap.inside.element(OBJECT_IDENTIFIER)?;
    enterprise.enterprise()?;
    let (agent, rest) = rest.element(NETWORK_ADDRESS)?;
    let agent = agent.agent()?;
    let (generic, rest) = rest.element(INTEGER)?;
    generic.this(6, Why::Generic)?;
    let (specific, rest) = rest.element(INTEGER)?;
    let specific = specific.number()?;
    let (ticks, rest) = rest.element(TIME_TICKS)?;
    let ticks = ticks.number()?;
    let (list, rest) = rest.element(SEQUENCE)?;
    let body = body(&list)?;
    rest.ended()?;
    Ok(TrapView {
        community,
        agent,
        specific,
        ticks,
        body,
    })
}

#[tactic(auto, unfolding(crate::specs::Reading::message_at))]
fn message<'a>(message: &Element<'a>) -> Result<TrapView<'a>, Refusal>
    ensures { Gives seen result (message_at message.now.at message.now.inside.at message.now.inside.octets.now) }
{
    let (version, rest) = message.inside.element(INTEGER)?;
    version.this(0, Why::Version)?;
    let (community, rest) = rest.element(OCTET_STRING)?;
    let (trap, rest) = rest.element(TRAP)?;
    let view = trap_part(&trap, community.inside.octets)?;
    rest.ended()?;
    Ok(view)
}

#[tactic(auto, unfolding(crate::specs::Reading::read))]
fn read(octets: &[u8]) -> Result<TrapView<'_>, Refusal>
    ensures { Gives seen result (read octets.now) }
{
    let input = Reader { at: 0, octets };
    let past = Refusal {
        at: octets.len(),
        why: Why::Truncated,
    };
    let (outermost, rest) = input.element_or(SEQUENCE, past)?;
    let view = message(&outermost)?;
    rest.ended()?;
    Ok(view)
}

/// The trap message that the octets are, all of them, borrowed from them.
///
/// Lengths may be longer than needed, the community may have any length, and other bindings may stand beside the
/// body's, of which the first counts. What isn't a trap message is refused for the first thing that is wrong. Which octets are
/// taken beside a sender's usual ones, and how a refusal is named, is this project's rule: `02 01 FF` is read as 255.
pub fn decode(octets: &[u8]) -> Result<TrapView<'_>, Refusal>
    // What is read stands there.
    ensures view { IfOk result (λ v. IsTrap octets.now (seen v)) }
    // What stands there is read.
    ensures every_view { (v : Seen) → IsTrap octets.now v → IsOkAnd result (λ w. seen w ≡ v) }
    ensures refused { IfErr result (λ r. RefusedTrap octets.now r.why r.at) }
    ensures every_refusal { (why : Why) (at : ℕ) → RefusedTrap octets.now why at → IsErrAnd result (λ r. r ≡ refusal at why) }
{
    read(octets)
}

//! Replies to commands.
ghost use Rattle.std.specs.Prelude.{◌≡◌, ◌+◌, ◌≤◌, ◌∷◌, [], ◌++◌, length, option_copied};
ghost use Rattle.std.specs.Int.{to_le_bytes, w16};
ghost use Rattle.pef_core.specs.Replies.{capabilities, cleared, timer_octet as timer_octet_of, stamp_octets as stamp_octets_of, newest_stamp, id_or as id_or_of};

use crate::postpone::Postpone;
use board_core::Octets;
use event_record::Record;

/// Completion code: the command was carried out.
pub(crate) const DONE: u8 = 0x00;

/// The reply of this completion code alone.
pub(crate) fn code_alone(code: u8) -> Octets
    ensures { result ≡ code ∷ [] }
{
    let mut reply = Octets::new();
    reply.push(code);
    reply
}

/// The reply that the command was carried out, with these octets.
pub(crate) fn done_with(octets: &[u8]) -> Octets
    requires { length octets.now ≤ 10 }
    ensures { result ≡ 0x00 ∷ octets.now }
{
    let mut reply = code_alone(DONE);
    reply.extend(octets);
    reply
}

/// What the controller can do (IPMI 2.0, section 30.1): version 1.5 of PEF, the actions of bits 5 to 0, and 16 filters.
pub(crate) fn capabilities() -> Octets
    ensures { result ≡ capabilities.octets }
{
    done_with(&[0x51, 0x3F, 0x10])
}

/// The reply that the log is cleared (IPMI 2.0, section 31.9).
pub(crate) fn cleared() -> Octets
    ensures { result ≡ 0x00 ∷ cleared }
{
    done_with(&[0x01])
}

/// How the postpone timer stands (IPMI 2.0, section 30.2).
pub(crate) fn timer_octet(timer: Postpone) -> u8
    ensures { result ≡ timer_octet_of timer }
{
    match timer {
        Postpone::Disabled => 0xFE,
        Postpone::Seconds(left) => left,
    }
}

/// The reply to Get Last Processed Event ID (IPMI 2.0, section 30.6): the record that was added last, the ID that software says, and the
/// record at the mark.
pub(crate) fn last_processed(
    newest: Option<&Record>,
    software: u16,
    processed: Option<&Record>,
) -> Octets
    ensures { result ≡ 0x00 ∷ (stamp_octets_of (newest_stamp (option_copied newest.entry))
        ++ to_le_bytes w16 (id_or_of 0xFFFF (option_copied newest.entry))
        ++ to_le_bytes w16 software
        ++ to_le_bytes w16 (id_or_of 0x0000 (option_copied processed.entry))) }
{
    let mut reply = done_with(&stamp_octets(newest));
    reply.extend(&id_or(0xFFFF, newest).to_le_bytes());
    reply.extend(&software.to_le_bytes());
    reply.extend(&id_or(0x0000, processed).to_le_bytes());
    reply
}

// The time-stamp of a record, FFFFFFFFh where there is none.
fn stamp_octets(event: Option<&Record>) -> [u8; 4]
    ensures { result ≡ stamp_octets_of (newest_stamp (option_copied event.entry)) }
{
    let Some(event) = event else {
        return [0xFF; 4];
    };
    match event.stamp() {
        Some(stamp) => stamp.to_le_bytes(),
        None => [0xFF; 4],
    }
}

/// The ID of a record, and this one where there is none.
pub(crate) fn id_or(none: u16, event: Option<&Record>) -> u16
    ensures { result ≡ id_or_of none (option_copied event.entry) }
{
    match event {
        Some(event) => event.id(),
        None => none,
    }
}

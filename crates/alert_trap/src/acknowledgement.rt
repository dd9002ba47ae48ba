//! The acknowledgement that is awaited for a trap.
ghost use Rattle.std.specs.Prelude.{◌≡◌, option_copied};
ghost use Rattle.alert_trap.specs.Acknowledgement.{ack_awaited};

use board_core::Text;
use event_record::Record;
use pet_body::{Identity, PetAck, body_of, pet_ack_of};

/// An acknowledgement doesn't name the system, so any identity does.
const ANY_SYSTEM: Identity = Identity {
    guid: [0; 16],
    manufacturer: 0,
    system: 0,
};

/// The acknowledgement of the trap with this sequence number, of this event or of an alert without a record: what a console
/// sends back by PET Acknowledge (IPMI 2.0, section 30.8).
pub fn awaited(sequence: u16, event: Option<&Record>) -> PetAck
    ensures { result ≡ ack_awaited sequence (option_copied event.entry) }
{
    pet_ack_of(&body_of(event, &ANY_SYSTEM, sequence, 0, &Text::new()))
}

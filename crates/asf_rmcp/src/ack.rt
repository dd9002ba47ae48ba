//! The frame that acknowledges a trap.
ghost use Rattle.std.specs.Prelude.{◌≡◌, length};
ghost use Rattle.asf_rmcp.specs.Layout.{IsLan};
ghost use Rattle.asf_rmcp.specs.Writing.{ack_message, lan_frame};

use crate::lan_writing::lan_write;
use crate::message::LanMessage;
use board_core::{Bytes, Octets};
use pet_body::PetAck;

/// The message of the request PET Acknowledge.
fn request(ack: &PetAck) -> LanMessage
    ensures message { result ≡ ack_message ack.now }
    ensures payload { length result.payload ≡ 12 }
{
    let mut payload = Bytes::new();
    payload.extend(&ack.sequence.to_le_bytes());
    payload.extend(&ack.timestamp.to_le_bytes());
    payload.extend(&[ack.event_source, ack.device, ack.sensor]);
    payload.extend(&ack.event_data);
    LanMessage {
        to: 0x20,
        netfn_lun: 0x10,
        sender: 0x81,
        seq_lun: 4 * (ack.sequence % 64) as u8,
        cmd: 0x17,
        payload,
    }
}

/// The frame that acknowledges a trap to its sender: the request PET Acknowledge (IPMI 2.0, section 30.8), of 33 octets.
pub fn ack_frame(ack: &PetAck) -> Octets
    ensures octets { result ≡ lan_frame (ack_message ack.now) }
    // What is written is read as this request.
    ensures read_again { IsLan result (ack_message ack.now) }
    ensures length { length result ≡ 33 }
{
    lan_write(&request(ack))
}

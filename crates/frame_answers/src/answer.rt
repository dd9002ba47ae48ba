//! What comes of a frame.

use crate::kind::FrameKind;
use crate::replies::Replies;
use pet_body::PetAck;

/// What a frame asks of the controller, and what is answered.
#[derive(Drop)]
pub struct Answered {
    /// What is asked.
    pub kind: FrameKind,
    /// The datagrams that are due, in order, all of them to the frame's sender.
    pub replies: Replies,
    /// The acknowledgement of a trap that is to be carried out.
    pub ack: Option<PetAck>,
}

//! Frames are answered.
ghost use Rattle.std.specs.Prelude.{◌≡◌, ◌∷◌, []};
ghost use Rattle.board_core.specs.declared.step.Step.TheVariants.{Datagram};
ghost use Rattle.asf_rmcp.specs.declared.packet.Packet.TheVariants.{Ping};
ghost use Rattle.asf_rmcp.specs.Writing.{lan_frame};
ghost use Rattle.frame_answers.specs.Answers.{kind_of as kind_in, pong_replies, response_to, asked_by, completion, acknowledged, answered as answer_of};

use crate::answer::Answered;
use crate::kind::FrameKind;
use crate::reading::{ping, request};
use crate::replies::Replies;
use asf_rmcp::{LanMessage, ack_of, lan_write, pong};
use board_core::{Address, Bytes, Octets, Step};
use pef_commands::{Command, Request, parse};
use pet_body::PetAck;

/// What these octets ask of the controller.
pub fn kind_of(octets: &[u8]) -> FrameKind
    ensures { result ≡ kind_in octets.now }
{
    if ping(octets).is_some() {
        return FrameKind::Ping;
    }
    if request(octets).is_some() {
        return FrameKind::Command;
    }
    FrameKind::Nothing
}

/// What these octets, which came from this address, ask of the controller, and what is answered.
///
/// A presence ping is answered by a pong, and before it by an RMCP acknowledgement where the ping's sequence number isn't
/// FFh. The request PET Acknowledge is answered with a completion code: 00h, or C7h where its payload hasn't 12 octets.
pub fn answered(from: Address, octets: &[u8]) -> Answered
    ensures kind { result.kind ≡ (answer_of from octets.now).kind }
    ensures replies { result.replies ≡ (answer_of from octets.now).replies }
    ensures ack { result.ack ≡ (answer_of from octets.now).ack }
{
    if let Some((sequence, tag)) = ping(octets) {
        return Answered {
            kind: FrameKind::Ping,
            replies: pong_to(from, sequence, tag),
            ack: None,
        };
    }
    if let Some(message) = request(octets) {
        let (code, ack) = carried_out(&message);
        return Answered {
            kind: FrameKind::Command,
            replies: response(from, &message, code),
            ack,
        };
    }
    Answered {
        kind: FrameKind::Nothing,
        replies: Replies::new(),
        ack: None,
    }
}

/// The pong of a ping, with an RMCP acknowledgement before it unless the sequence number is FFh.
fn pong_to(from: Address, sequence: u8, tag: u8) -> Replies
    ensures { result ≡ pong_replies from (Ping sequence tag) }
{
    let answer = datagram(from, pong(tag).write());
    if sequence == 0xFF {
        return Replies::one(answer);
    }
    Replies::two(datagram(from, ack_of(sequence, 0x06).write()), answer)
}

fn datagram(to: Address, octets: Octets) -> Step
    ensures { result ≡ Datagram to octets }
{
    Step::Datagram { to, octets }
}

/// The completion code of the request PET Acknowledge, and the acknowledgement that it carries.
fn carried_out(message: &LanMessage) -> (u8, Option<PetAck>)
    ensures code { result.0 ≡ completion (asked_by message.now) }
    ensures ack { result.1 ≡ acknowledged (asked_by message.now) }
{
    message.payload.fits();
    let Some(request) = Request::read(0x04, 0x17, message.payload.as_slice()) else {
        unreachable!()
    };
    match parse(&request) {
        Ok(Command::Acknowledge(ack)) => (0x00, Some(ack)),
        Ok(_) => (0x00, None),
        Err(code) => (code, None),
    }
}

/// The response to a request: its addresses are exchanged, and network function 05h stands in bits 7:2.
fn response(from: Address, request: &LanMessage, code: u8) -> Replies
    ensures { result ≡ Datagram from (lan_frame (response_to request.now code)) ∷ [] }
{
    let mut payload = Bytes::new();
    payload.push(code);
    let response = LanMessage {
        to: request.sender,
        netfn_lun: 0x14,
        sender: request.to,
        seq_lun: request.seq_lun,
        cmd: request.cmd,
        payload,
    };
    Replies::one(datagram(from, lan_write(&response)))
}

//! RMCP frames are written.
ghost use Rattle.std.specs.Prelude.{◌≡◌, ◌+◌, ◌≤◌, ◌++◌, length};
ghost use Rattle.asf_rmcp.specs.Layout.{IsPacket};
ghost use Rattle.asf_rmcp.specs.Writing.{IsWritable, frame_of};

use crate::header::{ASF, VERSION};
use crate::packet::Packet;
use crate::reading::{ENTERPRISE, PING, PONG};
use board_core::Octets;

/// Appends octets.
pub fn put(out: &mut Octets, part: &[u8])
    requires { length out.old + length part.now ≤ 512 }
    ensures { out.new ≡ out.old ++ part.now }
{
    out.extend(part);
}

fn frame(packet: &Packet) -> Octets
    requires { IsWritable packet.now }
    ensures { result ≡ frame_of packet.now }
{
    let mut out = Octets::new();
    match *packet {
        Packet::Ack { sequence, class } => put(&mut out, &[VERSION, 0, sequence, 0x80 + class]),
        Packet::Ping { sequence, tag } => {
            put(&mut out, &[VERSION, 0, sequence, ASF]);
            put(&mut out, &ENTERPRISE);
            put(&mut out, &[PING, tag, 0, 0]);
        }
        Packet::Pong {
            sequence,
            tag,
            entities,
        } => {
            put(&mut out, &[VERSION, 0, sequence, ASF]);
            put(&mut out, &ENTERPRISE);
            put(&mut out, &[PONG, tag, 0, 16]);
            put(&mut out, &ENTERPRISE);
            put(&mut out, &[0, 0, 0, 0, entities, 0, 0, 0, 0, 0, 0, 0]);
        }
        Packet::Ipmi { .. } => unreachable!(),
    }
    out
}

impl Packet {
    /// The octets of the frame, reserved ones 0. An acknowledgement's class is 06h or 07h, and a frame of class IPMI is
    /// written by `lan_write`.
    pub fn write(&self) -> Octets
        requires { IsWritable self.now }
        ensures octets { result ≡ frame_of self.now }
        // What is written is read as this frame.
        ensures read_again { IsPacket result self.now }
    {
        frame(self)
    }
}

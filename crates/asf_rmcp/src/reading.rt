//! RMCP frames are read: ASF 2.0, section 3.2.
ghost use Rattle.std.specs.Prelude.{◌≡◌, ℕ, IfOk, IfErr};
ghost use Rattle.std.specs.Result.{result_err};
ghost use Rattle.asf_rmcp.specs.declared.packet.Packet.{Packet};
ghost use Rattle.asf_rmcp.specs.declared.fault.FrameWhy.{FrameWhy};
ghost use Rattle.asf_rmcp.specs.Layout.{IsPacket};
ghost use Rattle.asf_rmcp.specs.Refusals.{fault, first, asf_rows, packet_fault, RefusedPacket};
ghost use Rattle.asf_rmcp.specs.Columns.{asf_in, packet_in};

use crate::fault::{FrameFault, FrameWhy, ensure};
use crate::header::{ASF, IPMI, header};
use crate::packet::Packet;

/// 4542, the enterprise number of ASF.
pub const ENTERPRISE: [u8; 4] = [0x00, 0x00, 0x11, 0xBE];

/// The type of a presence ping.
pub const PING: u8 = 0x80;

/// The type of a presence pong.
pub const PONG: u8 = 0x40;

/// The ping or the pong in a frame of class ASF.
fn asf(octets: &[u8]) -> Result<Packet, FrameFault>
    ensures refused { result_err result ≡ first (asf_rows octets.now) }
    ensures packet { IfOk result (λ p. p ≡ asf_in octets.now) }
{
    let short = FrameFault::new(octets.len(), FrameWhy::Short);
    let [_, _, sequence, _, a, b, c, d, rest @ ..] = octets else {
        return Err(short);
    };
    ensure([*a, *b, *c, *d] == ENTERPRISE, 4, FrameWhy::Enterprise)?;
    let [kind, rest @ ..] = rest else {
        return Err(short);
    };
    ensure(*kind == PING || *kind == PONG, 8, FrameWhy::Kind)?;
    let [tag, _, length, data @ ..] = rest else {
        return Err(short);
    };
    let wanted = if *kind == PONG { 16 } else { 0 };
    ensure(usize::from(*length) == wanted, 11, FrameWhy::Length)?;
    if data.len() < wanted {
        return Err(short);
    }
    ensure(data.len() <= wanted, 12 + wanted, FrameWhy::Trailing)?;
    let (sequence, tag) = (*sequence, *tag);
    match data {
        [] => Ok(Packet::Ping { sequence, tag }),
        [_, _, _, _, _, _, _, _, entities, ..] => Ok(Packet::Pong {
            sequence,
            tag,
            entities: *entities,
        }),
        _ => unreachable!(),
    }
}

fn packet(octets: &[u8]) -> Result<Packet, FrameFault>
    ensures refused { result_err result ≡ packet_fault octets.now }
    ensures packet { IfOk result (λ p. p ≡ packet_in octets.now) }
{
    let (sequence, class) = header(octets)?;
    match class {
        ASF => asf(octets),
        IPMI => Ok(Packet::Ipmi { sequence }),
        _ if octets.len() > 4 => Err(FrameFault::new(4, FrameWhy::Trailing)),
        _ => Ok(Packet::Ack {
            sequence,
            class: class & 0x7F,
        }),
    }
}

impl Packet {
    /// What the octets say as an RMCP frame, all of them: an acknowledgement, a ping, a pong, or that they are of class
    /// IPMI, of which the header alone is looked at.
    ///
    /// Octets that are no such frame are refused for the first thing that is wrong.
    pub fn read(octets: &[u8]) -> Result<Packet, FrameFault>
        // What is read stands there.
        ensures packet { IfOk result (IsPacket octets.now) }
        // What stands there is read.
        ensures every_packet { (p : Packet) → IsPacket octets.now p → result ≡ Ok p }
        ensures refused { IfErr result (λ f. RefusedPacket octets.now f.why f.at) }
        ensures every_refusal { (why : FrameWhy) (at : ℕ) → RefusedPacket octets.now why at → result ≡ Err (fault at why) }
    {
        packet(octets)
    }
}

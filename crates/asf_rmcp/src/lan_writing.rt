//! LAN messages are written: IPMI 2.0, chapter 13.
ghost use Rattle.std.specs.Prelude.{◌≡◌, ◌+◌, ◌≤◌, length};
ghost use Rattle.asf_rmcp.specs.Layout.{IsLan};
ghost use Rattle.asf_rmcp.specs.Writing.{lan_frame};

use crate::checksum::checksum;
use crate::header::{IPMI, VERSION};
use crate::message::LanMessage;
use crate::writing::put;
use board_core::Octets;

fn frame(message: &LanMessage) -> Octets
    ensures octets { result ≡ lan_frame message.now }
    ensures few { length message.now.payload ≤ 64 }
{
    let payload = message.payload.as_slice();
    message.payload.fits();
    let head = [message.to, message.netfn_lun];
    let mut rest = Octets::new();
    put(&mut rest, &[message.sender, message.seq_lun, message.cmd]);
    put(&mut rest, payload);
    let mut out = Octets::new();
    put(&mut out, &[VERSION, 0, 0xFF, IPMI]);
    put(&mut out, &[0; 9]);
    put(&mut out, &[7 + payload.len() as u8]);
    put(&mut out, &head);
    put(&mut out, &[checksum(&head)]);
    put(&mut out, rest.as_slice());
    put(&mut out, &[checksum(rest.as_slice())]);
    out
}

/// The frame that carries a LAN message, without a pad. It asks for no acknowledgement.
pub fn lan_write(message: &LanMessage) -> Octets
    ensures octets { result ≡ lan_frame message.now }
    // What is written is read as this message.
    ensures read_again { IsLan result message.now }
    ensures length { length result ≡ 21 + length message.now.payload }
{
    frame(message)
}

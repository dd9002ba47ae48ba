//! One request.
ghost use Rattle.std.specs.Prelude.{◌≡◌, ◌≤◌, length};
ghost use Rattle.pef_commands.specs.Request.{request_of};

use board_core::Bytes;
use std::marker::Model;

/// The greatest network function: it has six bits.
const LAST_NETFN: u8 = 0x3F;

/// A request: network function, command and at most 64 octets of data (IPMI 2.0, section 5.1; the 64 are this project's).
#[derive(Drop)]
pub struct Request {
    netfn: u8,
    cmd: u8,
    payload: Bytes<64>,
}

impl Model for Request {
    ghost use Rattle.std.specs.Prelude.{◌≤◌, length};
    ghost use Rattle.pef_commands.specs.Request.{Asked};

    ghost Value = { Asked };

    ghost view = { λ r. record { netfn = r.netfn; cmd = r.cmd; payload = r.payload } };

    ghost invariant = { λ r. (r.netfn ≤ 63) × (length r.payload ≤ 64) };
}

impl Request {
    /// The request of these parts. There is none where the network function has more than six bits or there are more than
    /// 64 octets.
    pub fn read(netfn: u8, cmd: u8, payload: &[u8]) -> Option<Request>
        ensures { result ≡ request_of netfn cmd payload.now }
    {
        let mut held = Bytes::new();
        if netfn > LAST_NETFN || !held.extend(payload) {
            return None;
        }
        Some(Request {
            netfn,
            cmd,
            payload: held,
        })
    }

    /// The network function, at most 3Fh.
    pub fn netfn(&self) -> u8
        ensures value { result ≡ self.now.netfn }
        ensures within { result ≤ 63 }
    {
        self.netfn
    }

    /// The command.
    pub fn cmd(&self) -> u8
        ensures { result ≡ self.now.cmd }
    {
        self.cmd
    }

    /// The data, at most 64 octets.
    pub fn payload(&self) -> &[u8]
        ensures value { result.now ≡ self.now.payload }
        ensures within { length result.now ≤ 64 }
    {
        self.payload.as_slice()
    }
}

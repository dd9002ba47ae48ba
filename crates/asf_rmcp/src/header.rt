//! The header of a frame: ASF 2.0, section 3.2, and IPMI 2.0, chapter 13.
ghost use Rattle.std.specs.Prelude.{◌≡◌, slice_index, IfOk};
ghost use Rattle.std.specs.Result.{result_err};
ghost use Rattle.asf_rmcp.specs.Refusals.{first, header_rows};

use crate::fault::{FrameFault, FrameWhy, ensure};

/// RMCP version 1.0.
pub const VERSION: u8 = 0x06;

/// The class of ASF messages.
pub const ASF: u8 = 0x06;

/// The class of IPMI messages.
pub const IPMI: u8 = 0x07;

/// The sequence number and the class octet of a frame.
pub fn header(octets: &[u8]) -> Result<(u8, u8), FrameFault>
    ensures refused { result_err result ≡ first (header_rows octets.now) }
    ensures sequence { IfOk result (λ h. h.0 ≡ slice_index octets.now 2) }
    ensures class { IfOk result (λ h. h.1 ≡ slice_index octets.now 3) }
{
    let short = FrameFault::new(octets.len(), FrameWhy::Short);
    let [version, rest @ ..] = octets else {
        return Err(short);
    };
    ensure(*version == VERSION, 0, FrameWhy::Version)?;
    let [_, sequence, class, ..] = rest else {
        return Err(short);
    };
    match class & 0x7F {
        ASF | IPMI => Ok((*sequence, *class)),
        _ => Err(FrameFault::new(3, FrameWhy::Class)),
    }
}

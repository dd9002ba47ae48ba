//! LAN messages are read: IPMI 2.0, chapter 13.
ghost use Rattle.std.specs.Prelude.{◌≡◌, ℕ, ◌≤◌, ◌∷◌, [], length, slice_index, IfOk, IfErr};
ghost use Rattle.std.specs.Result.{result_err};
ghost use Rattle.asf_rmcp.specs.declared.message.LanMessage.{LanMessage};
ghost use Rattle.asf_rmcp.specs.declared.fault.FrameWhy.{FrameWhy};
ghost use Rattle.asf_rmcp.specs.Layout.{IsLan};
ghost use Rattle.asf_rmcp.specs.Refusals.{fault, first, lan_rows, message_rows, message_of, checked, lan_fault, RefusedLan};
ghost use Rattle.asf_rmcp.specs.Columns.{message_in, lan_in};

use crate::checksum::checksum;
use crate::fault::{FrameFault, FrameWhy, ensure};
use crate::header::{IPMI, header};
use crate::message::LanMessage;
use board_core::Bytes;

/// The octets of the message in a frame with this class octet.
fn message(octets: &[u8], class: u8) -> Result<&[u8], FrameFault>
    requires { class ≡ slice_index octets.now 3 }
    ensures refused { result_err result ≡ first (lan_rows octets.now) }
    ensures message { IfOk result (λ m. m.now ≡ message_of octets.now) }
    ensures least { IfOk result (λ m. 7 ≤ length m.now) }
    ensures most { IfOk result (λ m. length m.now ≤ 71) }
{
    ensure(class == IPMI, 3, FrameWhy::Class)?;
    let short = FrameFault::new(octets.len(), FrameWhy::Short);
    let [_, _, _, _, auth, rest @ ..] = octets else {
        return Err(short);
    };
    ensure(*auth == 0, 4, FrameWhy::Auth)?;
    if rest.len() < 8 {
        return Err(short);
    }
    let (session, rest) = rest.split_at(8);
    ensure(session == [0; 8].as_slice(), 5, FrameWhy::Session)?;
    let [length, rest @ ..] = rest else {
        return Err(short);
    };
    let length = usize::from(*length);
    ensure((7..=71).contains(&length), 13, FrameWhy::Length)?;
    if rest.len() < length {
        return Err(short);
    }
    ensure(rest.len() <= length + 1, 15 + length, FrameWhy::Trailing)?;
    Ok(&rest[..length])
}

/// The octet at this place is the checksum of these.
fn check(at: usize, have: u8, octets: &[u8]) -> Result<(), FrameFault>
    ensures { result_err result ≡ first (checked at have octets.now ∷ []) }
{
    let want = checksum(octets);
    ensure(have == want, at, FrameWhy::Checksum { want, have })
}

/// What the octets of a message say.
fn fields(message: &[u8]) -> Result<LanMessage, FrameFault>
    requires least { 7 ≤ length message.now }
    requires most { length message.now ≤ 71 }
    ensures refused { result_err result ≡ first (message_rows message.now) }
    ensures message { IfOk result (λ m. m ≡ message_in message.now) }
{
    let [to, netfn_lun, first, rest @ .., second] = message else {
        unreachable!()
    };
    check(16, *first, &[*to, *netfn_lun])?;
    check(13 + message.len(), *second, rest)?;
    let [sender, seq_lun, cmd, data @ ..] = rest else {
        unreachable!()
    };
    let mut payload = Bytes::new();
    payload.extend(data);
    Ok(LanMessage {
        to: *to,
        netfn_lun: *netfn_lun,
        sender: *sender,
        seq_lun: *seq_lun,
        cmd: *cmd,
        payload,
    })
}

fn lan(octets: &[u8]) -> Result<LanMessage, FrameFault>
    ensures refused { result_err result ≡ lan_fault octets.now }
    ensures message { IfOk result (λ m. m ≡ lan_in octets.now) }
{
    let (_, class) = header(octets)?;
    fields(message(octets, class)?)
}

/// The LAN message that the octets carry, all of them, in a frame of class IPMI, without authentication and outside a
/// session. One octet may follow it as a pad.
///
/// Octets that carry none are refused for the first thing that is wrong.
pub fn lan_read(octets: &[u8]) -> Result<LanMessage, FrameFault>
    // What is read stands there.
    ensures message { IfOk result (IsLan octets.now) }
    // What stands there is read.
    ensures every_message { (m : LanMessage) → IsLan octets.now m → result ≡ Ok m }
    ensures refused { IfErr result (λ f. RefusedLan octets.now f.why f.at) }
    ensures every_refusal { (why : FrameWhy) (at : ℕ) → RefusedLan octets.now why at → result ≡ Err (fault at why) }
{
    lan(octets)
}

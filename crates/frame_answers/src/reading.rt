//! Which frames ask something of the controller.
ghost use Rattle.std.specs.Prelude.{◌≡◌, IfSome};
ghost use Rattle.std.specs.Option.{is_some};
ghost use Rattle.asf_rmcp.specs.declared.packet.Packet.TheVariants.{Ping};
ghost use Rattle.asf_rmcp.specs.Columns.{packet_in, lan_in};
ghost use Rattle.frame_answers.specs.Asking.{asks_pong, asks_command, is_pet_acknowledge as is_request};

use asf_rmcp::{LanMessage, Packet, lan_read};

/// The sequence number and the tag of a presence ping.
pub fn ping(octets: &[u8]) -> Option<(u8, u8)>
    ensures asks { is_some result ≡ asks_pong octets.now }
    ensures fields { IfSome result (λ p. packet_in octets.now ≡ Ping p.0 p.1) }
{
    match Packet::read(octets) {
        Ok(Packet::Ping { sequence, tag }) => Some((sequence, tag)),
        _ => None,
    }
}

/// The message of the request PET Acknowledge, whatever the length of its payload.
pub fn request(octets: &[u8]) -> Option<LanMessage>
    ensures asks { is_some result ≡ asks_command octets.now }
    ensures message { IfSome result (λ m. m ≡ lan_in octets.now) }
{
    let Ok(message) = lan_read(octets) else {
        return None;
    };
    if is_pet_acknowledge(&message) {
        Some(message)
    } else {
        None
    }
}

/// Whether a message is the request PET Acknowledge to the management controller, 20h.
fn is_pet_acknowledge(message: &LanMessage) -> bool
    ensures { result ≡ is_request message.now }
{
    message.to == 0x20 && message.netfn_lun == 0x10 && message.cmd == 0x17
}

//! What a LAN message says.

use board_core::Bytes;

/// An IPMI message over a LAN, outside a session: IPMI 2.0, chapter 13.
#[derive(Drop)]
pub struct LanMessage {
    /// The address of the responder in a request, of the requester in a response.
    pub to: u8,
    /// The network function in bits 7:2, and the logical unit of the addressee.
    pub netfn_lun: u8,
    /// The sender's address.
    pub sender: u8,
    /// The message's sequence number in bits 7:2, and the logical unit of the sender.
    pub seq_lun: u8,
    /// The command.
    pub cmd: u8,
    /// A request's data, or a completion code and a response's data.
    pub payload: Bytes<64>,
}

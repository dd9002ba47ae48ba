//! What an RMCP frame says.
ghost use Rattle.std.specs.Prelude.{◌≡◌};

/// An RMCP frame: ASF 2.0, section 3.2.
#[derive(Clone, Copy, Debug, PartialEq, Eq)]
pub enum Packet {
    /// An acknowledgement, the header alone.
    Ack {
        /// The sequence number of the frame that is acknowledged.
        sequence: u8,
        /// The class of that frame, 06h or 07h, without bit 7 of the class octet.
        class: u8,
    },
    /// A presence ping.
    Ping {
        /// The frame's sequence number, FFh where no acknowledgement is wanted.
        sequence: u8,
        /// The message tag, which the pong repeats.
        tag: u8,
    },
    /// A presence pong.
    Pong {
        /// The frame's sequence number.
        sequence: u8,
        /// The tag of the ping.
        tag: u8,
        /// The supported entities: 81h is IPMI and ASF 1.0.
        entities: u8,
    },
    /// A frame of class 07h, whatever stands behind its header.
    Ipmi {
        /// The frame's sequence number.
        sequence: u8,
    },
}

/// The pong of this project's controller for a ping with this tag: IPMI and ASF 1.0 are supported.
pub fn pong(tag: u8) -> Packet
    ensures { result ≡ Packet.Pong 0xFF tag 0x81 }
{
    Packet::Pong {
        sequence: 0xFF,
        tag,
        entities: 0x81,
    }
}

/// The acknowledgement of a frame with this sequence number and this class, 06h or 07h.
pub fn ack_of(sequence: u8, class: u8) -> Packet
    ensures { result ≡ Packet.Ack sequence class }
{
    Packet::Ack { sequence, class }
}

//! RMCP frames: acknowledgements, presence pings and pongs, and LAN messages, read and written.
#![tactic(auto)]

mod ack;
mod checksum;
mod fault;
mod header;
mod lan_reading;
mod lan_writing;
mod laws;
mod message;
mod packet;
mod reading;
mod writing;

pub use ack::ack_frame;
pub use fault::{FrameFault, FrameWhy};
pub use lan_reading::lan_read;
pub use lan_writing::lan_write;
pub use laws::{one_message, one_packet};
pub use message::LanMessage;
pub use packet::{Packet, ack_of, pong};

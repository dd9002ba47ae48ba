//! The devices that the program runs on: a state file with its plant, a file that is read, a feed by UDP, and standard output.
#![tactic(auto)]

mod failure;
mod faults;
mod file_board;
mod file_id;
mod file_source;
mod held_file;
mod lines;
mod plant;
mod seconds;
mod sender;
mod standard_streams;
mod std_sink;
mod udp_feed;

pub use failure::{Call, Failure};
pub use file_board::FileBoard;
pub use file_id::FileId;
pub use file_source::FileSource;
pub use held_file::{HeldFile, HoldFault};
pub use plant::Plant;
pub use standard_streams::StandardStreams;
pub use std_sink::StdSink;
pub use udp_feed::UdpFeed;

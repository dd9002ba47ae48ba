//! What the program sees of the outside: octet lists, steps, and the traits of a board, a source, a sink and a feed.
#![tactic(auto)]

mod board;
mod bytes;
mod call;
mod crash;
mod failures;
mod feed;
mod file;
mod leaving;
mod lists;
mod memory_board;
mod memory_feed;
mod memory_sink;
mod memory_source;
mod sink;
mod source;
mod step;
mod trace;

pub use board::{Board, DiskFailed};
pub use bytes::Bytes;
pub use feed::{Arrival, Feed};
pub use lists::{Community, Octets, Payload, Text, community_of, octets_of, payload_of, text_of};
pub use memory_board::MemBoard;
pub use memory_feed::MemFeed;
pub use memory_sink::MemSink;
pub use memory_source::MemSource;
pub use sink::{Sink, SinkFailed};
pub use source::{Source, SourceFailed};
pub use step::{Act, Address, Sent, Step, Told};

//! A board over a board that reads ahead, so that many small reads cost few calls of it.
#![tactic(auto)]

mod read_ahead;
mod window;

pub use read_ahead::ReadAhead;

//! Worked cases, in tests alone. Frames and what answers them: each table against values worked out by hand.
#![tactic(auto)]

#[cfg(test)]
mod answers;
#[cfg(test)]
mod frames;

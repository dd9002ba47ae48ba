//! Runs of a small machine that has a limit of its own and takes memory for its items.
mod crash;
mod limit;
mod reading;
mod shelf;

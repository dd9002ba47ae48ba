//! Worked cases, in tests alone. Runs of scripts and feeds, and the machines: each table against values worked out by hand.
#![tactic(auto)]

#[cfg(test)]
mod console;
#[cfg(test)]
mod controller;
#[cfg(test)]
mod feeds;
#[cfg(test)]
mod jobs;
#[cfg(test)]
mod scripts;

//! Worked cases, in tests alone. Traps, their bodies and alert traps: each table against values worked out by hand.
#![tactic(auto)]

#[cfg(test)]
mod alerts;
#[cfg(test)]
mod bodies;
#[cfg(test)]
mod traps;

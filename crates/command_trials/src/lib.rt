//! Worked cases, in tests alone. Commands and parameters: each table against values worked out by hand.
#![tactic(auto)]

#[cfg(test)]
mod commands;
#[cfg(test)]
mod parameters;

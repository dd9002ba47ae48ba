//! Worked cases, in tests alone. The objects in memory, the journal and the engine: each table against values worked out by hand.
#![tactic(auto)]

#[cfg(test)]
mod crashes;
#[cfg(test)]
mod engine;
#[cfg(test)]
mod journal;
#[cfg(test)]
mod objects;

//! Worked cases, in tests alone. Destinations, attempts, jobs and the alerts of a record: each table against values worked out by hand.
#![tactic(auto)]

#[cfg(test)]
mod alerts;
#[cfg(test)]
mod attempts;
#[cfg(test)]
mod jobs;
#[cfg(test)]
mod lan;

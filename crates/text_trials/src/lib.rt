//! Worked cases, in tests alone. Lines, reports and settings: each table against values worked out by hand.
#![tactic(auto)]

#[cfg(test)]
mod documents;
#[cfg(test)]
mod ports;
#[cfg(test)]
mod reports;
#[cfg(test)]
mod scripts;
#[cfg(test)]
mod settings;

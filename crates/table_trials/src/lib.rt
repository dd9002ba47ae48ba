//! Worked cases, in tests alone. Records, filters, policies and strings: each table against values worked out by hand.
#![tactic(auto)]

#[cfg(test)]
mod filters;
#[cfg(test)]
mod policies;
#[cfg(test)]
mod records;
#[cfg(test)]
mod strings;
#[cfg(test)]
mod walks;

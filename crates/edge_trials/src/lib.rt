//! Worked cases, in tests alone. Calls at their edges: full files, odd words, out of memory, a crash behind a crash.
#![tactic(auto)]

#[cfg(test)]
mod calls;

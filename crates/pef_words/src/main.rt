//! Lines with events, and their sentences behind them.
#![tactic(auto)]

mod codes;
mod lines;
mod numbers;
mod program;
mod said;
mod starting;
mod std_source;
mod wording;

use starting::start;
use std::process::ExitCode;

fn main(rt: HostRuntime) -> ExitCode {
    ExitCode::from(start(&rt))
}

#[cfg(test)]
mod tests;

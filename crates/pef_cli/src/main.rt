//! Platform event filtering from the command line.
#![tactic(auto)]

mod asked;
mod no_start;
mod opening;
mod remark;
mod starting;
mod state_reader;
mod unformatted;

use pef_call::FORMS;
use starting::start;
use std::process::ExitCode;

// The status at which the forms are shown.
const USAGE: u8 = 2;

fn main(rt: HostRuntime) -> ExitCode {
    let status = start(&rt);
    if status == USAGE {
        for form in FORMS {
            let _ = eprintln!(&rt; "{form}");
        }
    }
    ExitCode::from(status)
}

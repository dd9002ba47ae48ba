//! From the command line to the call.
use crate::program::top;
use crate::std_source::StdSource;
use real_devices::{Failure, StdSink};
use std::{env, io};

// The status at which the form is shown.
const USAGE: u8 = 2;

/// Words the lines of standard input, says on standard error why it stopped where it did, and answers the status. It takes no words.
pub fn start(rt: &HostRuntime) -> u8 {
    if has_words(rt) {
        let _ = eprintln!(rt; "usage: pef_words < LINES");
        return USAGE;
    }
    let mut source = StdSource::new(rt.reader());
    let mut out = StdSink::new(io::writer(rt));
    let status = top(&mut source, &mut out);
    say(rt, "standard input", source.failure());
    say(rt, "standard output", out.failure());
    status
}

// Whether there are words behind the program's name.
fn has_words(rt: &HostRuntime) -> bool {
    match env::args(rt) {
        Ok(words) => words.skip(1).next().is_some(),
        Err(_) => true,
    }
}

fn say(rt: &HostRuntime, name: &str, failure: Option<Failure>) {
    if let Some(failure) = failure {
        let _ = eprintln!(rt; "pef_words: {name}: {failure}");
    }
}

//! Why the trials stop.
use std::alloc::AllocError;

/// Why the trials stop before the end of their text.
#[derive(Clone, Copy, Debug, PartialEq, Eq)]
pub enum Fault {
    /// The line is none of a trial's.
    Line,
    /// There was no memory.
    Memory,
    /// Standard input could not be read, or isn't text.
    Input,
    /// Standard output could not be written.
    Output,
}

impl Fault {
    /// What is said of it.
    pub fn text(self) -> &'static str {
        match self {
            Fault::Line => "bad line",
            Fault::Memory => "no memory",
            Fault::Input => "the input can't be read",
            Fault::Output => "the output can't be written",
        }
    }
}

impl From<AllocError> for Fault {
    fn from(_: AllocError) -> Fault {
        Fault::Memory
    }
}

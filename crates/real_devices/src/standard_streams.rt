//! The descriptors of the standard streams.
use std::fs::File;
use std::os::fd::AsRawFd;
use std::rt::Files;
use std::{fs, io};

// The descriptor of standard error. Those of input and output are 0 and 1.
const LAST: i32 = 2;

/// Keeps the numbers 0, 1 and 2 from any other file while it lives. Where the program was started with one of them closed, the null
/// device stands there, open to read alone: a write to it fails.
#[derive(Drop)]
pub struct StandardStreams {
    _null: [Option<File>; 3],
}

impl StandardStreams {
    /// Takes the numbers that are free. The system gives the lowest free one to each file that is opened, so this goes before all others.
    pub fn take<R: Files<File = File>>(rt: &R) -> io::Result<StandardStreams> {
        Ok(StandardStreams {
            _null: [next_free(rt)?, next_free(rt)?, next_free(rt)?],
        })
    }
}

// The null device, where the lowest free number is that of a standard stream.
fn next_free<R: Files<File = File>>(rt: &R) -> io::Result<Option<File>> {
    let null = fs::open(rt, "/dev/null")?;
    if null.as_raw_fd() <= LAST {
        Ok(Some(null))
    } else {
        Ok(None)
    }
}

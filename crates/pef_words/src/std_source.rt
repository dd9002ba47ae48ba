//! A stream as a source.
ghost use Rattle.std.specs.Prelude.{None};
ghost use Rattle.std.specs.Io.{ReadsAtMost};
ghost use Rattle.board_core.specs.Causes.{IsCount};

use board_core::{Source, SourceFailed};
use real_devices::{Call, Failure};
use std::io;
use std::io::{ErrorKind, Read};

/// A stream that is read from, as standard input. It tells nothing of its content.
#[derive(Drop)]
pub struct StdSource<R> {
    stream: R,
    faults: u64,
    failure: Option<Failure>,
    ghost counted: { IsCount faults },
}

impl<R: Read + Drop> StdSource<R> {
    /// A source over the stream, whose faults count from 0.
    pub fn new(stream: R) -> StdSource<R> {
        StdSource {
            stream,
            faults: 0,
            failure: None,
        }
    }

    /// The first read that failed.
    pub fn failure(&self) -> Option<Failure> {
        self.failure
    }
}

impl<R: Read + Drop> Source for StdSource<R> {
    ghost left = { λ source. None };

    ghost faults = { λ source. source.faults };

    ghost counted = { λ source. source.counted };

    fn read(&mut self, into: &mut [u8]) -> Result<usize, SourceFailed> {
        match read_on(&mut self.stream, into) {
            Ok(count) => Ok(count),
            Err(error) => {
                self.faults = self.faults.saturating_add(1);
                if self.failure.is_none() {
                    self.failure = Some(Failure {
                        call: Call::Read,
                        error,
                    });
                }
                Err(SourceFailed)
            }
        }
    }
}

// Reads, and again where a signal interrupted the call.
fn read_on<R: Read>(reader: &mut R, into: &mut [u8]) -> io::Result<usize>
    ensures { ReadsAtMost result into.new }
{
    for _ in 0..u64::MAX {
        match reader.read(into) {
            Err(error) if error.kind() == ErrorKind::Interrupted => {}
            answer => return answer,
        }
    }
    Err(io::Error::from(ErrorKind::Interrupted))
}

// A stream as a sink.
ghost use Rattle.std.specs.Prelude.{◌≡◌, None, OnOk};
ghost use Rattle.std.specs.Io.KnownBytes.{Appends};
ghost use Rattle.board_core.specs.Causes.{HasCause};

use crate::failure::{Call, Failure};
use crate::faults::{Faults, counted};
use board_core::{Sink, SinkFailed};
use std::io::Write;

/// A stream that is written to, as standard output. It keeps no buffer of its own, and tells nothing of its content.
#[derive(Drop)]
pub struct StdSink<W> {
    stream: W,
    faults: Faults,
}

impl<W: Write + Drop> StdSink<W> {
    ghost use Rattle.real_devices.specs.Devices.{sink_faults};

    /// A sink over the stream, whose faults count from 0.
    pub fn new(stream: W) -> StdSink<W>
        ensures { sink_faults result ≡ 0 }
    {
        StdSink {
            stream,
            faults: Faults::new(),
        }
    }

    /// The first write that failed.
    pub fn failure(&self) -> Option<Failure>
        ensures { result ≡ self.now.faults.first }
    {
        self.faults.first
    }
}

impl<W: Write + Drop> Sink for StdSink<W> {
    ghost use Rattle.real_devices.specs.Devices.{sink_faults};

    ghost written = { λ sink. None };

    ghost faults = { sink_faults };

    ghost counted = { λ sink. sink.faults.counted };

    fn write(&mut self, from: &[u8]) -> Result<(), SinkFailed>
        ensures whole { OnOk result (Appends (W.contents self.old.stream) (W.contents self.new.stream) from.now) }
        ensures cause { HasCause (sink_faults self.old) (sink_faults self.new) result }
    {
        counted(
            self.stream.write_all(from),
            Call::Write,
            &mut self.faults,
            SinkFailed,
        )
    }
}

#[cfg(test)]
mod tests;

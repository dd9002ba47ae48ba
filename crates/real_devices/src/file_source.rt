// A file as a source.
ghost use Rattle.std.specs.Prelude.{None};
ghost use Rattle.std.specs.Io.{ReadsAtMost};

use crate::failure::{Call, Failure};
use crate::faults::{Faults, counted};
use crate::file_id::FileId;
use board_core::{Source, SourceFailed};
use std::fs::File;
use std::io::{ErrorKind, Read};
use std::rt::Files;
use std::{fs, io};

/// A file that is read from its start to its end. It tells nothing of its content.
#[derive(Drop)]
pub struct FileSource {
    file: File,
    faults: Faults,
}

impl FileSource {
    ghost use Rattle.std.specs.Prelude.{◌≡◌, IfOk};
    ghost use Rattle.real_devices.specs.Devices.{source_faults};

    /// Opens the file at `path`, whose faults count from 0.
    pub fn open<R: Files<File = File>>(rt: &R, path: &str) -> io::Result<FileSource>
        ensures { IfOk result (λ source. source_faults source ≡ 0) }
    {
        Ok(FileSource {
            file: fs::open(rt, path)?,
            faults: Faults::new(),
        })
    }

    /// Which file of the system it is.
    pub fn id(&self) -> io::Result<FileId> {
        FileId::of(&self.file)
    }

    /// The first read that failed.
    pub fn failure(&self) -> Option<Failure>
        ensures { result ≡ self.now.faults.first }
    {
        self.faults.first
    }
}

impl Source for FileSource {
    ghost use Rattle.real_devices.specs.Devices.{source_faults};

    ghost left = { λ source. None };

    ghost faults = { source_faults };

    ghost counted = { λ source. source.faults.counted };

    fn read(&mut self, into: &mut [u8]) -> Result<usize, SourceFailed> {
        let count = read_on(&mut self.file, into);
        counted(count, Call::Read, &mut self.faults, SourceFailed)
    }
}

// Reads, and again where a signal interrupted the call.
fn read_on<R: Read>(reader: &mut R, into: &mut [u8]) -> io::Result<usize>
    ensures { ReadsAtMost result into.new }
{
    for _ in 0..u64::MAX {
        match reader.read(into) {
            Err(error) if error.kind() == ErrorKind::Interrupted => {}
            answer => return answer,
        }
    }
    Err(io::Error::from(ErrorKind::Interrupted))
}

#[cfg(test)]
mod tests;

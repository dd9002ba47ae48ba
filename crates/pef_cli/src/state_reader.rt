//! A state file that is read and nothing else.
ghost use Rattle.std.specs.Prelude.{◌≡◌, ◌+◌, ◌^◌, ◌≤◌, Ok, Some, length, IfErr, IfOk, IsErr, OnOk};
ghost use Rattle.std.specs.Option.{option_or};
ghost use Rattle.board_core.specs.Board.{TakesWrite, Issues, HasRoomFor};
ghost use Rattle.board_core.specs.Causes.{HasCause, IsCount, Rose};

use board_core::{Board, DiskFailed, Step, Told};
use real_devices::{Call, Failure, HoldFault};
use std::fs::{self, File, TryLockError};
use std::io;
use std::io::ErrorKind;
use std::os::unix::fs::FileExt;
use std::rt::Files;

/// A state file that is open to be read, under a shared advisory lock, which goes with the process. Writes and steps fail. It tells
/// nothing of its content.
#[derive(Drop)]
pub struct StateReader {
    file: File,
    faults: u64,
    refused: u64,
    failure: Option<Failure>,
    ghost faults_counted: { IsCount faults },
    ghost refused_counted: { IsCount refused },
}

impl StateReader {
    /// Opens and locks the file at `path`. Nothing is read.
    pub fn open<R: Files<File = File>>(rt: &R, path: &str) -> Result<StateReader, HoldFault> {
        let file = fs::open(rt, path).map_err(HoldFault::System)?;
        match file.try_lock_shared() {
            Ok(()) => Ok(StateReader {
                file,
                faults: 0,
                refused: 0,
                failure: None,
            }),
            Err(TryLockError::WouldBlock) => Err(HoldFault::Held),
            Err(TryLockError::Error(error)) => Err(HoldFault::System(error)),
        }
    }

    /// The first call of the file that failed.
    pub fn failure(&self) -> Option<Failure>
        ensures { result ≡ self.now.failure }
    {
        self.failure
    }

    // Hands an answer of a call on, and counts a failure.
    fn counted<T: Drop>(&mut self, answer: io::Result<T>, call: Call) -> Result<T, DiskFailed>
        ensures value { IfOk answer (λ value. result ≡ Ok value) }
        ensures cause { HasCause self.old.faults self.new.faults result }
        ensures refused { self.new.refused ≡ self.old.refused }
        ensures failed { IfErr answer (λ error. IsErr result × (self.new.failure ≡ option_or self.old.failure (Some (record { call = call; error = error })))) }
        ensures unfailed { OnOk answer (self.new.failure ≡ self.old.failure) }
    {
        match answer {
            Ok(value) => Ok(value),
            Err(error) => {
                self.faults = self.faults.saturating_add(1);
                if self.failure.is_none() {
                    self.failure = Some(Failure { call, error });
                }
                Err(DiskFailed)
            }
        }
    }
}

impl Board for StateReader {
    ghost use Rattle.pef_cli.specs.Reading.{reader_view, reader_sound};

    ghost view = { reader_view };

    ghost sound = { reader_sound };

    #[tactic(auto, using(real_devices::proofs::Silence::silent_read))]
    fn len(&mut self) -> Result<u64, DiskFailed> {
        let length = self.file.metadata().map(|data| data.len());
        self.counted(length, Call::Length)
    }

    #[tactic(auto, using(real_devices::proofs::Silence::silent_read))]
    fn read_at(&mut self, place: u64, into: &mut [u8]) -> Result<(), DiskFailed> {
        let count = into.len();
        let answer = self.file.read_exact_at(into, place);
        self.counted(answer, Call::ReadAt { place, count })
    }

    #[tactic(auto, using(real_devices::proofs::Silence::silent_write))]
    fn write_at(&mut self, place: u64, from: &[u8]) -> Result<(), DiskFailed>
        requires place { HasRoomFor (reader_view self.old) place }
        requires end { place + length from.now ≤ 2 ^ 40 }
        ensures written { TakesWrite place from.now (reader_view self.old) (reader_view self.new) result }
        ensures cause { HasCause (reader_view self.old).disk_faults (reader_view self.new).disk_faults result }
        ensures fails { IsErr result }
    {
        let count = from.len();
        let refused = Err(io::Error::from(ErrorKind::PermissionDenied));
        self.counted(refused, Call::WriteAt { place, count })
    }

    #[tactic(auto, using(real_devices::proofs::Silence::silent_sync))]
    fn sync(&mut self) -> Result<(), DiskFailed> {
        let answer = self.file.sync_all();
        self.counted(answer, Call::Sync)
    }

    #[tactic(auto, using(real_devices::proofs::Silence::silent_issue))]
    fn issue(&mut self, _step: &Step) -> Told
        ensures issued { Issues _step.now result (reader_view self.old) (reader_view self.new) }
        ensures cause { Rose (reader_view self.old).issue_faults (reader_view self.new).issue_faults }
        ensures fails { result ≡ Told.Failed }
    {
        self.refused = self.refused.saturating_add(1);
        Told::Failed
    }
}

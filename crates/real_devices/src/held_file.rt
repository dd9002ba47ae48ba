//! A file that this process alone has in use.
ghost use Rattle.std.specs.Prelude.{◌≡◌, Err, IfErr};
ghost use Rattle.real_devices.specs.declared.held_file.HoldFault.TheVariants.{System};
ghost use Rattle.real_devices.specs.Holding.{lock_fault_of};

use crate::file_id::FileId;
use std::fs::{File, OpenOptions, TryLockError};
use std::io;
use std::rt::Files;
use thiserror::Error;

/// A file that is open to read and write, under an exclusive advisory lock, which goes with the process.
#[derive(Drop)]
pub struct HeldFile {
    pub(crate) file: File,
}

/// Why a file isn't held.
#[derive(Clone, Copy, Debug, Error)]
pub enum HoldFault {
    /// It can't be opened or locked.
    #[error(transparent)]
    System(io::Error),
    /// Another process holds it.
    #[error("another call of the program is at work on it")]
    Held,
}

impl HeldFile {
    /// Opens and locks the file at `path`. Nothing is read or written.
    pub fn open<R: Files<File = File>>(rt: &R, path: &str) -> Result<HeldFile, HoldFault> {
        hold(OpenOptions::new().read(true).write(true).open(rt, path))
    }

    /// Opens and locks the file at `path`, and creates it empty where it is missing. Nothing is read or written.
    pub fn create<R: Files<File = File>>(rt: &R, path: &str) -> Result<HeldFile, HoldFault> {
        hold(
            OpenOptions::new()
                .read(true)
                .write(true)
                .create(true)
                .open(rt, path),
        )
    }

    /// Which file of the system it is.
    pub fn id(&self) -> io::Result<FileId> {
        FileId::of(&self.file)
    }
}

// Locks the file that was opened.
fn hold(opened: io::Result<File>) -> Result<HeldFile, HoldFault>
    ensures { IfErr opened (λ error. result ≡ Err (System error)) }
{
    let file = opened?;
    file.try_lock()?;
    Ok(HeldFile { file })
}

impl From<io::Error> for HoldFault {
    ghost from_gives = { λ error fault. fault ≡ System error };

    fn from(error: io::Error) -> HoldFault {
        HoldFault::System(error)
    }
}

impl From<TryLockError> for HoldFault {
    ghost from_gives = { λ refused fault. fault ≡ lock_fault_of refused };

    fn from(refused: TryLockError) -> HoldFault {
        match refused {
            TryLockError::WouldBlock => HoldFault::Held,
            TryLockError::Error(error) => HoldFault::System(error),
        }
    }
}

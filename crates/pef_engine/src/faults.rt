//! Why a machine or an engine refuses.
ghost use Rattle.std.specs.Prelude.{◌≡◌};
ghost use Rattle.pef_engine.specs.Faults.{fault_of};
ghost use Rattle.pef_engine.specs.declared.faults.EngineFault.TheVariants.{Memory};

use pef_journal::JournalFault;
use std::alloc::AllocError;
use thiserror::Error;

/// Why a machine isn't ready for an item.
#[derive(Clone, Copy, Debug, PartialEq, Eq, Error)]
pub enum MachineFault {
    /// There is no memory for it.
    #[error("there is no memory for the item")]
    Memory(AllocError),
    /// The machine's own limit is exceeded.
    #[error("the machine has no room for the item")]
    Full,
}

/// Why an engine isn't opened, or an entry isn't stored.
#[derive(Clone, Copy, Debug, PartialEq, Eq, Error)]
pub enum EngineFault {
    /// The octets aren't those of a file of the machine's kind.
    #[error("the file is not formatted for this kind")]
    NotFormatted,
    /// The gate at this place lies beyond the file's end, or it is open and the file doesn't hold a whole entry (1 to 520 octets) and
    /// the next gate behind it, or the entry may not come there.
    #[error("the file is corrupt at octet {at}")]
    Corrupt { at: u64 },
    /// The disk failed. The engine isn't live any more: the file has the entry in flight or not, and is to be opened again.
    #[error("the disk failed")]
    DiskFault,
    /// The file or the machine has no room for the entry. Nothing was stored.
    #[error("there is no room for the entry")]
    Full,
    /// The machine found no memory to get ready. Nothing was stored.
    #[error("there is no memory for the entry")]
    Memory(AllocError),
}

impl From<JournalFault> for EngineFault {
    ghost from_gives = { λ journal fault. fault ≡ fault_of journal };

    fn from(fault: JournalFault) -> EngineFault {
        match fault {
            JournalFault::NotFormatted => EngineFault::NotFormatted,
            JournalFault::Corrupt { at } => EngineFault::Corrupt { at },
            JournalFault::DiskFault => EngineFault::DiskFault,
            JournalFault::Full => EngineFault::Full,
        }
    }
}

impl From<AllocError> for EngineFault {
    ghost from_gives = { λ error fault. fault ≡ Memory error };

    fn from(error: AllocError) -> EngineFault {
        EngineFault::Memory(error)
    }
}

//! Why a journal isn't opened, read or lengthened.
ghost use Rattle.std.specs.Prelude.{◌≡◌};
ghost use Rattle.pef_journal.specs.declared.fault.JournalFault.TheVariants.{DiskFault};

use board_core::DiskFailed;
use thiserror::Error;

/// Why a call on a journal failed.
#[derive(Clone, Copy, Debug, PartialEq, Eq, Error)]
pub enum JournalFault {
    /// The octets aren't those of a file of this kind.
    #[error("the file is not formatted for this kind")]
    NotFormatted,
    /// The gate at this place lies beyond the file's end, or it is open and the file doesn't hold a whole entry (1 to 520 octets) and the
    /// next gate behind it.
    #[error("the file is corrupt at octet {at}")]
    Corrupt { at: u64 },
    /// The disk failed. The journal must be opened again.
    #[error("the disk failed")]
    DiskFault,
    /// The header, the entries and the gate behind them would pass 16,777,216 octets. Nothing has changed.
    #[error("the file is full")]
    Full,
}

impl From<DiskFailed> for JournalFault {
    ghost from_gives = { λ _ e. e ≡ DiskFault };

    fn from(_: DiskFailed) -> Self {
        JournalFault::DiskFault
    }
}

//! Why a state file isn't formatted.
ghost use Rattle.std.specs.Prelude.{◌≡◌};
ghost use Rattle.pef_call.specs.declared.init_fault.InitFault.TheVariants.{Disk};
ghost use Rattle.pef_call.specs.Init.{fault_ending, fault_of, settings_fault_of};

use board_core::DiskFailed;
use report_line::{Ending, SettingsRefusal};
use script_text::{SettingsFault, TextFault};

/// What keeps `init` from making the file.
#[derive(Clone, Copy, Debug, PartialEq, Eq)]
pub enum InitFault {
    /// The settings text is refused, and why.
    Settings(SettingsRefusal),
    /// The settings could not be read.
    Input,
    /// The disk failed.
    Disk,
    /// There was no memory to hold the settings text.
    Memory,
    /// The file is formatted already.
    Formatted,
}

impl InitFault {
    /// How a call ends that it keeps from making the file.
    pub fn ending(self) -> Ending
        ensures { result ≡ fault_ending self }
    {
        match self {
            InitFault::Settings(refusal) => Ending::Settings(refusal),
            InitFault::Input => Ending::Input,
            InitFault::Disk => Ending::Disk,
            InitFault::Memory => Ending::Memory,
            InitFault::Formatted => Ending::Formatted,
        }
    }
}

impl From<DiskFailed> for InitFault {
    ghost from_gives = { λ _ fault. fault ≡ Disk };

    fn from(_: DiskFailed) -> InitFault {
        InitFault::Disk
    }
}

impl From<TextFault> for InitFault {
    ghost from_gives = { λ text fault. fault ≡ fault_of text };

    fn from(fault: TextFault) -> InitFault {
        match fault {
            TextFault::Source => InitFault::Input,
            TextFault::Memory => InitFault::Memory,
        }
    }
}

impl From<SettingsFault> for InitFault {
    ghost from_gives = { λ settings fault. fault ≡ settings_fault_of settings };

    fn from(fault: SettingsFault) -> InitFault {
        match fault {
            SettingsFault::Refused(refusal) => InitFault::Settings(refusal),
            SettingsFault::Memory => InitFault::Memory,
        }
    }
}

//! Why no work could begin.
ghost use Rattle.std.specs.Prelude.{◌≡◌, ◌↔◌};
ghost use Rattle.std.specs.IoError.{error_kind};
ghost use Rattle.std.specs.declared.io.Error.{Error};
ghost use Rattle.std.specs.declared.io.ErrorKind.TheVariants.{OutOfMemory};
ghost use Rattle.pef_cli.specs.declared.no_start.NoStart.TheVariants.{Memory};
ghost use Rattle.pef_cli.specs.NoStart.{status_of, line_of, reason_of};

use real_devices::HoldFault;
use std::alloc::AllocError;
use std::io;
use std::io::ErrorKind;
use thiserror::Error;

/// Why no work could begin. Nothing was read or written then, but `init` may have made an empty state file, and each form but `show`
/// and `list` an empty STATE.plant.
#[derive(Clone, Copy, Debug, Error)]
pub enum NoStart<'a> {
    /// What has this name can't be opened or read.
    #[error("{name}: {error}")]
    System { name: &'a str, error: io::Error },
    /// The plant's file of this state file can't be opened.
    #[error("{state}.plant: {error}")]
    Plant { state: &'a str, error: io::Error },
    /// Another process is at work on the state file.
    #[error("{0}: another call of the program is at work on it")]
    Held(&'a str),
    /// The settings and the state file are one file.
    #[error("{0}: it is the state file and the settings at once")]
    SettingsAreState(&'a str),
    /// The plant's file and the state file are one file.
    #[error("{0}.plant: it is the state file itself")]
    PlantIsState(&'a str),
    /// There was no memory.
    #[error("out of memory")]
    Memory,
}

impl<'a> NoStart<'a> {
    /// What the system's error on what has this name means.
    pub fn of(name: &'a str, error: io::Error) -> NoStart<'a>
        ensures memory { error_kind error ≡ OutOfMemory → result ≡ Memory }
        ensures other { (error_kind error ≡ OutOfMemory → ⊥) → result ≡ NoStart.System name.entry error }
    {
        match error.kind() {
            ErrorKind::OutOfMemory => NoStart::Memory,
            _ => NoStart::System { name, error },
        }
    }

    /// What an error on the plant's file of this state file means.
    pub fn of_plant(state: &'a str, error: io::Error) -> NoStart<'a>
        ensures memory { error_kind error ≡ OutOfMemory → result ≡ Memory }
        ensures other { (error_kind error ≡ OutOfMemory → ⊥) → result ≡ NoStart.Plant state.entry error }
    {
        match error.kind() {
            ErrorKind::OutOfMemory => NoStart::Memory,
            _ => NoStart::Plant { state, error },
        }
    }

    /// What it means that the state file of this name isn't held.
    pub fn of_state(name: &'a str, fault: HoldFault) -> NoStart<'a>
        ensures held { fault ≡ HoldFault.Held → result ≡ NoStart.Held name.entry }
        ensures memory { (error : Error) → fault ≡ HoldFault.System error → error_kind error ≡ OutOfMemory → result ≡ Memory }
        ensures other { (error : Error) → fault ≡ HoldFault.System error → (error_kind error ≡ OutOfMemory → ⊥) →
            result ≡ NoStart.System name.entry error }
    {
        match fault {
            HoldFault::System(error) => NoStart::of(name, error),
            HoldFault::Held => NoStart::Held(name),
        }
    }

    /// The program's status.
    pub fn status(&self) -> u8
        ensures { result ≡ status_of self.now }
    {
        match self {
            NoStart::Memory => 10,
            _ => 1,
        }
    }

    /// The first line on standard error, by which one program tells another.
    pub fn line(&self) -> &'static str
        ensures { result.now ≡ line_of self.now }
    {
        match self {
            NoStart::Memory => "memory",
            _ => "cannot start",
        }
    }

    /// What a person reads behind that line.
    pub fn reason(&self) -> Option<NoStart<'a>>
        ensures { result ≡ reason_of self.now }
    {
        match self {
            NoStart::Memory => None,
            fault => Some(*fault),
        }
    }
}

impl<'a> From<AllocError> for NoStart<'a> {
    ghost from_gives = { λ _ fault. fault ≡ Memory };

    fn from(_: AllocError) -> NoStart<'a> {
        NoStart::Memory
    }
}

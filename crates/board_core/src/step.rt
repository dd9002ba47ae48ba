// What the program does to the outside, and what it is told of it.
use crate::lists::Octets;

/// An action of an event filter other than an alert (IPMI 2.0, table 17-2).
#[derive(Clone, Copy, Debug, PartialEq, Eq)]
pub enum Act {
    /// The power goes off.
    PowerDown,
    /// The power goes off, and on again.
    PowerCycle,
    /// The system is reset.
    Reset,
    /// The system gets a diagnostic interrupt, as an NMI.
    DiagInt,
    /// What the manufacturer defines.
    Oem,
}

/// Where a datagram goes or comes from: an IPv4 address, the octet that is sent first in front, and a UDP port.
#[derive(Clone, Copy, Debug, PartialEq, Eq)]
pub struct Address {
    pub ip: [u8; 4],
    pub port: u16,
}

/// What is done to the outside.
#[derive(Drop)]
pub enum Step {
    /// The plant acts, for the event record with this ID.
    Act { kind: Act, id: u16 },
    /// A datagram is sent by UDP.
    Datagram { to: Address, octets: Octets },
}

/// What is told of a step.
#[derive(Clone, Copy, Debug, PartialEq, Eq)]
pub enum Told {
    /// It was done.
    Done,
    /// It failed, as far as can be told.
    Failed,
}

/// A step that was issued, with what was told of it.
#[derive(Drop)]
pub struct Sent {
    pub step: Step,
    pub told: Told,
}

impl Act {
    ghost use Rattle.std.specs.Prelude.{◌≡◌};
    ghost use Rattle.board_core.specs.Acts.{act_word};

    /// The action's word, in lower case.
    pub fn word(self) -> &'static [u8]
        ensures { result.now ≡ act_word self }
    {
        match self {
            Act::PowerDown => b"power-down",
            Act::PowerCycle => b"power-cycle",
            Act::Reset => b"reset",
            Act::DiagInt => b"diagnostic",
            Act::Oem => b"oem",
        }
    }
}

impl Step {
    ghost use Rattle.std.specs.Prelude.{◌≡◌};

    /// The same step.
    pub fn copy(&self) -> Step
        ensures { result ≡ self.now }
    {
        match self {
            Step::Act { kind, id } => Step::Act {
                kind: *kind,
                id: *id,
            },
            Step::Datagram { to, octets } => Step::Datagram {
                to: *to,
                octets: octets.copy(),
            },
        }
    }
}

impl Sent {
    ghost use Rattle.std.specs.Prelude.{◌≡◌};

    /// The same step, told the same.
    pub fn copy(&self) -> Sent
        ensures { result ≡ self.now }
    {
        Sent {
            step: self.step.copy(),
            told: self.told,
        }
    }
}

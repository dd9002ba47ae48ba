//! One alert of a job.

use board_core::{Address, Community, Text};
use lan_dest::Destination;
use policy_walk::Stop;

/// An alert that a job is to send: for an entry of the alert policy table, or of Alert Immediate (IPMI 2.0, sections 17.11 and 30.7).
#[derive(Drop)]
pub struct Target {
    /// The policy number of the entry, 1 to 15; 0 for Alert Immediate.
    pub policy_number: u8,
    /// The number of the entry, 1 to 16; 0 for Alert Immediate.
    pub entry: u8,
    /// What the walk over the policy set knows of the entry.
    pub stop: Stop,
    /// Where the alert goes.
    pub to: Destination,
    /// The severity that the alert tells.
    pub severity: u8,
    /// The text that the alert carries.
    pub text: Text,
}

impl Target {
    ghost use Rattle.std.specs.Prelude.{◌≡◌};

    /// The same alert.
    pub fn copy(&self) -> Target
        ensures { result ≡ self.now }
    {
        Target {
            policy_number: self.policy_number,
            entry: self.entry,
            stop: self.stop,
            to: self.to.copy(),
            severity: self.severity,
            text: self.text.copy(),
        }
    }
}

impl Default for Target {
    ghost use Rattle.std.specs.Prelude.{◌≡◌, false, [], replicate};

    fn default() -> Target
        ensures numbers { (result.policy_number ≡ 0) × (result.entry ≡ 0) × (result.severity ≡ 0) × (result.text ≡ []) }
        ensures stop { result.stop ≡ record { policy = 0; channel = 0; kind = 0 } }
        ensures to { result.to ≡ record { to = record { ip = replicate 4 0; port = 0 }; acknowledged = false; kind = 0; wait = 1; retries = 0; community = [] } }
    {
        Target {
            policy_number: 0,
            entry: 0,
            stop: Stop::default(),
            to: Destination {
                to: Address {
                    ip: [0; 4],
                    port: 0,
                },
                acknowledged: false,
                kind: 0,
                wait: 1,
                retries: 0,
                community: Community::new(),
            },
            severity: 0,
            text: Text::new(),
        }
    }
}

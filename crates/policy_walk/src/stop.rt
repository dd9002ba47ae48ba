//! A stop of a walk.
ghost use Rattle.std.specs.Prelude.{◌≡◌};
ghost use Rattle.policy_walk.specs.Stops.{stop_of};

use policy_table::PolicyEntry;

/// What a walk knows of an entry of a policy set.
#[derive(Clone, Copy, Debug, Default, PartialEq, Eq)]
pub struct Stop {
    /// When an alert goes to this entry, and what comes after it where none does: 0 to 4.
    pub policy: u8,
    /// The channel of its destination.
    pub channel: u8,
    /// The type of its destination, 0 to 7.
    pub kind: u8,
}

impl Stop {
    /// The stop of this entry, whose destination has this type.
    pub fn of(entry: &PolicyEntry, kind: u8) -> Stop
        ensures { result ≡ stop_of entry.now kind }
    {
        Stop {
            policy: entry.policy(),
            channel: entry.channel(),
            kind,
        }
    }
}

//! Where an alert goes.

use board_core::{Address, Community};

/// A destination that an alert can be sent to, by LAN parameters 16, 18 and 19.
#[derive(Drop)]
pub struct Destination {
    /// Its address and port.
    pub to: Address,
    /// Whether the alert is to be acknowledged.
    pub acknowledged: bool,
    /// The destination type: 0, 6 or 7.
    pub kind: u8,
    /// The seconds between an alert and the next retry, or until an alert that isn't acknowledged has failed: 1 to 256.
    pub wait: u16,
    /// How many retries follow the first transmission: 0 to 7.
    pub retries: u8,
    /// The community string of the channel.
    pub community: Community,
}

impl Destination {
    ghost use Rattle.std.specs.Prelude.{◌≡◌};

    /// The same destination.
    pub fn copy(&self) -> Destination
        ensures { result ≡ self.now }
    {
        Destination {
            to: self.to,
            acknowledged: self.acknowledged,
            kind: self.kind,
            wait: self.wait,
            retries: self.retries,
            community: self.community.copy(),
        }
    }
}

/// The UDP ports of the destination types.
#[derive(Clone, Copy, Debug, PartialEq, Eq)]
pub struct Ports {
    /// That of type 000b, a PET trap.
    pub pet: u16,
    /// That of type 110b, OEM 1.
    pub oem1: u16,
    /// That of type 111b, OEM 2.
    pub oem2: u16,
}

//! An alert policy entry.
ghost use Rattle.std.specs.Prelude.{◌≡◌, ◌↔◌, IsTrue};
ghost use Rattle.policy_table.specs.Entry.{IsEnabled, policy_number, policy, channel, destination, string_key};

use std::marker::Model;

/// An entry of the alert policy table: three octets, and every three octets are one (IPMI 2.0, section 17.11).
#[derive(Clone, Copy, Debug, PartialEq, Eq)]
pub struct PolicyEntry {
    octets: [u8; 3],
}

impl Model for PolicyEntry {
    ghost use Rattle.std.specs.Prelude.{◌≡◌, List, ℕ, length};

    ghost Value = { List ℕ };

    ghost view = { λ e. e.octets };

    ghost invariant = { λ e. length e.octets ≡ 3 };

    ghost inverse = { λ octets. record { octets = octets } };
}

impl PolicyEntry {
    /// The entry of these octets.
    pub fn read(octets: &[u8; 3]) -> PolicyEntry
        ensures { result ≡ octets.now }
    {
        PolicyEntry { octets: *octets }
    }

    /// The octets that were read.
    pub fn write(&self) -> [u8; 3]
        ensures { result ≡ self.now }
    {
        self.octets
    }

    /// The number of the policy that the entry belongs to, 0 to 15; 0 is reserved, and an entry of it belongs to none.
    pub fn number(&self) -> u8
        ensures { result ≡ policy_number self.now }
    {
        self.octets[0] / 16
    }

    /// Whether the entry is in force.
    pub fn enabled(&self) -> bool
        ensures { IsTrue result ↔ IsEnabled self.now }
    {
        (self.octets[0] >> 3) & 1 == 1
    }

    /// What an alert to this entry depends on and what comes after it, 0 to 7; 5 to 7 are reserved.
    pub fn policy(&self) -> u8
        ensures { result ≡ policy self.now }
    {
        self.octets[0] % 8
    }

    /// The channel that the alert is sent over, 0 to 15.
    pub fn channel(&self) -> u8
        ensures { result ≡ channel self.now }
    {
        self.octets[1] / 16
    }

    /// The number of the alert's destination on this channel, 0 to 15.
    pub fn destination(&self) -> u8
        ensures { result ≡ destination self.now }
    {
        self.octets[1] % 16
    }

    /// The key of the alert's string: with bit 7, bits 6:0 are a string set, in which the event's filter has a string
    /// of its own; else they are the string's number, and 0 is no string.
    pub fn key(&self) -> u8
        ensures { result ≡ string_key self.now }
    {
        self.octets[2]
    }
}

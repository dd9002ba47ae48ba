//! An event filter.
ghost use Rattle.std.specs.Prelude.{◌≡◌, ◌+◌, ◌≤◌, ◌↔◌, ◌∷◌, drop, IsTrue};
ghost use Rattle.filter_table.specs.Entry.{IsEnabled, actions, policy_number, severity, wanted_generator, wanted_sensor_type, wanted_sensor, wanted_trigger, offset_mask, data_test_at, data_tests};

use crate::data_test::DataTest;
use byteorder::{ByteOrder, LittleEndian};
use std::marker::Model;

/// An entry of the event filter table: 20 octets, and every 20 octets are one (IPMI 2.0, section 17.7).
#[derive(Clone, Copy, Debug, PartialEq, Eq)]
pub struct Filter {
    octets: [u8; 20],
}

impl Model for Filter {
    ghost use Rattle.std.specs.Prelude.{◌≡◌, List, ℕ, length};

    ghost Value = { List ℕ };

    ghost view = { λ f. f.octets };

    ghost invariant = { λ f. length f.octets ≡ 20 };

    ghost inverse = { λ octets. record { octets = octets } };
}

impl Filter {
    /// The filter of these octets.
    pub fn read(octets: &[u8; 20]) -> Filter
        ensures { result ≡ octets.now }
    {
        Filter { octets: *octets }
    }

    /// The octets that were read.
    pub fn write(&self) -> [u8; 20]
        ensures { result ≡ self.now }
    {
        self.octets
    }

    /// Whether the filter is in force: one that isn't enabled matches nothing.
    pub fn is_enabled(&self) -> bool
        ensures { IsTrue result ↔ IsEnabled self.now }
    {
        self.octets[0] >> 7 == 1
    }

    /// The actions that the filter asks for: bit 5 diagnostic interrupt, bit 4 OEM, bit 3 power cycle, bit 2 reset,
    /// bit 1 power off, bit 0 alert.
    pub fn actions(&self) -> u8
        ensures { result ≡ actions self.now }
    {
        self.octets[1]
    }

    /// The number of the alert policy, 0 to 15.
    pub fn policy_number(&self) -> u8
        ensures { result ≡ policy_number self.now }
    {
        self.octets[2] % 16
    }

    /// The severity of the events that match: the greater, the more severe; 0 is unspecified.
    pub fn severity(&self) -> u8
        ensures { result ≡ severity self.now }
    {
        self.octets[3]
    }

    /// The generator ID of the events that match. Here and in the sensor and the trigger, FFh takes every value.
    pub fn generator(&self) -> [u8; 2]
        ensures { result ≡ wanted_generator self.now }
    {
        [self.octets[4], self.octets[5]]
    }

    /// The sensor type of the events that match.
    pub fn sensor_type(&self) -> u8
        ensures { result ≡ wanted_sensor_type self.now }
    {
        self.octets[6]
    }

    /// The sensor number of the events that match.
    pub fn sensor(&self) -> u8
        ensures { result ≡ wanted_sensor self.now }
    {
        self.octets[7]
    }

    /// The event direction and type of the events that match.
    pub fn trigger(&self) -> u8
        ensures { result ≡ wanted_trigger self.now }
    {
        self.octets[8]
    }

    /// The event offsets that match: bit n for offset n.
    pub fn offset_mask(&self) -> u16
        ensures { result ≡ offset_mask self.now }
    {
        LittleEndian::read_u16(&self.octets[9..])
    }

    /// The same filter with another first octet.
    pub(crate) fn with_first(self, octet: u8) -> Filter
        ensures { result ≡ octet ∷ drop 1 self }
    {
        let mut octets = self.octets;
        octets[0] = octet;
        Filter { octets }
    }

    /// The tests of event data 1 to 3.
    pub(crate) fn data_tests(&self) -> [DataTest; 3]
        ensures { result ≡ data_tests self.now }
    {
        [self.data_test(12), self.data_test(15), self.data_test(18)]
    }

    /// The test of which octet n, counted from 1, is the mask.
    fn data_test(&self, n: usize) -> DataTest
        requires { (1 ≤ n) × (n + 2 ≤ 20) }
        ensures { result ≡ data_test_at n self.now }
    {
        DataTest {
            mask: self.octets[n - 1],
            compare_1: self.octets[n],
            compare_2: self.octets[n + 1],
        }
    }
}

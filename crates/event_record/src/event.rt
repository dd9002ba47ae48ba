//! One event record.

ghost use Rattle.std.specs.Prelude.{◌≡◌, ◌↔◌, ℕ, IfOk, IsOk, IsErrOf};
ghost use Rattle.std.specs.Result.{result_err};
ghost use Rattle.event_record.specs.Fields.{record_id, record_type, record_stamp, generator, sensor_type, sensor_number, event_trigger, event_data};
ghost use Rattle.event_record.specs.Rules.{record_fault, HasReservedId, HasOtherType, IsRecord};

use crate::fault::RecordFault;
use byteorder::{ByteOrder, LittleEndian};
use std::marker::Model;

/// An event record of the system event log: sixteen octets by IPMI 2.0, section 32.1, whose ID
/// isn't reserved and whose type is 02h (system event) or C0h to FFh (OEM).
#[derive(Clone, Copy, Debug)]
pub struct Record {
    octets: [u8; 16],
}

impl Model for Record {
    ghost use Rattle.std.specs.Prelude.{List, ℕ};
    ghost use Rattle.event_record.specs.Rules.{IsRecord};

    ghost Value = { List ℕ };

    ghost view = { λ r. r.octets };

    ghost invariant = { λ r. IsRecord r.octets };

    ghost inverse = { λ octets. record { octets = octets } };
}

impl Record {
    /// The record in these octets. A reserved ID is refused before an unknown type.
    pub fn read(octets: &[u8; 16]) -> Result<Record, RecordFault>
        ensures refused { result_err result ≡ record_fault octets.now }

        // the same in other words
        ensures reserved { (id : ℕ) → IsErrOf result (RecordFault.ReservedId id) ↔ ((id ≡ record_id octets.now) × HasReservedId octets.now) }
        ensures unknown { (kind : ℕ) → IsErrOf result (RecordFault.Kind kind)
            ↔ ((kind ≡ record_type octets.now) × (HasReservedId octets.now → ⊥) × HasOtherType octets.now) }
        ensures record { IsOk result ↔ IsRecord octets.now }

        ensures taken { IfOk result (λ event. event ≡ octets.now) }
    {
        let id = LittleEndian::read_u16(octets);
        if id == 0x0000 || id == 0xFFFF {
            return Err(RecordFault::ReservedId(id));
        }
        match octets[2] {
            0x02 | 0xC0..=0xFF => Ok(Record { octets: *octets }),
            kind => Err(RecordFault::Kind(kind)),
        }
    }

    /// The octets that were read.
    pub fn write(&self) -> [u8; 16]
        ensures octets { result ≡ self.now }
        ensures lawful { IsRecord self.now }
    {
        self.octets
    }

    /// The record ID.
    pub fn id(&self) -> u16
        ensures { result ≡ record_id self.now }
    {
        LittleEndian::read_u16(&self.octets)
    }

    /// The record type: 02h for a system event, C0h to DFh for an OEM record with a timestamp,
    /// E0h to FFh for one without.
    pub fn kind(&self) -> u8
        ensures { result ≡ record_type self.now }
    {
        self.octets[2]
    }

    /// The timestamp in seconds since 1970-01-01, FFFFFFFFh where it is unspecified; none in an
    /// OEM record of type E0h to FFh.
    pub fn stamp(&self) -> Option<u32>
        ensures { result ≡ record_stamp self.now }
    {
        if self.octets[2] < 0xE0 {
            Some(LittleEndian::read_u32(&self.octets[3..]))
        } else {
            None
        }
    }

    /// Both octets of the generator ID.
    pub fn generator(&self) -> [u8; 2]
        ensures { result ≡ generator self.now }
    {
        [self.octets[7], self.octets[8]]
    }

    /// The type of the sensor.
    pub fn sensor_type(&self) -> u8
        ensures { result ≡ sensor_type self.now }
    {
        self.octets[10]
    }

    /// The number of the sensor.
    pub fn sensor(&self) -> u8
        ensures { result ≡ sensor_number self.now }
    {
        self.octets[11]
    }

    /// The event direction in bit 7, 1 for a deassertion, and the event type in bits 6:0.
    pub fn trigger(&self) -> u8
        ensures { result ≡ event_trigger self.now }
    {
        self.octets[12]
    }

    /// Event data 1 to 3.
    pub fn event_data(&self) -> [u8; 3]
        ensures { result ≡ event_data self.now }
    {
        [self.octets[13], self.octets[14], self.octets[15]]
    }
}

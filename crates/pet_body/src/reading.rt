//! A body from its octets.

ghost use Rattle.std.specs.Prelude.{◌≡◌, ◌+◌, ◌≤◌, ◌<◌, length, take, drop, IfOk};
ghost use Rattle.std.specs.Result.{result_err};
ghost use Rattle.pet_body.specs.Layout.{layout, body_in, length_fault};

use crate::body::Body;
use crate::fault::BodyFault;
use board_core::Bytes;
use byteorder::{BigEndian, ByteOrder};

fn octets_at<const N: usize>(octets: &[u8], place: usize) -> [u8; N]
    requires { place + N ≤ length octets.now }
    ensures { result ≡ take N (drop place octets.now) }
{
    let mut part = [0; N];
    part.copy_from_slice(&octets[place..place + N]);
    part
}

fn tail_at(octets: &[u8], place: usize) -> Bytes<64>
    requires behind { place ≤ length octets.now }
    requires room { length octets.now ≤ place + 64 }
    ensures { result ≡ drop place octets.now }
{
    let mut tail = Bytes::new();
    tail.extend(&octets[place..]);
    tail
}

fn columns_of(octets: &[u8]) -> Body
    requires whole { 46 ≤ length octets.now }
    requires room { length octets.now ≤ 110 }
    ensures { result ≡ body_in octets.now }
{
    Body {
        guid: octets_at(octets, 0),
        sequence: BigEndian::read_u16(&octets[16..]),
        timestamp: BigEndian::read_u32(&octets[18..]),
        utc: BigEndian::read_u16(&octets[22..]),
        trap_source: octets[24],
        event_source: octets[25],
        severity: octets[26],
        device: octets[27],
        sensor: octets[28],
        entity: octets[29],
        instance: octets[30],
        event_data: octets_at(octets, 31),
        language: octets[39],
        manufacturer: BigEndian::read_u32(&octets[40..]),
        system: BigEndian::read_u16(&octets[44..]),
        tail: tail_at(octets, 46),
    }
}

impl Body {
    /// The body in these octets, which is any 46 octets and a tail of at most 64.
    pub fn read(octets: &[u8]) -> Result<Body, BodyFault>
        ensures refused { result_err result ≡ length_fault octets.now }
        ensures fields { IfOk result (λ body. body ≡ body_in octets.now) }

        // What was read is written as the octets that it was read from.
        ensures writes_back { IfOk result (λ body. layout body ≡ octets.now) }
    {
        let length = octets.len();
        if length < 46 {
            return Err(BodyFault::Short(length));
        }
        if length > 110 {
            return Err(BodyFault::Long(length));
        }
        Ok(columns_of(octets))
    }
}

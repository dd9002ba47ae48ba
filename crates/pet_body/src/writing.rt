//! The octets of a body.

ghost use Rattle.std.specs.Prelude.{◌≡◌, ◌+◌, ◌^◌, ◌<◌, ◌≤◌, ◌++◌, length};
ghost use Rattle.byteorder.specs.Endian.{big_bytes};
ghost use Rattle.pet_body.specs.Layout.{layout, body_in};

use crate::body::Body;
use board_core::Octets;
use byteorder::{BigEndian, ByteOrder};

fn put(out: &mut Octets, part: &[u8])
    requires { length out.old + length part.now ≤ 512 }
    ensures octets { out.new ≡ out.old ++ part.now }
    ensures size { length out.new ≡ length out.old + length part.now }
{
    out.extend(part);
}

fn put_u16(out: &mut Octets, number: u16)
    requires { length out.old + 2 ≤ 512 }
    ensures octets { out.new ≡ out.old ++ big_bytes 2 number }
    ensures size { length out.new ≡ length out.old + 2 }
    ensures small { number < 2 ^ 16 }
{
    let mut octets = [0; 2];
    BigEndian::write_u16(&mut octets, number);
    put(out, &octets);
}

fn put_u32(out: &mut Octets, number: u32)
    requires { length out.old + 4 ≤ 512 }
    ensures octets { out.new ≡ out.old ++ big_bytes 4 number }
    ensures size { length out.new ≡ length out.old + 4 }
    ensures small { number < 2 ^ 32 }
{
    let mut octets = [0; 4];
    BigEndian::write_u32(&mut octets, number);
    put(out, &octets);
}

impl Body {
    /// The octets of the body, 46 and those of its tail.
    pub fn write(&self) -> Octets
        ensures octets { result ≡ layout self.now }

        // What was written is read as the body that it was written from.
        ensures reads_back { body_in result ≡ self.now }
        ensures least { 46 ≤ length result }
        ensures most { length result ≤ 110 }
    {
        let mut out = Octets::new();
        put(&mut out, &self.guid);
        put_u16(&mut out, self.sequence);
        put_u32(&mut out, self.timestamp);
        put_u16(&mut out, self.utc);
        put(&mut out, &[self.trap_source, self.event_source]);
        put(&mut out, &[self.severity]);
        put(&mut out, &[self.device, self.sensor]);
        put(&mut out, &[self.entity, self.instance]);
        put(&mut out, &self.event_data);
        put(&mut out, &[self.language]);
        put_u32(&mut out, self.manufacturer);
        put_u16(&mut out, self.system);
        self.tail.fits();
        put(&mut out, self.tail.as_slice());
        out
    }
}

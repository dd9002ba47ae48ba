//! A trap message is written: RFC 1157, sections 4 and 4.1.6.
ghost use Rattle.std.specs.Prelude.{◌≡◌, ◌<◌, ◌≤◌, ◌^◌, ◌+◌, ◌∷◌, ◌++◌, length};
ghost use Rattle.snmp_trap.specs.Grammar.{IsBody, IsTrap};
ghost use Rattle.snmp_trap.specs.Shortest.{HasSpelling, Shortest};
ghost use Rattle.snmp_trap.specs.Spelling.{fields, length_octets, element, number_length, number_element, list, trap_part, spelling};

use crate::contents::{BODY_NAME, ENTERPRISE};
use crate::trap::Trap;
use board_core::Octets;

/// How many octets a number needs whose first bit is 0.
fn number_length(number: u32) -> usize
    ensures { result ≡ number_length number }
{
    if number < 1 << 7 {
        1
    } else if number < 1 << 15 {
        2
    } else if number < 1 << 23 {
        3
    } else if number < 1 << 31 {
        4
    } else {
        5
    }
}

/// How many octets an element has whose contents are `contents` octets.
fn element_length(contents: usize) -> usize
    requires { contents < 256 }
    ensures value { result ≡ 1 + length (length_octets contents) + contents }
    ensures most { result ≤ 3 + contents }
{
    if contents < 0x80 {
        2 + contents
    } else {
        3 + contents
    }
}

/// Writes a tag and the shortest length of `contents` octets.
fn put_header(out: &mut Octets, tag: u8, contents: usize)
    requires short { contents < 256 }
    requires room { length out.old + 3 ≤ 512 }
    ensures { out.new ≡ out.old ++ tag ∷ length_octets contents }
{
    out.push(tag);
    if 0x80 <= contents {
        out.push(0x81);
    }
    out.push(contents as u8);
}

/// Writes an element that holds no others.
fn put_octets(out: &mut Octets, tag: u8, contents: &[u8])
    requires short { length contents.now < 256 }
    requires room { length out.old + 3 + length contents.now ≤ 512 }
    ensures appended { out.new ≡ out.old ++ element tag contents.now }
    ensures length { length out.new ≤ length out.old + 3 + length contents.now }
{
    put_header(out, tag, contents.len());
    out.extend(contents);
}

/// Writes a number in the fewest octets whose first bit is 0.
#[tactic(auto, unfolding(crate::specs::Spelling::number_element))]
fn put_number(out: &mut Octets, tag: u8, number: u32)
    requires { length out.old + 8 ≤ 512 }
    ensures appended { out.new ≡ out.old ++ number_element tag number }
    ensures length { length out.new ≤ length out.old + 8 }
{
    let [a, b, c, d] = number.to_be_bytes();
    let octets = [0, a, b, c, d];
    put_octets(out, tag, &octets[5 - number_length(number)..]);
}

/// Writes the list with the one binding, that of the body.
#[tactic(auto, unfolding(crate::specs::Spelling::list))]
fn put_list(out: &mut Octets, body: &[u8])
    requires body { IsBody body.now }
    requires room { length out.old + 200 ≤ 512 }
    ensures { out.new ≡ out.old ++ list body.now }
{
    let binding = 2 + BODY_NAME.len() + 2 + body.len();
    put_header(out, 0x30, 2 + binding);
    put_header(out, 0x30, binding);
    put_octets(out, 0x06, &BODY_NAME);
    put_octets(out, 0x04, body);
}

/// Writes what stands in the element of the trap itself.
#[tactic(auto, unfolding(crate::specs::Spelling::trap_part))]
fn put_trap_part(out: &mut Octets, trap: &Trap)
    requires body { IsBody trap.now.body }
    requires room { length out.old + 300 ≤ 512 }
    ensures { out.new ≡ out.old ++ trap_part (fields trap.now) }
{
    put_octets(out, 0x06, &ENTERPRISE);
    put_octets(out, 0x40, &trap.agent);
    put_number(out, 0x02, 6);
    put_number(out, 0x02, trap.specific);
    put_number(out, 0x43, trap.ticks);
    put_list(out, trap.body.as_slice());
}

/// How many octets stand in the element of the trap itself.
fn trap_part_length(trap: &Trap) -> usize
    requires { IsBody trap.now.body }
    ensures spelling { HasSpelling (fields trap.now) }
    ensures length { result ≡ length (trap_part (fields trap.now)) }
    ensures most { result ≤ 162 }
{
    let (agent, specific, ticks) = (trap.agent, trap.specific, trap.ticks);
    let fixed = 2 + ENTERPRISE.len() + 2 + agent.len() + 3;
    let numbers = 2 + number_length(specific) + 2 + number_length(ticks);
    let list = 2 + 2 + 2 + BODY_NAME.len() + 2 + trap.body.as_slice().len();
    fixed + numbers + list
}

#[tactic(auto, unfolding(crate::specs::Spelling::spelling))]
fn write(trap: &Trap, out: &mut Octets)
    requires { IsBody trap.now.body }
    ensures fits { HasSpelling (fields trap.now) }
    ensures community { length trap.now.community ≤ 18 }
    ensures written { out.new ≡ spelling (fields trap.now) }
{
    let part = trap_part_length(trap);
    let community = trap.community.as_slice();
    trap.community.fits();
    out.clear();
    put_header(out, 0x30, 3 + 2 + community.len() + element_length(part));
    put_number(out, 0x02, 0);
    put_octets(out, 0x04, community);
    put_header(out, 0xA4, part);
    put_trap_part(out, trap);
}

/// Puts the trap message in place of what `out` holds, in its one shortest spelling.
pub fn encode(trap: &Trap, out: &mut Octets)
    requires { IsBody trap.now.body }
    ensures written { out.new ≡ spelling (fields trap.now) }
    ensures spelled { Shortest (fields trap.now) out.new }
    // What is written is read as this trap.
    ensures read_again { IsTrap out.new (fields trap.now) }
    ensures length { trap.now.specific < 2 ^ 24 → length out.new ≤ 190 }
{
    write(trap, out);
}

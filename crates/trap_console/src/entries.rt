//! The octets of a console's entries.
ghost use Rattle.std.specs.Prelude.{◌≡◌};
ghost use Rattle.pef_engine.specs.Rules.{Decodes};
ghost use Rattle.trap_console.specs.Histories.{encode, console_rules};
ghost use Rattle.trap_console.specs.Entries.{marked, ReadsDatagram};

use crate::item::Item;
use board_core::{Address, Octets, Payload, octets_of};
use pef_engine::{Entry, Mark, read_mark, write_mark};

const DATAGRAM: u8 = 0x21;

/// The octets of the entry: its tag, and then what it says.
pub(crate) fn encode(entry: &Entry<Item>) -> Payload
    ensures { result ≡ encode entry.now }
{
    match entry {
        Entry::Item(Item::Datagram { from, octets }) => datagram(*from, octets),
        Entry::Item(Item::Open { id, count }) => write_mark(Mark::Open {
            id: *id,
            count: *count,
        }),
        Entry::Item(Item::Close) => write_mark(Mark::Close),
        Entry::Outcome(told) => write_mark(Mark::Outcome(*told)),
    }
}

// The octets of a datagram: its tag, its sender's address and port, and what it holds.
fn datagram(from: Address, octets: &Octets) -> Payload
    ensures { result ≡ encode (Entry.Item (Item.Datagram from octets.now)) }
{
    octets.fits();
    let mut payload = Payload::new();
    payload.push(DATAGRAM);
    payload.extend(&from.ip);
    payload.extend(&from.port.to_le_bytes());
    payload.extend(octets.as_slice());
    payload
}

/// The entry whose octets these are, and None where they are those of none.
pub(crate) fn decode(octets: &[u8]) -> Option<Entry<Item>>
    ensures { Decodes console_rules octets.now result }
{
    match read_mark(octets) {
        Some(mark) => Some(marked(mark)),
        None => {
            let (from, octets) = datagram_in(octets)?;
            Some(Entry::Item(Item::Datagram { from, octets }))
        }
    }
}

// The entry of a mark.
fn marked(mark: Mark) -> Entry<Item>
    ensures { result ≡ marked mark }
{
    match mark {
        Mark::Open { id, count } => Entry::Item(Item::Open { id, count }),
        Mark::Close => Entry::Item(Item::Close),
        Mark::Outcome(told) => Entry::Outcome(told),
    }
}

// The sender and the octets of the datagram whose entry these octets are.
fn datagram_in(octets: &[u8]) -> Option<(Address, Octets)>
    ensures { ReadsDatagram octets.now result }
{
    match octets {
        [DATAGRAM, a, b, c, d, low, high, octets @ ..] => {
            let from = Address {
                ip: [*a, *b, *c, *d],
                port: u16::from_le_bytes([*low, *high]),
            };
            Some((from, octets_of(octets)?))
        }
        _ => None,
    }
}

//! What arrives at a console: each datagram is an item.
ghost use Rattle.std.specs.Prelude.{◌≡◌};
ghost use Rattle.trap_console.specs.Histories.{IsItem};
ghost use Rattle.trap_console.specs.Arriving.{item_at, arrival_takes};

use crate::console::Console;
use crate::item::Item;
use board_core::{Address, Arrival, Octets};
use pef_engine::Fed;

impl Fed for Console {
    ghost item_at = { item_at };

    ghost takes = { arrival_takes };

    fn item_of_arrival(arrival: &Arrival) -> Option<Item> {
        match arrival {
            Arrival::Datagram { from, octets } => Some(datagram(*from, octets)),
            Arrival::Tick => None,
            Arrival::End => None,
            Arrival::Failed => None,
        }
    }
}

// The item of a datagram. Its address has four octets and a port of 16 bits, and it has at most 512 octets.
fn datagram(from: Address, octets: &Octets) -> Item
    ensures item { result ≡ Item.Datagram from octets.now }
    ensures is_item { IsItem result }
{
    octets.fits();
    Item::Datagram {
        from,
        octets: octets.copy(),
    }
}

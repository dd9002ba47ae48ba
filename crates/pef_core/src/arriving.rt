//! What arrives at a controller: each datagram is a frame, and each second a tick.
ghost use Rattle.std.specs.Prelude.{◌≡◌};
ghost use Rattle.pef_core.specs.Histories.{IsItem};
ghost use Rattle.pef_core.specs.Arriving.{item_at, arrival_takes};

use crate::controller::Controller;
use crate::item::{Item, is_frame};
use board_core::{Address, Arrival, Octets};
use pef_engine::Fed;

impl Fed for Controller {
    ghost item_at = { item_at };

    ghost takes = { arrival_takes };

    fn item_of_arrival(arrival: &Arrival) -> Option<Item> {
        match arrival {
            Arrival::Datagram { from, octets } => Some(frame(*from, octets)),
            Arrival::Tick => Some(Item::Tick),
            Arrival::End => None,
            Arrival::Failed => None,
        }
    }
}

// The item of a datagram.
fn frame(from: Address, octets: &Octets) -> Item
    ensures item { result ≡ Item.Frame from octets.now }
    ensures is_item { IsItem result }
{
    is_frame(from, octets);
    Item::Frame {
        from,
        octets: octets.copy(),
    }
}

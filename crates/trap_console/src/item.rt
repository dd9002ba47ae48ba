//! What a console takes.
ghost use Rattle.std.specs.Prelude.{◌≡◌};
ghost use Rattle.trap_console.specs.Histories.{IsItem};
ghost use Rattle.trap_console.specs.Report.{step_in};

use board_core::{Address, Octets};
use pef_engine::ScriptStep;

/// An item of a console's history.
#[derive(Drop)]
pub enum Item {
    /// A datagram that was received, which may be a trap.
    Datagram { from: Address, octets: Octets },
    /// From here on items are taken from this capture, which has `count` of them.
    Open { id: u32, count: u32 },
    /// All items of the capture were taken.
    Close,
}

/// What the item does to the capture that was opened last.
pub(crate) fn step_in(item: &Item) -> ScriptStep
    ensures step { result ≡ step_in item.now }
    ensures is_item { IsItem item.now }
{
    match item {
        Item::Datagram { from, octets } => takes(*from, octets),
        Item::Open { id, count } => ScriptStep::Opens {
            id: *id,
            count: *count,
        },
        Item::Close => ScriptStep::Closes,
    }
}

// A datagram is an item of the capture. Its address has four octets and a port of 16 bits, and it has at most 512 octets.
fn takes(from: Address, octets: &Octets) -> ScriptStep
    ensures step { result ≡ step_in (Item.Datagram from octets.now) }
    ensures is_item { IsItem (Item.Datagram from octets.now) }
{
    octets.fits();
    ScriptStep::Takes
}

//! What a controller takes.
ghost use Rattle.std.specs.Prelude.{◌≡◌, length};
ghost use Rattle.pef_core.specs.Report.{step_in};
ghost use Rattle.pef_core.specs.Histories.{IsItem, IsRequest};

use board_core::{Address, Octets};
use pef_commands::Request;
use pef_engine::ScriptStep;

/// An item of a controller's history.
#[derive(Drop)]
pub enum Item {
    /// Sixteen octets for the log, which takes them where they are an event record (IPMI 2.0, section 32.1).
    Event([u8; 16]),
    /// A command, which is answered (IPMI 2.0, chapters 23 and 30, section 31.9).
    Command(Request),
    /// An RMCP frame that came from this address (ASF 2.0, section 3.2; IPMI 2.0, chapter 13): a ping, an acknowledgement, or one that
    /// has no effect.
    Frame { from: Address, octets: Octets },
    /// One second passed.
    Tick,
    /// The board's power was cycled, which clears what is volatile and sets the startup delay.
    Power,
    /// From here on items are taken from this script, which has `count` of them.
    Open { id: u32, count: u32 },
    /// All items of the script were taken.
    Close,
}

/// What the item does to the script that was opened last.
pub(crate) fn step_in(item: &Item) -> ScriptStep
    ensures step { result ≡ step_in item.now }
    ensures is_item { IsItem item.now }
{
    match item {
        Item::Event(octets) => {
            is_event(octets);
            ScriptStep::Takes
        }
        Item::Command(request) => {
            is_request(request);
            ScriptStep::Takes
        }
        Item::Frame { from, octets } => {
            is_frame(*from, octets);
            ScriptStep::Takes
        }
        Item::Tick | Item::Power => ScriptStep::Takes,
        Item::Open { id, count } => ScriptStep::Opens {
            id: *id,
            count: *count,
        },
        Item::Close => ScriptStep::Closes,
    }
}

// Facts for proofs: an event has 16 octets, a request has its ranges, and so has a frame.
fn is_event(octets: &[u8; 16])
    ensures { length octets.now ≡ 16 }
{
    prove!(octets.len() == 16);
}

fn is_request(request: &Request)
    ensures { IsRequest request.now }
{
    let _ = request.netfn();
    let _ = request.payload();
}

/// The address of a frame has four octets and a port of 16 bits, and a frame at most 512 octets.
pub(crate) fn is_frame(from: Address, octets: &Octets)
    ensures { IsItem (Item.Frame from octets.now) }
{
    octets.fits();
}

//! The octets of an entry.
ghost use Rattle.std.specs.Prelude.{◌≡◌, ◌≢◌, ◌≤◌, ◌++◌, [], ◌∷◌, true, false, length};
ghost use Rattle.pef_engine.specs.Rules.{Decodes};
ghost use Rattle.pef_core.specs.Histories.{encode, controller_rules};
ghost use Rattle.pef_core.specs.Entries.{marked, ReadsEvent, ReadsCommand, ReadsFrame};

use crate::item::Item;
use board_core::{Address, Octets, Payload, octets_of};
use pef_commands::Request;
use pef_engine::{Entry, Mark, read_mark, write_mark};

const EVENT: u8 = 0x01;

const COMMAND: u8 = 0x02;

const TICK: u8 = 0x03;

const POWER: u8 = 0x04;

const FRAME: u8 = 0x07;

/// The octets of the entry: its tag, and then what it says.
pub(crate) fn encode(entry: &Entry<Item>) -> Payload
    ensures { result ≡ encode entry.now }
{
    match entry {
        Entry::Item(Item::Event(octets)) => tagged(&[EVENT], octets),
        Entry::Item(Item::Command(request)) => {
            tagged(
                &[COMMAND, request.netfn(), request.cmd()],
                request.payload(),
            )
        }
        Entry::Item(Item::Frame { from, octets }) => frame(*from, octets),
        Entry::Item(Item::Tick) => tagged(&[TICK], &[]),
        Entry::Item(Item::Power) => tagged(&[POWER], &[]),
        Entry::Item(Item::Open { id, count }) => write_mark(Mark::Open {
            id: *id,
            count: *count,
        }),
        Entry::Item(Item::Close) => write_mark(Mark::Close),
        Entry::Outcome(told) => write_mark(Mark::Outcome(*told)),
    }
}

// What an entry says, behind its front.
fn tagged(front: &[u8], octets: &[u8]) -> Payload
    requires front { length front.now ≤ 3 }
    requires octets { length octets.now ≤ 64 }
    ensures { result ≡ front.now ++ octets.now }
{
    let mut payload = Payload::new();
    payload.extend(front);
    payload.extend(octets);
    payload
}

// The octets of a frame: its tag, its sender's address and port, and what it holds.
fn frame(from: Address, octets: &Octets) -> Payload
    ensures { result ≡ encode (Entry.Item (Item.Frame from octets.now)) }
{
    octets.fits();
    let mut payload = Payload::new();
    payload.push(FRAME);
    payload.extend(&from.ip);
    payload.extend(&from.port.to_le_bytes());
    payload.extend(octets.as_slice());
    payload
}

/// The entry whose octets these are, and None where they are those of none.
pub(crate) fn decode(octets: &[u8]) -> Option<Entry<Item>>
    ensures { Decodes controller_rules octets.now result }
{
    if let Some(event) = event_in(octets) {
        return Some(Entry::Item(Item::Event(event)));
    }
    if let Some(request) = command_in(octets) {
        return Some(Entry::Item(Item::Command(request)));
    }
    if let Some((from, octets)) = frame_in(octets) {
        return Some(Entry::Item(Item::Frame { from, octets }));
    }
    if is_tag(octets, TICK) {
        return Some(Entry::Item(Item::Tick));
    }
    if is_tag(octets, POWER) {
        return Some(Entry::Item(Item::Power));
    }
    match read_mark(octets) {
        Some(mark) => Some(marked(mark)),
        None => None,
    }
}

// The entry of a mark.
fn marked(mark: Mark) -> Entry<Item>
    ensures { result ≡ marked mark }
{
    match mark {
        Mark::Open { id, count } => Entry::Item(Item::Open { id, count }),
        Mark::Close => Entry::Item(Item::Close),
        Mark::Outcome(told) => Entry::Outcome(told),
    }
}

// The event whose octets these are.
fn event_in(octets: &[u8]) -> Option<[u8; 16]>
    ensures { ReadsEvent octets.now result }
{
    match octets {
        [EVENT, event @ ..] => <[u8; 16]>::try_from(event).ok(),
        _ => None,
    }
}

// Whether these octets are this tag alone.
fn is_tag(octets: &[u8], tag: u8) -> bool
    ensures alone { result ≡ true → octets.now ≡ tag ∷ [] }
    ensures other { result ≡ false → octets.now ≢ tag ∷ [] }
{
    match octets {
        [first] => *first == tag,
        _ => false,
    }
}

// The command whose octets these are.
fn command_in(octets: &[u8]) -> Option<Request>
    ensures { ReadsCommand octets.now result }
{
    match octets {
        [COMMAND, netfn, cmd, payload @ ..] => Request::read(*netfn, *cmd, payload),
        _ => None,
    }
}

// The sender and the octets of the frame whose entry these octets are.
fn frame_in(octets: &[u8]) -> Option<(Address, Octets)>
    ensures { ReadsFrame octets.now result }
{
    match octets {
        [FRAME, a, b, c, d, low, high, octets @ ..] => {
            let from = Address {
                ip: [*a, *b, *c, *d],
                port: u16::from_le_bytes([*low, *high]),
            };
            Some((from, octets_of(octets)?))
        }
        _ => None,
    }
}

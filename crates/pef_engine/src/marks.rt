//! The octets of what every scripted machine's file has.
ghost use Rattle.std.specs.Prelude.{◌≡◌};
ghost use Rattle.pef_engine.specs.Marks.{mark_octets, ReadsMark};

use board_core::{Payload, Told};

const OPEN: u8 = 0x05;

const CLOSE: u8 = 0x06;

const OUTCOME: u8 = 0x10;

const DONE: u8 = 0x00;

const FAILED: u8 = 0x01;

/// An entry that every scripted machine has.
#[derive(Clone, Copy, Debug, PartialEq, Eq)]
pub enum Mark {
    /// A script of `count` items is opened.
    Open { id: u32, count: u32 },
    /// The script is closed.
    Close,
    /// What was told of the step that was due.
    Outcome(Told),
}

/// The octets of a mark: its tag, and then what it says.
pub fn write_mark(mark: Mark) -> Payload
    ensures { result ≡ mark_octets mark }
{
    let mut payload = Payload::new();
    match mark {
        Mark::Open { id, count } => {
            payload.push(OPEN);
            payload.extend(&id.to_le_bytes());
            payload.extend(&count.to_le_bytes());
        }
        Mark::Close => {
            payload.push(CLOSE);
        }
        Mark::Outcome(told) => {
            payload.push(OUTCOME);
            payload.push(match told {
                Told::Done => DONE,
                Told::Failed => FAILED,
            });
        }
    }
    payload
}

/// The mark whose octets these are, and None where they are those of none.
pub fn read_mark(octets: &[u8]) -> Option<Mark>
    ensures { ReadsMark octets.now result }
{
    match octets {
        [
            OPEN,
            id_0,
            id_1,
            id_2,
            id_3,
            count_0,
            count_1,
            count_2,
            count_3,
        ] => Some(Mark::Open {
            id: u32::from_le_bytes([*id_0, *id_1, *id_2, *id_3]),
            count: u32::from_le_bytes([*count_0, *count_1, *count_2, *count_3]),
        }),
        [CLOSE] => Some(Mark::Close),
        [OUTCOME, DONE] => Some(Mark::Outcome(Told::Done)),
        [OUTCOME, FAILED] => Some(Mark::Outcome(Told::Failed)),
        _ => None,
    }
}

//! An engine over a tiny machine: what it stores and issues, and how it goes on in a later life.
ghost use Rattle.std.specs.Prelude.{◌≡◌};
ghost use Rattle.board_core.specs.MemoryBoard.{memory_view};
ghost use Rattle.pef_engine.specs.Engine.{IsLive, HasPlace};
ghost use Rattle.pef_engine.specs.Rules.{Decodes};
ghost use Rattle.file_trials.specs.Tally.{tally_rules, tally_view, tally_agrees, tally_size, tally_entries, tally_octet};

use board_core::{Act, MemBoard, Payload, Step, Told};
use pef_engine::*;
use pef_journal::FileKind;
use std::alloc::{AllocError, Global};
use std::test::Fail;

/// Takes octets below 100, and asks for a reset where it has taken an even number of them.
#[derive(Drop)]
struct Tally {
    is_even: bool,
    is_due: bool,
}

impl Machine for Tally {
    type Item = u8;

    ghost rules = { tally_rules };

    ghost view = { λ tally. tally_view tally.is_even tally.is_due };

    ghost agrees = { λ tally. tally_agrees tally.is_even tally.is_due };

    ghost same_size = { tally_size };

    ghost are_entries = { tally_entries };

    ghost some_octet = { tally_octet };

    fn kind() -> FileKind {
        FileKind {
            number: 2,
            settings: 2,
        }
    }

    fn fresh(_alloc: Global, _settings: &[u8]) -> Result<Self, AllocError> {
        Ok(Tally {
            is_even: true,
            is_due: false,
        })
    }

    fn allows(&self, entry: &Entry<u8>) -> bool {
        match entry {
            Entry::Item(octet) => !self.is_due && *octet < 100,
            Entry::Outcome(_) => self.is_due,
        }
    }

    fn prepare(&mut self, _item: &u8) -> Result<(), MachineFault> {
        Ok(())
    }

    fn apply(&mut self, entry: &Entry<u8>) {
        match entry {
            Entry::Item(_) => {
                self.is_even = !self.is_even;
                self.is_due = self.is_even;
            }
            Entry::Outcome(_) => self.is_due = false,
        }
    }

    fn next(&self) -> Option<Step> {
        if self.is_due {
            Some(Step::Act {
                kind: Act::Reset,
                id: 0,
            })
        } else {
            None
        }
    }

    fn encode_entry(entry: &Entry<u8>) -> Payload {
        let mut payload = Payload::new();
        match entry {
            Entry::Item(octet) => {
                let _ = payload.push(0);
                let _ = payload.push(*octet);
            }
            Entry::Outcome(Told::Done) => {
                let _ = payload.push(1);
            }
            Entry::Outcome(Told::Failed) => {
                let _ = payload.push(2);
            }
        }
        payload
    }

    fn decode_entry(octets: &[u8]) -> Option<Entry<u8>> {
        match octets {
            [0, octet] => Some(Entry::Item(*octet)),
            [1] => Some(Entry::Outcome(Told::Done)),
            [2] => Some(Entry::Outcome(Told::Failed)),
            _ => None,
        }
    }
}

/// Takes one octet where the machine allows it, and says whether it was taken.
fn take(engine: &mut Engine<Tally>, board: &mut MemBoard, octet: u8) -> bool
    requires place { IsLive engine.old → HasPlace (memory_view board.old) engine.old }
    ensures place { IsLive engine.new → HasPlace (memory_view board.new) engine.new }
{
    let entry = Entry::Item(octet);
    if !engine.live() || !engine.machine().allows(&entry) {
        return false;
    }
    engine.take(board, &entry).is_ok()
}

/// Settles what is due, and says what was told of it.
fn settle(engine: &mut Engine<Tally>, board: &mut MemBoard) -> Option<Told>
    requires place { IsLive engine.old → HasPlace (memory_view board.old) engine.old }
    ensures place { IsLive engine.new → HasPlace (memory_view board.new) engine.new }
{
    if !engine.live() {
        return None;
    }
    engine.settle(board).ok()?
}

/// A file of a console's kind that has no entries.
const FRESH: [u8; 7] = [0xA5, 2, 2, 0, 0x02, 0x6F, 0];

#[test]
fn each_entry_is_stored_and_each_step_issued_once(rt: HostRuntime) -> Result<(), Fail> {
    let alloc = rt.alloc();
    // the second step is to fail
    let mut board = MemBoard::new(alloc, &FRESH, &[], &[1])?;
    let mut first = Engine::<Tally>::open(alloc, &mut board)?;
    assert!(rt; take(&mut first, &mut board, 7));
    assert_eq!(rt; settle(&mut first, &mut board), None);
    assert!(rt; !take(&mut first, &mut board, 100));
    assert!(rt; take(&mut first, &mut board, 9));
    assert!(rt; !take(&mut first, &mut board, 8));
    // the step that is due isn't lost with the engine
    let mut second = Engine::<Tally>::open(alloc, &mut board)?;
    assert_eq!(rt; settle(&mut second, &mut board), Some(Told::Done));
    assert_eq!(rt; settle(&mut second, &mut board), None);
    assert!(rt; take(&mut second, &mut board, 0));
    assert!(rt; take(&mut second, &mut board, 99));
    assert_eq!(rt; settle(&mut second, &mut board), Some(Told::Failed));
    let mut third = Engine::<Tally>::open(alloc, &mut board)?;
    assert_eq!(rt; settle(&mut third, &mut board), None);
    assert_eq!(rt; board.issued().len(), 2);
    let stored: [u8; 35] = [
        0xA5, 2, 2, 0, 0x02, 0x6F, 0xA5, 2, 0, 0, 7, 0xA5, 2, 0, 0, 9, 0xA5, 1, 0, 1, 0xA5, 2, 0,
        0, 0, 0xA5, 2, 0, 0, 99, 0xA5, 1, 0, 2, 0,
    ];
    assert_eq!(rt; board.octets(), stored.as_slice());
    Ok(())
}

#[test]
fn an_entry_that_may_not_come_is_corrupt(rt: HostRuntime) -> Result<(), Fail> {
    let alloc = rt.alloc();
    // what stands from the first gate at 6 on, and where it is corrupt
    let cases: [(&[u8], Option<u64>); 7] = [
        (&[0], None),
        (&[0xA5, 2, 0, 0, 99, 0], None),
        (&[0xA5, 2, 0, 0, 100, 0], Some(6)),
        (&[0xA5, 1, 0, 1, 0], Some(6)),
        (&[0xA5, 2, 0, 0, 7, 0xA5, 1, 0, 1, 0], Some(11)),
        (
            &[0xA5, 2, 0, 0, 7, 0xA5, 2, 0, 0, 7, 0xA5, 2, 0, 0, 7, 0],
            Some(16),
        ),
        (&[0xA5, 2, 0, 0, 7, 0xA5, 1, 0, 3, 0], Some(11)),
    ];
    for (behind, at) in cases {
        let mut file = FRESH[..6].to_vec(alloc)?;
        file.extend_from_slice(behind)?;
        let mut board = MemBoard::new(alloc, file.as_slice(), &[], &[])?;
        let corrupt = match Engine::<Tally>::open(alloc, &mut board) {
            Ok(_) => None,
            Err(EngineFault::Corrupt { at }) => Some(at),
            Err(_) => Some(0),
        };
        assert_eq!(rt; corrupt, at);
    }
    Ok(())
}

#[test]
fn a_fault_says_what_is_wrong(rt: HostRuntime) -> Result<(), Fail> {
    let alloc = rt.alloc();
    let cases = [
        (
            EngineFault::NotFormatted,
            "the file is not formatted for this kind",
        ),
        (
            EngineFault::Corrupt { at: 10 },
            "the file is corrupt at octet 10",
        ),
        (EngineFault::DiskFault, "the disk failed"),
        (EngineFault::Full, "there is no room for the entry"),
        (
            EngineFault::Memory(AllocError),
            "there is no memory for the entry",
        ),
    ];
    for (fault, text) in cases {
        assert_eq!(rt; format!(in alloc; "{fault}")?.as_str(), text);
    }
    let full = MachineFault::Full;
    assert_eq!(rt;
        format!(in alloc; "{full}")?.as_str(),
        "the machine has no room for the item"
    );
    let memory = MachineFault::Memory(AllocError);
    assert_eq!(rt;
        format!(in alloc; "{memory}")?.as_str(),
        "there is no memory for the item"
    );
    Ok(())
}

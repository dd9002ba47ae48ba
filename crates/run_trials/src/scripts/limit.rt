// A machine's own limit: 9 comes at the item beyond it and at a file that passed it, and at nothing else.
ghost use Rattle.std.specs.Prelude.{◌≡◌, ℕ, List, [], ◌∷◌, Some};
ghost use Rattle.board_core.specs.declared.step.Told.{Told};
ghost use Rattle.pef_engine.specs.declared.script.ScriptStep.TheVariants.{Takes};
ghost use Rattle.script_run.specs.Items.{text_says, items_of_text};
ghost use Rattle.script_run.specs.Room.{LacksRoom};
ghost use Rattle.script_run.specs.Top.{MayEnd};
ghost use Rattle.run_trials.specs.Shelf.{shelf_rules, shelf_scripts, shelf_kind, shelf_settings, script_of_puts};

use super::shelf::Shelf;
use board_core::{MemBoard, MemSink, MemSource};
use pef_engine::{Engine, EngineFault};
use script_run::run;
use std::alloc::{AllocError, Global};
use std::process::Abort;
use std::test::Fail;

// The header of a console's file.
const HEADER: [u8; 6] = [0xA5, 2, 2, 0, 0x02, 0x6F];

// Entries with their gates: a script of no item, of three and of four is opened, an item, and a script is closed.
const OPEN_0: [u8; 12] = [0xA5, 9, 0, 5, 1, 0, 0, 0, 0, 0, 0, 0];

pub(super) const OPEN_3: [u8; 12] = [0xA5, 9, 0, 5, 1, 0, 0, 0, 3, 0, 0, 0];

pub(super) const OPEN_4: [u8; 12] = [0xA5, 9, 0, 5, 1, 0, 0, 0, 4, 0, 0, 0];

const OPEN_NEXT: [u8; 12] = [0xA5, 9, 0, 5, 2, 0, 0, 0, 1, 0, 0, 0];

pub(super) const PUT: [u8; 4] = [0xA5, 1, 0, 1];

pub(super) const CLOSE: [u8; 4] = [0xA5, 1, 0, 6];

pub(super) const THREE: &str = "script 00000001 3\nput\nput\nput\nend\n";

const FOUR: &str = "script 00000001 4\nput\nput\nput\nput\nend\n";

pub(super) const NEXT: &str = "script 00000002 1\nput\nend\n";

// A run over these entries, what it answers and writes, and which entries are in the file then.
#[derive(Clone, Copy)]
struct Case<'a> {
    before: &'a [&'a [u8]],
    text: &'a str,
    status: u8,
    written: &'a str,
    after: &'a [&'a [u8]],
}

// The file of these entries.
pub(super) fn file_with(alloc: Global, entries: &[&[u8]]) -> Result<Vec<u8>, AllocError> {
    let mut file = HEADER.to_vec(alloc)?;
    for entry in entries {
        file.extend_from_slice(entry)?;
    }
    file.push(0)?;
    Ok(file)
}

fn check(rt: &impl Abort, alloc: Global, case: &Case<'_>) {
    let before = file_with(alloc, case.before).expect(rt, "memory");
    let after = file_with(alloc, case.after).expect(rt, "memory");
    let mut board = MemBoard::new(alloc, before.as_slice(), &[], &[]).expect(rt, "memory");
    let mut source = MemSource::new(alloc, case.text.as_bytes(), &[]).expect(rt, "memory");
    let mut out = MemSink::new(alloc, None);
    let status = run::<Shelf, MemBoard, MemSource, MemSink>(
        alloc,
        &mut board,
        &mut source,
        &mut out,
    );
    assert_eq!(rt; status, case.status);
    assert_eq!(rt; out.written(), case.written.as_bytes());
    assert_eq!(rt; board.octets(), after.as_slice());
}

// The conditions under which a run ends with 0 are met by a script of three items, and the cause of 9 is there with the fourth.
fn three_have_room()
    ensures three { (text : List ℕ) → text_says shelf_scripts text ≡ Some (script_of_puts 3 (Takes ∷ Takes ∷ Takes ∷ [])) → MayEnd shelf_kind shelf_settings [] text }
    ensures four { (text : List ℕ) (tolds : List Told) → text_says shelf_scripts text ≡ Some (script_of_puts 4 (Takes ∷ Takes ∷ Takes ∷ Takes ∷ [])) →
        LacksRoom shelf_rules shelf_settings [] (items_of_text shelf_scripts text []) tolds }
{}

#[test]
fn a_run_is_full_exactly_at_the_item_beyond_the_limit(rt: HostRuntime) {
    let cases = [
        // three have room, also where the run goes on behind two of them
        Case {
            before: &[],
            text: THREE,
            status: 0,
            written: "opened\nput\nput\nput\nclosed\nok 5\n",
            after: &[&OPEN_3, &PUT, &PUT, &PUT, &CLOSE],
        },
        Case {
            before: &[&OPEN_3, &PUT, &PUT],
            text: THREE,
            status: 0,
            written: "put\nclosed\nok 2\n",
            after: &[&OPEN_3, &PUT, &PUT, &PUT, &CLOSE],
        },
        // the fourth has none, in one run and in the next
        Case {
            before: &[],
            text: FOUR,
            status: 9,
            written: "opened\nput\nput\nput\nfull\n",
            after: &[&OPEN_4, &PUT, &PUT, &PUT],
        },
        Case {
            before: &[&OPEN_4, &PUT, &PUT, &PUT],
            text: FOUR,
            status: 9,
            written: "full\n",
            after: &[&OPEN_4, &PUT, &PUT, &PUT],
        },
        // openings and closings have room at the limit
        Case {
            before: &[&OPEN_3, &PUT, &PUT, &PUT, &CLOSE],
            text: NEXT,
            status: 9,
            written: "opened\nfull\n",
            after: &[&OPEN_3, &PUT, &PUT, &PUT, &CLOSE, &OPEN_NEXT],
        },
        Case {
            before: &[&OPEN_0, &CLOSE],
            text: NEXT,
            status: 0,
            written: "opened\nput\nclosed\nok 3\n",
            after: &[&OPEN_0, &CLOSE, &OPEN_NEXT, &PUT, &CLOSE],
        },
        // a file that passed the limit isn't opened
        Case {
            before: &[&OPEN_4, &PUT, &PUT, &PUT, &PUT],
            text: FOUR,
            status: 9,
            written: "full\n",
            after: &[&OPEN_4, &PUT, &PUT, &PUT, &PUT],
        },
        // nor is one whose script has no fourth item, but for another reason
        Case {
            before: &[&OPEN_3, &PUT, &PUT, &PUT, &PUT],
            text: THREE,
            status: 3,
            written: "unformatted\n",
            after: &[&OPEN_3, &PUT, &PUT, &PUT, &PUT],
        },
    ];
    for case in &cases {
        check(&rt, rt.alloc(), case);
    }
}

#[test]
fn a_file_is_full_exactly_where_it_passed_the_limit(rt: HostRuntime) -> Result<(), Fail> {
    let alloc = rt.alloc();
    let cases: [(&[&[u8]], Option<EngineFault>); 4] = [
        (&[&OPEN_4, &PUT, &PUT, &PUT], None),
        (&[&OPEN_4, &PUT, &PUT, &PUT, &PUT], Some(EngineFault::Full)),
        (
            &[&OPEN_4, &PUT, &PUT, &PUT, &PUT, &CLOSE],
            Some(EngineFault::Full),
        ),
        (
            &[&OPEN_3, &PUT, &PUT, &PUT, &PUT],
            Some(EngineFault::Corrupt { at: 30 }),
        ),
    ];
    for (entries, fault) in cases {
        let file = file_with(alloc, entries)?;
        let mut board = MemBoard::new(alloc, file.as_slice(), &[], &[])?;
        let opened = Engine::<Shelf>::open(alloc, &mut board);
        assert_eq!(rt; opened.err(), fault);
    }
    Ok(())
}

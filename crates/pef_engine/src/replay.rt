//! Opening an engine: the entries of the file are replayed.
ghost use Rattle.std.specs.Prelude.{◌≡◌, ℕ, List, length, IsErrOf};
ghost use Rattle.pef_engine.specs.declared.entry.Entry.{Entry};
ghost use Rattle.pef_engine.specs.Rules.{Lawful};
ghost use Rattle.pef_engine.specs.Engine.{Opens, ReplaysOne};

use crate::engine::{Engine, make_ready};
use crate::faults::EngineFault;
use crate::machine::Machine;
use board_core::{Board, Payload};
use pef_journal::{Journal, MAX_SETTINGS};
use std::alloc::Global;

impl<M: Machine> Engine<M> {
    /// Syncs, and replays the file's entries; it writes nothing. `NotFormatted` and `Corrupt` come only where the file isn't a valid
    /// state file of the machine's kind, and then it isn't opened; `Memory` where there is none for the machine or for one of the
    /// entries, and `Full` only where the machine's own limit leaves no room for one.
    pub fn open<B: Board>(alloc: Global, board: &mut B) -> Result<Engine<M>, EngineFault>
        ensures { Opens M.rules M.view (B.view board.old) (B.view board.new) result }
    {
        let mut settings = [0u8; MAX_SETTINGS];
        Self::replay(alloc, board, &mut settings[..M::kind().settings])
    }

    // Reads the settings and replays the entries.
    fn replay<B: Board>(
        alloc: Global,
        board: &mut B,
        settings: &mut [u8],
    ) -> Result<Engine<M>, EngineFault>
        requires { length settings.old ≡ M.rules.kind.settings }
        ensures { Opens M.rules M.view (B.view board.old) (B.view board.new) result }
    {
        let mut journal = Journal::open(board, M::kind(), settings)?;
        let mut machine = M::fresh(alloc, settings)?;
        let mut payload = Payload::new();
        'entries: loop {
            let gate = journal.place();
            if !journal.entry(board, &mut payload)? {
                break 'entries;
            }
            replay_one(&mut machine, payload.as_slice(), gate)?;
        }
        Ok(Engine {
            machine,
            journal,
            live: true,
        })
    }
}

// Goes on with the entry of these octets, which stands behind this gate.
fn replay_one<M: Machine>(machine: &mut M, octets: &[u8], gate: u64) -> Result<(), EngineFault>
    ensures replays { (Z : List ℕ) (H : List (Entry M.Item)) → Lawful M.rules Z H → (M.view machine.old).shows Z H →
        ReplaysOne M.rules (M.view machine.new) Z H octets.now gate result }
    ensures never { (IsErrOf result EngineFault.DiskFault → ⊥) × (IsErrOf result EngineFault.NotFormatted → ⊥) }
{
    let Some(entry) = M::decode_entry(octets) else {
        return Err(EngineFault::Corrupt { at: gate });
    };
    if !machine.allows(&entry) {
        return Err(EngineFault::Corrupt { at: gate });
    }
    match make_ready(machine, &entry) {
        Ok(()) => {
            machine.apply(&entry);
            Ok(())
        }
        Err(fault) => Err(fault),
    }
}

//! Running over a feed on an engine that is open.
ghost use Rattle.std.specs.Prelude.{◌≡◌, ℕ, List, IsErrOf};
ghost use Rattle.pef_engine.specs.declared.entry.Entry.{Entry};
ghost use Rattle.pef_engine.specs.Rules.{Lawful};
ghost use Rattle.pef_engine.specs.Scripts.{script_of};
ghost use Rattle.pef_engine.specs.Engine.{IsLive, HasPlace, ShowsSome};
ghost use Rattle.script_run.specs.Going.{kind, world};
ghost use Rattle.feed_run.specs.Arriving.{IsUnfinished, NamesIt, Refuses};
ghost use Rattle.feed_run.specs.Feeding.{IsRefusal, Feeds, feed_at};

use crate::arrivals::take_arrivals;
use crate::stop::FeedStop;
use board_core::{Board, Feed, Sink};
use pef_engine::{Engine, Fed, Script};
use script_run::settle_and_say;

/// Settles what an earlier run left, and takes what arrives, where no script is unfinished. Answers how many items were taken.
pub(crate) fn follow<M: Fed, B: Board, F: Feed, K: Sink>(
    engine: &mut Engine<M>,
    board: &mut B,
    feed: &mut F,
    out: &mut K,
    arrivals: u32,
) -> Result<u32, FeedStop>
    requires live { IsLive engine.old }
    requires place { HasPlace (B.view board.old) engine.old }
    requires shows { ShowsSome M.rules (M.view engine.old.machine) }
    ensures feeds { Feeds (kind M.rules M.view M.scripts) M.item_at arrivals
        (world (B.view board.old) engine.old (K.written out.old) (K.faults out.old)) (world (B.view board.new) engine.new (K.written out.new) (K.faults out.new))
        (feed_at (F.arrivals feed.old) (F.faults feed.old)) (feed_at (F.arrivals feed.new) (F.faults feed.new)) result }
    // a script is named only where it is unfinished
    ensures named { (id count : _) → IsErrOf result (FeedStop.Unfinished id count) → (Z : List ℕ) (H : List (Entry M.Item)) → Lawful M.rules Z H → (M.view engine.old.machine).shows Z H → NamesIt (script_of M.scripts H) id count }
    // and where one is, it is named, and nothing is done
    ensures refused { (Z : List ℕ) (H : List (Entry M.Item)) → Lawful M.rules Z H → (M.view engine.old.machine).shows Z H → IsUnfinished (script_of M.scripts H) →
        (board.new ≡ board.old) × (feed.new ≡ feed.old) × IsRefusal result }
{
    let script = engine.machine().script();
    refuse_unfinished(&script)?;
    settle_and_say(engine, board, out)?;
    take_arrivals(engine, board, feed, out, arrivals)
}

// Refused where the script that was opened last is unfinished.
fn refuse_unfinished(script: &Option<Script>) -> Result<(), FeedStop>
    ensures { Refuses script.now result }
{
    let Some(script) = script else {
        return Ok(());
    };
    if script.closed {
        return Ok(());
    }
    Err(FeedStop::Unfinished {
        id: script.id,
        count: script.count,
    })
}

//! Asking the feed, and taking what arrives.
ghost use Rattle.std.specs.Prelude.{◌≡◌, ◌≤◌, length, IfOk, OnOk, IsErr, IsErrOf};
ghost use Rattle.board_core.specs.Causes.{HasCause};
ghost use Rattle.pef_engine.specs.CrashFree.{option_list};
ghost use Rattle.pef_engine.specs.Engine.{IsLive, HasPlace};
ghost use Rattle.script_run.specs.Going.{Goes, stop_in, kind, world};
ghost use Rattle.feed_run.specs.Arriving.{GivesNext, TakesAny};
ghost use Rattle.feed_run.specs.Feeding.{Feeds, feed_at};

use crate::stop::FeedStop;
use board_core::{Arrival, Board, Feed, Sink};
use pef_engine::{Engine, Fed};
use script_run::{StepStop, take_one};

/// Takes the items of the arrivals that the feed gives, up to so many arrivals or the end. Answers how many items were taken.
pub(crate) fn take_arrivals<M: Fed, B: Board, F: Feed, K: Sink>(
    engine: &mut Engine<M>,
    board: &mut B,
    feed: &mut F,
    out: &mut K,
    arrivals: u32,
) -> Result<u32, FeedStop>
    requires live { IsLive engine.old }
    requires place { HasPlace (B.view board.old) engine.old }
    requires ready { TakesAny M.rules M.scripts (M.view engine.old.machine) }
    ensures feeds { Feeds (kind M.rules M.view M.scripts) M.item_at arrivals
        (world (B.view board.old) engine.old (K.written out.old) (K.faults out.old)) (world (B.view board.new) engine.new (K.written out.new) (K.faults out.new))
        (feed_at (F.arrivals feed.old) (F.faults feed.old)) (feed_at (F.arrivals feed.new) (F.faults feed.new)) result }
    ensures known { (id count : _) → IsErrOf result (FeedStop.Unfinished id count) → ⊥ }
{
    let mut left = arrivals;
    let mut items = 0u32;
    'arrivals: loop {
        if left == 0 {
            return Ok(items);
        }
        let Some(arrival) = next_arrival(feed)? else {
            return Ok(items);
        };
        left -= 1;
        items += take_arrival(engine, board, out, &arrival)?;
    }
}

// The next datagram or tick, by one call; None at the end.
fn next_arrival<F: Feed>(feed: &mut F) -> Result<Option<Arrival>, FeedStop>
    ensures given { GivesNext (F.arrivals feed.old) (F.arrivals feed.new) result }
    ensures cause { HasCause (F.faults feed.old) (F.faults feed.new) result }
    ensures failed { IsErr result → IsErrOf result FeedStop.Failed }
{
    match feed.next() {
        Arrival::Datagram { from, octets } => Ok(Some(Arrival::Datagram { from, octets })),
        Arrival::Tick => Ok(Some(Arrival::Tick)),
        Arrival::End => Ok(None),
        Arrival::Failed => Err(FeedStop::Failed),
    }
}

// Takes the item of an arrival, where the machine has one. Answers how many items were taken.
fn take_arrival<M: Fed, B: Board, K: Sink>(
    engine: &mut Engine<M>,
    board: &mut B,
    out: &mut K,
    arrival: &Arrival,
) -> Result<u32, StepStop>
    requires live { IsLive engine.old }
    requires place { HasPlace (B.view board.old) engine.old }
    requires ready { TakesAny M.rules M.scripts (M.view engine.old.machine) }
    ensures goes { Goes (kind M.rules M.view M.scripts)
        (world (B.view board.old) engine.old (K.written out.old) (K.faults out.old)) (world (B.view board.new) engine.new (K.written out.new) (K.faults out.new))
        (option_list (M.item_at arrival.now)) (stop_in result) }
    ensures count { IfOk result (λ n. n ≡ length (option_list (M.item_at arrival.now))) }
    ensures few { IfOk result (λ n. n ≤ 1) }
    ensures ready { OnOk result (TakesAny M.rules M.scripts (M.view engine.new.machine)) }
{
    let Some(item) = M::item_of_arrival(arrival) else {
        return Ok(0);
    };
    take_one(engine, board, out, item)?;
    Ok(1)
}

//! A machine whose items come from a feed too.
ghost use Rattle.std.specs.Prelude.{◌≡◌, Option, Some, IfSome};
ghost use Rattle.board_core.specs.declared.feed.Arrival.{Arrival};
ghost use Rattle.pef_engine.specs.declared.entry.Entry.{Entry};
ghost use Rattle.pef_engine.specs.declared.script.ScriptStep.TheVariants.{Takes};

use crate::scripted::Scripted;
use board_core::Arrival;

/// A machine that takes items from a feed, where no script is unfinished.
pub trait Fed: Scripted {
    /// The item of an arrival, and none where the machine passes it over.
    ghost item_at: { Arrival → Option Self.Item };

    /// The item of an arrival, and None where the machine passes it over.
    fn item_of_arrival(arrival: &Arrival) -> Option<Self::Item>
        ensures item { result ≡ item_at arrival.now }
        ensures entry { IfSome result (λ item. Self.rules.is_entry (Entry.Item item)) };

    /// No arrival opens or closes a script.
    ghost takes: { (arrival : Arrival) (item : Self.Item) → item_at arrival ≡ Some item → Self.scripts.step item ≡ Takes };
}

//! A machine whose items come from scripts.
ghost use Rattle.std.specs.Prelude.{◌≡◌, ℕ, List, [], ◌∷◌, ◌++◌, Option, IfSome};
ghost use Rattle.pef_engine.specs.declared.entry.Entry.{Entry};
ghost use Rattle.pef_engine.specs.declared.entry.Entry.TheVariants.{Item};
ghost use Rattle.pef_engine.specs.Rules.{Lawful};
ghost use Rattle.pef_engine.specs.Scripts.{ScriptRules, IsScripted, script_of};

use crate::machine::Machine;
use crate::script::Script;
use report_line::ReportLine;

/// A machine that takes its items from scripts and reports each one that it took.
pub trait Scripted: Machine {
    /// What its scripts and its report mean.
    ghost scripts: { ScriptRules Self.Item };

    /// The first word of a script.
    fn word() -> &'static [u8]
        ensures { result.now ≡ scripts.word };

    /// The script that was opened last, and None where none was.
    fn script(&self) -> Option<Script>
        ensures { (Z : List ℕ) (H : List (Entry Self.Item)) → Lawful Self.rules Z H → (Self.view self.now).shows Z H → result ≡ script_of scripts H };

    /// The item that opens a script of `count` items.
    fn opening(id: u32, count: u32) -> Self::Item
        ensures item { result ≡ scripts.opening id count }
        ensures entry { Self.rules.is_entry (Entry.Item result) };

    /// The item that closes the open script.
    fn closing() -> Self::Item
        ensures item { result ≡ scripts.closing }
        ensures entry { Self.rules.is_entry (Entry.Item result) };

    /// The item of a line between a script's head and its end, and None where the line is bad.
    fn item_of(line: &[u8]) -> Option<Self::Item>
        ensures item { result ≡ scripts.item_of line.now }
        ensures entry { IfSome result (λ item. Self.rules.is_entry (Entry.Item item)) };

    /// The report's line of the item that was taken last.
    fn say(&self, item: &Self::Item) -> ReportLine
        ensures { (Z : List ℕ) (H : List (Entry Self.Item)) → Lawful Self.rules Z (H ++ Entry.Item item.now ∷ []) → (Self.view self.now).shows Z (H ++ Entry.Item item.now ∷ []) → result ≡ scripts.item_line Z H item.now };

    /// Its rule of which items may come is the rule of scripts.
    ghost scripted: { IsScripted Self.rules scripts };
}

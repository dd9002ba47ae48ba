//! Laws: each definition of a text's parts holds exactly of the texts that spell it.
ghost use Rattle.std.specs.Prelude.{◌≡◌, ◌↔◌, ℕ, List, Option, Some, None};
ghost use Rattle.script_text.specs.Lines.{lines_of, SpellsLines};
ghost use Rattle.script_text.specs.Script.{head_of, SpellsHead, said_of, said, IsWholeScript, HasBadLine, HasNoHead};

use crate::head::Head;

/// A law: a text has lines exactly where it spells them.
pub fn lines_spelled()
    ensures { (text : List ℕ) (lines : List (List ℕ)) → lines_of text ≡ lines ↔ SpellsLines lines text }
{}

/// A law: a line is a head exactly where it is so spelled.
pub fn head_spelled()
    ensures { (word line : List ℕ) (head : Head) → head_of word line ≡ Some head ↔ SpellsHead word head.id head.count line }
{}

/// A law: what a text says as a script is what it spells: a whole script, a script with a bad line, or one with no head. It holds
/// for the lines of any machine.
pub fn script_spelled<I>()
    ensures whole { (word : List ℕ) (item_of : List ℕ → Option I) (text : List ℕ) (id count : ℕ) (items : List I) →
        said_of word item_of text ≡ Some (said id count items None) ↔ IsWholeScript word item_of id count items text }
    ensures bad { (word : List ℕ) (item_of : List ℕ → Option I) (text : List ℕ) (id count : ℕ) (items : List I) (number : ℕ) →
        said_of word item_of text ≡ Some (said id count items (Some number)) ↔ HasBadLine word item_of id count items number text }
    ensures no_head { (word : List ℕ) (item_of : List ℕ → Option I) (text : List ℕ) → said_of word item_of text ≡ None ↔ HasNoHead word (lines_of text) }
{}

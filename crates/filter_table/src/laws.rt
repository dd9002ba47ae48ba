//! Laws over definitions alone.
ghost use Rattle.std.specs.Prelude.{List, ℕ, ◌↔◌, IsTrue};
ghost use Rattle.filter_table.specs.BitTest.{is_match};
ghost use Rattle.filter_table.specs.Matching.{Matches};

/// The test by single bits, by which lists are selected, says of any octets of a filter and a record what the standard's
/// conditions say. It does nothing when it runs.
pub fn matching_law()
    ensures { (filter event : List ℕ) → IsTrue (is_match filter event) ↔ Matches filter event }
{}

//! What holds of all octets, whoever wrote them.
ghost use Rattle.std.specs.Prelude.{◌⊎◌, ℕ, List};
ghost use Rattle.snmp_trap.specs.Grammar.{Seen};
ghost use Rattle.snmp_trap.specs.Laws.{IsOneTrap, IsOneRefusal, IsNoPrefix, IsOneSpelling};

/// Any octets are a trap message in one way, or are refused for one reason at one place, and never both.
pub fn one_answer()
    ensures { (octets : List ℕ) → IsOneTrap octets ⊎ IsOneRefusal octets }
{}

/// No trap message begins another, so it is known where one ends.
pub fn no_prefix()
    ensures { (octets rest : List ℕ) → IsNoPrefix octets rest }
{}

/// A trap has one shortest spelling, so what is written is known from what it says.
pub fn one_spelling()
    ensures { (v : Seen) → IsOneSpelling v }
{}

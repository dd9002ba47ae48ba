//! The alert policy table.
ghost use Rattle.std.specs.Prelude.{◌≡◌, ◌+◌, ◌<◌, OnOk, OnErr, IfOk, slice_get};
ghost use Rattle.std.specs.Result.{result_err};
ghost use Rattle.policy_table.specs.Table.{number_fault, zero_entries, entry_numbered, Replaces};

use crate::entry::PolicyEntry;
use crate::fault::NoSuch;
use std::marker::Model;

/// How many entries the table has.
pub const ENTRIES: usize = 16;

/// The alert policy table: 16 entries, numbered from 1.
#[derive(Clone, Copy, Debug)]
pub struct Policies {
    entries: [PolicyEntry; ENTRIES],
}

impl Model for Policies {
    ghost use Rattle.std.specs.Prelude.{◌≡◌, List, ℕ, length};

    ghost Value = { List (List ℕ) };

    ghost view = { λ p. p.entries };

    ghost invariant = { λ p. length p.entries ≡ 16 };

    ghost inverse = { λ entries. record { entries = entries } };
}

impl Policies {
    /// A table of zeros.
    pub fn new() -> Policies
        ensures { result ≡ zero_entries 16 }
    {
        Policies {
            entries: [PolicyEntry::read(&[0; 3]); ENTRIES],
        }
    }

    /// The entry of this number.
    pub fn get(&self, number: u8) -> Result<PolicyEntry, NoSuch>
        ensures refused { result_err result ≡ number_fault 16 number }
        ensures found { IfOk result (λ entry. entry_numbered number self.now ≡ Some entry) }
    {
        let place = place_of(number)?;
        Ok(self.entries[place])
    }

    /// Puts an entry in the place of the one of this number. A refusal changes nothing.
    pub fn set(&mut self, number: u8, entry: PolicyEntry) -> Result<(), NoSuch>
        ensures refused { result_err result ≡ number_fault 16 number }
        ensures replaced { OnOk result (Replaces number entry self.old self.new) }
        ensures kept { OnErr result (self.new ≡ self.old) }
    {
        let place = place_of(number)?;
        self.entries[place] = entry;
        Ok(())
    }
}

/// The place of the entry of this number, counted from 0.
fn place_of(number: u8) -> Result<usize, NoSuch>
    ensures refused { result_err result ≡ number_fault 16 number }
    ensures place { IfOk result (λ place. (place + 1 ≡ number) × (place < 16)) }
{
    if number == 0 || usize::from(number) > ENTRIES {
        return Err(NoSuch(number));
    }
    Ok(usize::from(number) - 1)
}

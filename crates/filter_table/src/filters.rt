//! The table of event filters.
ghost use Rattle.std.specs.Prelude.{◌≡◌, ◌+◌, ◌<◌, ◌∷◌, drop, length, IfOk, OnOk, OnErr};
ghost use Rattle.std.specs.Result.{result_err};
ghost use Rattle.filter_table.specs.Filters.{number_fault, numbered, no_filters, Replaces};

use crate::fault::NoSuch;
use crate::filter::Filter;
use std::marker::Model;

/// How many filters the table has.
const FILTERS: usize = 16;

/// The event filter table: sixteen filters, counted from 1 (IPMI 2.0, section 17.7).
#[derive(Drop)]
pub struct Filters {
    filters: [Filter; FILTERS],
}

impl Model for Filters {
    ghost use Rattle.std.specs.Prelude.{◌≡◌, List, ℕ, length};

    ghost Value = { List (List ℕ) };

    ghost view = { λ f. f.filters };

    ghost invariant = { λ f. length f.filters ≡ 16 };
}

impl Filters {
    /// Sixteen filters of zeros, which match nothing.
    pub fn new() -> Filters
        ensures { result ≡ no_filters 16 }
    {
        Filters {
            filters: [Filter::read(&[0; 20]); FILTERS],
        }
    }

    /// The filter of this number. There is none where the number isn't 1 to 16.
    pub fn get(&self, number: u8) -> Result<Filter, NoSuch>
        ensures refused { result_err result ≡ number_fault 16 number }
        ensures found { IfOk result (λ filter. filter ≡ numbered self.now number) }
    {
        let place = place_of(number)?;
        Ok(self.filters[place])
    }

    /// Replaces the filter of this number. There is none where the number isn't 1 to 16, and then nothing changes.
    pub fn set(&mut self, number: u8, filter: Filter) -> Result<(), NoSuch>
        ensures refused { result_err result ≡ number_fault 16 number }
        ensures replaced { OnOk result (Replaces self.old self.new number filter) }
        ensures kept { OnErr result (self.new ≡ self.old) }
    {
        let place = place_of(number)?;
        self.filters[place] = filter;
        Ok(())
    }

    /// Replaces the first octet of the filter of this number. There is none where the number isn't 1 to 16, and then
    /// nothing changes.
    pub fn set_first(&mut self, number: u8, octet: u8) -> Result<(), NoSuch>
        ensures refused { result_err result ≡ number_fault 16 number }
        ensures replaced { OnOk result (Replaces self.old self.new number (octet ∷ drop 1 (numbered self.old number))) }
        ensures kept { OnErr result (self.new ≡ self.old) }
    {
        let filter = self.get(number)?;
        self.set(number, filter.with_first(octet))
    }

    /// All filters, from number 1 on.
    pub fn as_slice(&self) -> &[Filter]
        ensures filters { result.now ≡ self.now }
        ensures count { length result.now ≡ 16 }
    {
        &self.filters
    }
}

/// The place of a filter, counted from 0.
fn place_of(number: u8) -> Result<usize, NoSuch>
    ensures refused { result_err result ≡ number_fault 16 number }
    ensures place { IfOk result (λ place. place + 1 ≡ number) }
    ensures within { IfOk result (λ place. place < 16) }
{
    match number {
        1..=16 => Ok(usize::from(number) - 1),
        _ => Err(NoSuch(number)),
    }
}

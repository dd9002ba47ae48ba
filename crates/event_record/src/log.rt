//! The records that were logged.

ghost use Rattle.std.specs.Prelude.{◌≡◌, ◌↔◌, ◌<◌, ℕ, [], ◌∷◌, ◌++◌, length, map, IfOk, OnOk, OnErr, IsOk, IsErrOf, IfSome, IsSome, slice_get, slice_index, option_copied};
ghost use Rattle.std.specs.Result.{result_err};
ghost use Rattle.event_record.specs.Log.{place_in, add_fault, HoldsId, IsLog};
ghost use Rattle.event_record.specs.Fields.{record_id};

use crate::event::Record;
use crate::fault::LogFault;
use std::alloc::{AllocError, Global};
use std::marker::Model;

/// How many records a log has room for.
pub const RECORDS: usize = 1_024;

/// The system event log: at most 1,024 records with distinct IDs, in the order in which they were
/// added. Its room is taken when it is made, so adding takes no memory.
#[derive(Debug, Drop)]
pub struct Log {
    records: Vec<Record>,
}

impl Model for Log {
    ghost use Rattle.std.specs.Prelude.{List, ℕ, ◌≤◌, vec_capacity};
    ghost use Rattle.event_record.specs.Log.{IsLog};

    ghost Value = { List (List ℕ) };

    ghost view = { λ l. l.records.items };

    ghost invariant = { λ l. IsLog l.records.items × (1024 ≤ vec_capacity l.records) };
}

impl Log {
    /// An empty log, with room for all its records.
    pub fn new(alloc: Global) -> Result<Log, AllocError>
        ensures { IfOk result (λ log. log ≡ []) }
    {
        Ok(Log {
            records: Vec::with_capacity(alloc, RECORDS)?,
        })
    }

    /// Appends a record. It is a duplicate where its ID is held; else the log is full where it
    /// holds 1,024 records. A refusal changes nothing.
    pub fn add(&mut self, event: Record) -> Result<(), LogFault>
        ensures refused { result_err result ≡ add_fault self.old event }

        // the same in other words
        ensures duplicate { (id : ℕ) → IsErrOf result (LogFault.Duplicate id) ↔ ((id ≡ record_id event) × HoldsId self.old id) }
        ensures full { IsErrOf result LogFault.Full ↔ ((HoldsId self.old (record_id event) → ⊥) × (length self.old ≡ 1024)) }
        ensures room { IsOk result ↔ ((HoldsId self.old (record_id event) → ⊥) × (length self.old < 1024)) }

        ensures added { OnOk result (self.new ≡ self.old ++ event ∷ []) }
        ensures kept { OnErr result (self.new ≡ self.old) }
    {
        let id = event.id();
        if self.place_of(id).is_some() {
            return Err(LogFault::Duplicate(id));
        }
        if self.records.len() == RECORDS {
            return Err(LogFault::Full);
        }
        self.records.push_reserved(event);
        Ok(())
    }

    /// Removes all records (IPMI 2.0, section 31.9). Their room is kept, so this takes no memory, nor does adding again.
    pub fn clear(&mut self)
        ensures { self.new ≡ [] }
    {
        self.records.clear();
    }

    /// How many records are held.
    pub fn len(&self) -> usize
        ensures count { result ≡ length self.now }
        ensures lawful { IsLog self.now }
    {
        self.records.len()
    }

    /// The record at a place, counted from 0.
    pub fn get(&self, place: usize) -> Option<&Record>
        ensures { option_copied result ≡ slice_get self.now place }
    {
        self.records.get(place)
    }

    /// The place of the record with this ID, counted from 0.
    pub fn place_of(&self, id: u16) -> Option<usize>
        ensures place { result ≡ place_in self.now id }
        ensures held { IsSome result ↔ HoldsId self.now id }
        ensures there { IfSome result (λ place. (place < length self.now) × (slice_index (map record_id self.now) place ≡ id)) }
    {
        first_with(&self.records, id)
    }
}

// The place of the first record with this ID.
fn first_with(records: &[Record], id: u16) -> Option<usize>
    ensures { result ≡ place_in records.now id }
{
    records.iter().position(|event| event.id() == id)
}

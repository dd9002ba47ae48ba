//! The rows of a console, and the place of each by its key.
ghost use Rattle.std.specs.Prelude.{◌≤◌, length};
ghost use Rattle.trap_console.specs.Rows.{row_limit};
ghost use Rattle.trap_console.specs.Index.{IsIndexed};

use crate::heard::Heard;
use crate::key::{Key, has_key, key_of};
use crate::row::Row;
use pef_engine::MachineFault;
use std::alloc::{AllocError, Global};
use std::collections::BTreeMap;

/// How many rows there are at most.
const ROWS: usize = 65_536;

/// The rows in the order in which they arrived. Whoever sends traps chooses the keys, so they are looked up in an ordered map, in
/// which no choice of keys makes a lookup slow.
#[derive(Drop)]
pub(crate) struct Ledger {
    rows: Vec<Row>,
    // The place of each row. The key of a trap that there was room made for and that wasn't entered stays in it too; the row at its
    // place, where there is one, has another key.
    places: BTreeMap<Key, usize>,
    ghost within: { length rows.items ≤ row_limit },
    ghost indexed: { IsIndexed rows.items places },
}

impl Ledger {
    ghost use Rattle.std.specs.Prelude.{◌≡◌, ◌↔◌, ◌<◌, ◌≤◌, [], length, OnOk, IsErr, IsErrOf, None, slice_get, option_copied};
    ghost use Rattle.trap_console.specs.Rows.{key_of, place_in, rows_and, heard_at, row_limit};
    ghost use Rattle.trap_console.specs.Ledger.{HasRoom, IsReadyFor};

    /// A ledger without rows, which takes no memory.
    pub fn new(alloc: Global) -> Ledger
        ensures { result.rows.items ≡ [] }
    {
        Ledger {
            rows: Vec::new(alloc),
            places: BTreeMap::new(alloc),
        }
    }

    /// The rows in the order in which they arrived.
    pub fn rows(&self) -> &[Row]
        ensures rows { result.now ≡ self.now.rows.items }
        ensures few { length result.now ≤ row_limit }
    {
        &self.rows
    }

    fn row_at(&self, place: usize) -> Option<&Row>
        ensures { option_copied result ≡ slice_get self.now.rows.items place }
    {
        self.rows.get(place)
    }

    // The place of the first row with this key.
    fn place_of(&self, key: &Key) -> Option<usize>
        ensures { result ≡ place_in self.now.rows.items key.now }
    {
        let place = *self.places.get(key)?;
        let row = self.row_at(place)?;
        if has_key(row, key) { Some(place) } else { None }
    }

    /// Makes room for a row with this key, where none has it yet.
    pub fn make_ready(&mut self, key: &Key) -> Result<(), MachineFault>
        ensures rows { self.new.rows.items ≡ self.old.rows.items }
        ensures ready { OnOk result (place_in self.old.rows.items key.now ≡ None → HasRoom self.new key.now) }
        ensures full { IsErrOf result MachineFault.Full ↔ ((place_in self.old.rows.items key.now ≡ None) × (row_limit ≤ length self.old.rows.items)) }
        ensures new { IsErr result → place_in self.old.rows.items key.now ≡ None }
    {
        if self.place_of(key).is_some() {
            return Ok(());
        }
        if self.rows.len() == ROWS {
            return Err(MachineFault::Full);
        }
        match self.make_room(*key) {
            Ok(()) => Ok(()),
            Err(error) => Err(MachineFault::Memory(error)),
        }
    }

    // Makes room for a row with a new key.
    fn make_room(&mut self, key: Key) -> Result<(), AllocError>
        requires new { place_in self.old.rows.items key ≡ None }
        requires few { length self.old.rows.items < row_limit }
        ensures rows { self.new.rows.items ≡ self.old.rows.items }
        ensures room { OnOk result (HasRoom self.new key) }
    {
        let place = self.rows.len();
        self.rows.reserve(1)?;
        self.places.insert(key, place)?;
        Ok(())
    }

    /// Enters a trap, which is a row at the end where no row has its key. Takes no memory.
    pub fn enter(&mut self, row: Row) -> Heard
        requires { IsReadyFor self.old row }
        ensures rows { self.new.rows.items ≡ rows_and self.old.rows.items row }
        ensures heard { result ≡ heard_at (length self.old.rows.items) (place_in self.old.rows.items (key_of row.body)) }
    {
        match self.place_of(&key_of(&row.body)) {
            Some(place) => Heard::Again(place as u32 + 1),
            None => {
                self.rows.push_reserved(row);
                Heard::New(self.rows.len() as u32)
            }
        }
    }
}

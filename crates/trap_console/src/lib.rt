//! The console of platform event traps as a machine over its history: a ledger that has each trap once, and acknowledgements.
#![tactic(auto)]

mod arriving;
mod console;
mod entries;
mod heard;
mod item;
mod key;
mod laws;
mod ledger;
mod listing;
mod machine;
mod received;
mod report;
mod row;

pub use console::Console;
pub use heard::Heard;
pub use item::Item;
pub use key::{Key, key_of};
pub use laws::{acks_law, received_law, rows_law};
pub use listing::{list, row_line};
pub use row::Row;

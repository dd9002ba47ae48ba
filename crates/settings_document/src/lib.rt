//! Settings as a TOML document with a table of keys: reading the document, what stands at its keys, and whether it has
//! other keys.
#![tactic(auto)]

mod document;
mod values;

pub use document::{has_only, read_document};
pub use values::{number_or, value_at};

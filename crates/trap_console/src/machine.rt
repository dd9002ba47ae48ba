//! The console as a machine over its history.
ghost use Rattle.trap_console.specs.Histories.{console_rules};
ghost use Rattle.trap_console.specs.View.{view_of};
ghost use Rattle.trap_console.specs.Laws.{console_agrees, same_size, are_entries, some_octet};

use crate::console::Console;
use crate::entries;
use crate::item::Item;
use board_core::{Payload, Step};
use console_settings::KIND;
use pef_engine::{Entry, Machine, MachineFault};
use pef_journal::FileKind;
use std::alloc::{AllocError, Global};

/// A console's settings are the port for acknowledgements, the least significant octet first.
impl Machine for Console {
    type Item = Item;

    ghost rules = { console_rules };

    ghost view = { view_of };

    ghost agrees = { console_agrees };

    ghost same_size = { same_size };

    ghost are_entries = { are_entries };

    ghost some_octet = { some_octet };

    fn kind() -> FileKind {
        KIND
    }

    fn fresh(alloc: Global, settings: &[u8]) -> Result<Self, AllocError> {
        Ok(Console::new(alloc, u16::from_le_bytes([settings[0], settings[1]])))
    }

    fn allows(&self, entry: &Entry<Item>) -> bool {
        self.accepts(entry)
    }

    fn prepare(&mut self, item: &Item) -> Result<(), MachineFault> {
        self.make_ready(item)
    }

    fn apply(&mut self, entry: &Entry<Item>) {
        self.go_on(entry);
    }

    fn next(&self) -> Option<Step> {
        self.due()
    }

    fn encode_entry(entry: &Entry<Item>) -> Payload {
        entries::encode(entry)
    }

    fn decode_entry(octets: &[u8]) -> Option<Entry<Item>> {
        entries::decode(octets)
    }
}

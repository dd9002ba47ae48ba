//! The controller as a machine over its history.
ghost use Rattle.pef_core.specs.Histories.{controller_rules};
ghost use Rattle.pef_core.specs.View.{view_of};
ghost use Rattle.pef_core.specs.Laws.{controller_agrees, same_size, are_entries, some_octet};

use crate::controller::Controller;
use crate::entries;
use crate::item::{Item, step_in};
use crate::settings::own_of;
use board_core::{Payload, Step};
use pef_config::Initial;
use pef_engine::{Entry, Machine, MachineFault, may_come};
use pef_journal::FileKind;
use pef_settings::{ACTIONS, CONTROL, DELAY, FILTER, KIND};
use std::alloc::{AllocError, Global};

/// Of a controller's settings the last 23 octets are initial parameters.
impl Machine for Controller {
    type Item = Item;

    ghost rules = { controller_rules };

    ghost view = { view_of };

    ghost agrees = { controller_agrees };

    ghost same_size = { same_size };

    ghost are_entries = { are_entries };

    ghost some_octet = { some_octet };

    fn kind() -> FileKind {
        KIND
    }

    fn fresh(alloc: Global, settings: &[u8]) -> Result<Self, AllocError> {
        let mut filter = [0; 20];
        filter.copy_from_slice(&settings[FILTER..]);
        let initial = Initial {
            control: settings[CONTROL],
            actions: settings[ACTIONS],
            delay: settings[DELAY],
            filter,
        };
        Controller::new(alloc, own_of(settings), &initial)
    }

    fn allows(&self, entry: &Entry<Item>) -> bool {
        let is_due = self.next().is_some();
        match entry {
            Entry::Item(item) => !is_due && may_come(self.script, step_in(item)),
            Entry::Outcome(_) => is_due,
        }
    }

    fn prepare(&mut self, _item: &Item) -> Result<(), MachineFault> {
        Ok(())
    }

    fn apply(&mut self, entry: &Entry<Item>) {
        self.enter(entry);
        self.begin_next();
    }

    fn next(&self) -> Option<Step> {
        self.due()
    }

    fn encode_entry(entry: &Entry<Item>) -> Payload {
        entries::encode(entry)
    }

    fn decode_entry(octets: &[u8]) -> Option<Entry<Item>> {
        entries::decode(octets)
    }
}

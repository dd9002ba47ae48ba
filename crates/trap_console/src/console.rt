//! The console's state.
use crate::heard::Heard;
use crate::item::{Item, step_in};
use crate::key::key_of;
use crate::ledger::Ledger;
use crate::received::{ack_of, received};
use crate::row::Row;
use board_core::{Address, Step};
use pef_engine::{Entry, MachineFault, Script, may_come, script_behind};
use std::alloc::Global;

/// The console: the traps that it took, and the acknowledgement that is due.
#[derive(Drop)]
pub struct Console {
    /// The port at a sender's address to which acknowledgements go.
    port: u16,
    ledger: Ledger,
    script: Option<Script>,
    heard: Heard,
    /// The acknowledgement of the last item, as long as it has no outcome.
    due: Option<Step>,
}

impl Console {
    ghost use Rattle.std.specs.Prelude.{◌≡◌, ◌↔◌, ◌≤◌, ℕ, [], List, length, IsTrue, OnOk, IsErr, IsErrOf};
    ghost use Rattle.pef_engine.specs.Scripts.{MayCome, script_with, script_of};
    ghost use Rattle.trap_console.specs.Received.{received, due_by};
    ghost use Rattle.trap_console.specs.Rows.{rows_by, heard_by, row_limit};
    ghost use Rattle.trap_console.specs.Heard.{rows_of, heard_after, rows_with, heard_with};
    ghost use Rattle.trap_console.specs.Histories.{ack_port, due_behind, AddsRow, IsOver};
    ghost use Rattle.trap_console.specs.Report.{step_in, console_scripts};
    ghost use Rattle.trap_console.specs.View.{ShowsConsole, AllowedBy, IsReady, HasRoomFor, Continues};

    /// The console of this port at the start of its history.
    pub(crate) fn new(alloc: Global, port: u16) -> Console
        ensures { (Z : List ℕ) → port ≡ ack_port Z → ShowsConsole result Z [] }
    {
        Console {
            port,
            ledger: Ledger::new(alloc),
            script: None,
            heard: Heard::Nothing,
            due: None,
        }
    }

    /// The rows, in the order in which they arrived.
    pub fn rows(&self) -> &[Row]
        ensures rows { (Z : List ℕ) (H : List (Entry Item)) → ShowsConsole self.now Z H → result.now ≡ rows_of H }
        ensures few { length result.now ≤ row_limit }
    {
        self.ledger.rows()
    }

    /// What the last item was; an outcome leaves it as it is.
    pub fn heard(&self) -> Heard
        ensures { (Z : List ℕ) (H : List (Entry Item)) → ShowsConsole self.now Z H → result ≡ heard_after H }
    {
        self.heard
    }

    /// The capture that was opened last, and None where none was.
    pub(crate) fn opened(&self) -> Option<Script>
        ensures { (Z : List ℕ) (H : List (Entry Item)) → ShowsConsole self.now Z H → result ≡ script_of console_scripts H }
    {
        self.script
    }

    /// The acknowledgement that is due.
    pub(crate) fn due(&self) -> Option<Step>
        ensures { result ≡ self.now.due }
    {
        match &self.due {
            Some(step) => Some(step.copy()),
            None => None,
        }
    }

    /// Whether the entry may come next.
    pub(crate) fn accepts(&self, entry: &Entry<Item>) -> bool
        ensures { IsTrue result ↔ AllowedBy self.now entry.now }
    {
        match entry {
            Entry::Item(item) => self.due.is_none() && may_come(self.script, step_in(item)),
            Entry::Outcome(_) => self.due.is_some(),
        }
    }

    /// Makes the room that the item needs, and changes nothing else. It fails only for a new row: `Full` exactly for a row beyond the 65,536th.
    pub(crate) fn make_ready(&mut self, item: &Item) -> Result<(), MachineFault>
        ensures port { self.new.port ≡ self.old.port }
        ensures rows { self.new.ledger.rows.items ≡ self.old.ledger.rows.items }
        ensures script { self.new.script ≡ self.old.script }
        ensures heard { self.new.heard ≡ self.old.heard }
        ensures due { self.new.due ≡ self.old.due }
        ensures ready { OnOk result (IsReady self.new.ledger item.now) }
        ensures full { IsErrOf result MachineFault.Full ↔ IsOver self.old.ledger.rows.items item.now }
        ensures new { IsErr result → AddsRow self.old.ledger.rows.items item.now }
    {
        match item {
            Item::Datagram { from, octets } => match received(from, octets.as_slice()) {
                Ok(row) => self.ledger.make_ready(&key_of(&row.body)),
                Err(_) => Ok(()),
            },
            Item::Open { .. } | Item::Close => Ok(()),
        }
    }

    /// Goes on with an entry that is allowed and, where it is an item, made ready.
    pub(crate) fn go_on(&mut self, entry: &Entry<Item>)
        requires allowed { AllowedBy self.old entry.now }
        requires ready { HasRoomFor self.old.ledger entry.now }
        ensures { Continues self.old self.new entry.now }
    {
        self.due = match entry {
            Entry::Item(item) => self.take(item),
            Entry::Outcome(_) => None,
        };
    }

    // Takes an item, and answers what is due behind it.
    fn take(&mut self, item: &Item) -> Option<Step>
        requires may { MayCome self.old.script (step_in item.now) }
        requires ready { IsReady self.old.ledger item.now }
        ensures port { self.new.port ≡ self.old.port }
        ensures rows { self.new.ledger.rows.items ≡ rows_with self.old.ledger.rows.items (Entry.Item item.now) }
        ensures script { self.new.script ≡ script_with self.old.script (step_in item.now) }
        ensures heard { self.new.heard ≡ heard_with self.old.ledger.rows.items self.old.heard (Entry.Item item.now) }
        ensures due { result ≡ due_behind self.old.port (Entry.Item item.now) }
    {
        self.script = script_behind(self.script, step_in(item));
        match item {
            Item::Datagram { from, octets } => self.receive(from, octets.as_slice()),
            Item::Open { .. } | Item::Close => {
                self.heard = Heard::Nothing;
                None
            }
        }
    }

    // Takes a datagram, and answers its acknowledgement where it is a trap.
    fn receive(&mut self, from: &Address, octets: &[u8]) -> Option<Step>
        requires { IsReady self.old.ledger (Item.Datagram from.now octets.now) }
        ensures port { self.new.port ≡ self.old.port }
        ensures rows { self.new.ledger.rows.items ≡ rows_by self.old.ledger.rows.items (received from.now octets.now) }
        ensures script { self.new.script ≡ self.old.script }
        ensures heard { self.new.heard ≡ heard_by self.old.ledger.rows.items (received from.now octets.now) }
        ensures due { result ≡ due_by self.old.port (received from.now octets.now) }
    {
        match received(from, octets) {
            Ok(row) => {
                let ack = ack_of(&row, self.port);
                self.heard = self.ledger.enter(row);
                Some(ack)
            }
            Err(refusal) => {
                self.heard = Heard::Refused(refusal);
                None
            }
        }
    }
}

//! What the commands do.
ghost use Rattle.std.specs.Prelude.{◌≡◌, ◌==◌, if◌then◌else◌};
ghost use Rattle.pef_core.specs.Replies.{armed_by, is_no_string as is_no_string_of};

use crate::controller::Controller;
use crate::item::Item;
use crate::note::Note;
use crate::postpone::Postpone;
use crate::replying::{
    DONE, capabilities, cleared, code_alone, done_with, last_processed, timer_octet,
};
use board_core::Octets;
use event_record::Record;
use job_course::{Counts, Turn, Work};
use pef_commands::{Command, Request, parse};
use pef_match::{Job, Target, target_at_once};
use pet_body::PetAck;

/// Completion code: something runs, so no alert can begin at once (IPMI 2.0, section 30.7).
const BUSY: u8 = 0x81;

/// Completion code: there is no string of this number (IPMI 2.0, table 5-2).
const NO_STRING: u8 = 0xC9;

/// Completion code: no record has this ID, or there is no such destination to send to (IPMI 2.0, table 5-2).
const NO_SUCH: u8 = 0xCB;

/// Completion code: not while what it changes is in use (IPMI 2.0, table 5-2).
const NOT_NOW: u8 = 0xD5;

/// The greatest number of a string.
const LAST_STRING: u8 = 8;

impl Controller {
    ghost use Rattle.std.specs.Prelude.{◌≡◌, ◌≤◌, ◌∷◌, [], ◌&&◌, ◌||◌, nat_lt, length, Some, None, Ok, is_some, option_copied, if◌then◌else◌};
    ghost use Rattle.lan_dest.specs.Rows.{set_code as lan_code};
    ghost use Rattle.pef_config.specs.Kept.{tables};
    ghost use Rattle.pef_config.specs.Places.{our_sizes, write};
    ghost use Rattle.pef_config.specs.Rows.{set_code};
    ghost use Rattle.pef_match.specs.Parts.{CanBeSent};
    ghost use Rattle.pef_core.specs.After.{with_deed};
    ghost use Rattle.pef_core.specs.Course.{guid_by, number_of};
    ghost use Rattle.pef_core.specs.Deeds.{item_deed, reply_deed};
    ghost use Rattle.pef_core.specs.Past.{SetPef, SetLan, Acked, Sends};
    ghost use Rattle.pef_core.specs.Replies.{answer_by, answer_to_write, arm as arm_of, clear as clear_of, clear_status as clear_status_of, done_with as done_with_of, get_last as get_last_of, is_held, processed as processed_of, newest as newest_of, runs_alert as runs_alert_of, runs_job as runs_job_of, send as send_of, set_last as set_last_of};
    ghost use Rattle.pef_core.specs.Values.{force_of};
    ghost use Rattle.pef_core.specs.View.{shown, due_of};

    /// Answers a command.
    pub(crate) fn answer(&mut self, request: &Request)
        requires { due_of self.old ≡ None }
        ensures values { shown self.new ≡ with_deed (item_deed (shown self.old) (Item.Command request.now)) (shown self.old) }
        ensures script { self.new.script ≡ self.old.script }
    {
        match parse(request) {
            Ok(command) => self.carry_out(command),
            Err(code) => self.finish(code),
        }
    }

    fn carry_out(&mut self, command: Command)
        requires { due_of self.old ≡ None }
        ensures values { shown self.new ≡ with_deed (reply_deed (answer_by (shown self.old) (Ok command))) (shown self.old) }
        ensures script { self.new.script ≡ self.old.script }
    {
        match command {
            Command::Capabilities => self.keep(capabilities()),
            Command::Postpone(octet) => self.arm(octet),
            Command::SetPef { parameter, payload } => self.set_pef(parameter, payload.as_slice()),
            Command::GetPef {
                parameter,
                revision_only,
                set,
                block,
            } => {
                let reply = self.config.get(parameter, revision_only, set, block);
                self.keep(reply);
            }
            Command::SetLast { bmc, id } => self.set_last(bmc, id),
            Command::GetLast => {
                let reply = self.last();
                self.keep(reply);
            }
            Command::Send {
                channel,
                destination,
                string,
            } => self.send(channel, destination, string),
            Command::SendStatus => self.keep(done_with(&[self.status])),
            Command::SendClear => self.clear_status(),
            Command::Acknowledge(ack) => self.acknowledge(ack),
            Command::SetLan {
                channel,
                parameter,
                payload,
            } => self.set_lan(channel, parameter, payload.as_slice()),
            Command::GetLan {
                channel,
                parameter,
                revision_only,
                set,
            } => {
                let reply = self.lan.get(channel, parameter, set, revision_only);
                self.keep(reply);
            }
            Command::ClearSel => self.clear(),
            Command::ClearStatus => self.keep(cleared()),
        }
    }

    // Answers with this completion code alone.
    fn finish(&mut self, code: u8)
        ensures { self.new ≡ record self.old { note = Note.Nothing; reply = Some (code ∷ []) } }
    {
        self.keep(code_alone(code));
    }

    // FFh reads only, and FEh disables PEF for the time being.
    fn arm(&mut self, octet: u8)
        ensures values { shown self.new ≡ with_deed (reply_deed (arm_of (shown self.old).postpone octet)) (shown self.old) }
        ensures script { self.new.script ≡ self.old.script }
    {
        self.postpone = armed(self.postpone, octet);
        self.keep(done_with(&[timer_octet(self.postpone)]));
    }

    fn set_pef(&mut self, parameter: u8, payload: &[u8])
        ensures values { shown self.new ≡ with_deed (reply_deed (answer_to_write (set_code our_sizes (shown self.old).pef parameter payload.now) (SetPef (write parameter payload.now)))) (shown self.old) }
        ensures script { self.new.script ≡ self.old.script }
    {
        let code = self.config.set(parameter, payload);
        self.finish(code);
    }

    fn set_lan(&mut self, channel: u8, parameter: u8, payload: &[u8])
        ensures values { shown self.new ≡ with_deed (reply_deed (answer_to_write (lan_code channel parameter payload.now) (SetLan (record { channel = channel; parameter = parameter; payload = payload.now })))) (shown self.old) }
        ensures script { self.new.script ≡ self.old.script }
    {
        let code = self.lan.set(channel, parameter, payload);
        self.finish(code);
    }

    // Moves the mark behind the record of this ID, or sets what software says it processed last. 0000h stands for none.
    fn set_last(&mut self, bmc: bool, id: u16)
        ensures values { shown self.new ≡ with_deed (reply_deed (set_last_of (shown self.old) bmc id)) (shown self.old) }
        ensures script { self.new.script ≡ self.old.script }
    {
        if self.would_disturb(bmc) {
            return self.finish(NOT_NOW);
        }
        let Some(number) = self.number_of(id) else {
            return self.finish(NO_SUCH);
        };
        if bmc {
            self.mark = number;
            return self.finish(DONE);
        }
        self.software = id;
        self.finish(DONE);
    }

    // Whether the mark is to be moved while a record's job runs.
    fn would_disturb(&self, bmc: bool) -> bool
        ensures { result ≡ (bmc && runs_job_of self.now.running) }
    {
        bmc && self.runs_job()
    }

    // The number of the record of this ID, and 0 for 0000h.
    fn number_of(&self, id: u16) -> Option<usize>
        ensures { result ≡ (if is_held self.now.log id then Some (number_of self.now.log id) else None) }
    {
        match self.log.place_of(id) {
            Some(place) => {
                prove!(place < self.log.len());
                Some(place + 1)
            }
            None if id == 0x0000 => Some(0),
            None => None,
        }
    }

    // Whether a record's job runs.
    fn runs_job(&self) -> bool
        ensures { result ≡ runs_job_of self.now.running }
    {
        match &self.running {
            Some(running) => running.is_job(),
            None => false,
        }
    }

    // Whether an alert at once runs.
    fn runs_alert(&self) -> bool
        ensures { result ≡ runs_alert_of self.now.running }
    {
        match &self.running {
            Some(running) => !running.is_job(),
            None => false,
        }
    }

    // The reply to Get Last Processed Event ID.
    fn last(&self) -> Octets
        ensures { result ≡ (get_last_of (shown self.now)).octets }
    {
        last_processed(self.newest(), self.software, self.processed())
    }

    // The record that was added last.
    fn newest(&self) -> Option<&Record>
        ensures { option_copied result ≡ newest_of self.now.log }
    {
        self.log.get(self.log.len().saturating_sub(1))
    }

    /// The record that was processed last.
    pub(crate) fn processed(&self) -> Option<&Record>
        ensures { option_copied result ≡ processed_of self.now.log self.now.mark }
    {
        if self.mark == 0 {
            return None;
        }
        self.log.get(self.mark - 1)
    }

    // Sends an alert at once.
    fn send(&mut self, channel: u8, destination: u8, string: Option<u8>)
        ensures values { shown self.new ≡ with_deed (reply_deed (send_of (shown self.old) channel destination string)) (shown self.old) }
        ensures script { self.new.script ≡ self.old.script }
    {
        if is_no_string(string) {
            return self.finish(NO_STRING);
        }
        let target = target_at_once(
            &self.config,
            &self.lan,
            &self.own.ports,
            channel,
            destination,
            string,
        );
        let Some(target) = target else {
            return self.finish(NO_SUCH);
        };
        if self.running.is_some() {
            return self.finish(BUSY);
        }
        self.send_to(target);
    }

    // Begins an alert to this target.
    fn send_to(&mut self, target: Target)
        requires { CanBeSent target }
        ensures values { shown self.new ≡ with_deed (reply_deed (done_with_of (Sends target (guid_by (force_of (shown self.old)))))) (shown self.old) }
        ensures script { self.new.script ≡ self.old.script }
    {
        self.finish(DONE);
        self.status = 0xFF;
        let work = Work {
            number: None,
            job: Job::at_once(target),
            guid: self.guid(),
        };
        self.begin(work, Some(Turn::ToAlert { first: 0, place: 0 }), None);
    }

    // Forgets how the last alert at once ended.
    fn clear_status(&mut self)
        ensures values { shown self.new ≡ with_deed (reply_deed (clear_status_of (shown self.old))) (shown self.old) }
        ensures script { self.new.script ≡ self.old.script }
    {
        if self.runs_alert() {
            return self.finish(NOT_NOW);
        }
        self.status = 0x00;
        self.finish(DONE);
    }

    // What is acknowledged counts for what runs.
    fn acknowledge(&mut self, ack: PetAck)
        requires { due_of self.old ≡ None }
        ensures values { shown self.new ≡ with_deed (reply_deed (done_with_of (Acked ack))) (shown self.old) }
        ensures script { self.new.script ≡ self.old.script }
    {
        self.finish(DONE);
        self.count(&Counts::Ack(ack));
    }

    // Clears the log, and with it both marks.
    fn clear(&mut self)
        ensures values { shown self.new ≡ with_deed (reply_deed (clear_of (shown self.old))) (shown self.old) }
        ensures script { self.new.script ≡ self.old.script }
    {
        if self.is_at_work() {
            return self.finish(NOT_NOW);
        }
        self.log.clear();
        self.mark = 0;
        self.software = 0x0000;
        self.keep(cleared());
    }

    // Whether a record is unprocessed or anything runs.
    fn is_at_work(&self) -> bool
        ensures { result ≡ (nat_lt self.now.mark (length self.now.log) || is_some self.now.running) }
    {
        self.mark < self.log.len() || self.running.is_some()
    }
}

// The postpone timer behind this octet of Arm PEF Postpone Timer.
fn armed(before: Postpone, octet: u8) -> Postpone
    ensures { result ≡ (if octet == 0xFF then before else armed_by octet) }
{
    match octet {
        0xFF => before,
        0xFE => Postpone::Disabled,
        _ => Postpone::Seconds(octet),
    }
}

// Whether a string is wanted that there isn't.
fn is_no_string(string: Option<u8>) -> bool
    ensures { result ≡ is_no_string_of string }
{
    match string {
        Some(number) => number > LAST_STRING,
        None => false,
    }
}

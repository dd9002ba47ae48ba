//! The controller's state.
ghost use Rattle.std.specs.Prelude.{◌≡◌};
ghost use Rattle.pef_config.specs.Kept.{tables};
ghost use Rattle.pef_core.specs.After.{following};
ghost use Rattle.pef_core.specs.Course.{is_over as is_over_of, status_by as status_by_of};
ghost use Rattle.pef_core.specs.Past.{delay_by, less_by};

use crate::events::add_event;
use crate::item::{Item, step_in};
use crate::note::Note;
use crate::postpone::Postpone;
use board_core::{Address, Octets, Step, Told};
use event_record::{Log, Record};
use frame_answers::{Replies, answered};
use job_course::{Counts, Own, Progress, Running, Turn, Work, first_turn};
use lan_dest::Lan;
use pef_config::{Config, Initial};
use pef_engine::{Entry, Script, script_behind};
use pef_match::job_of;
use std::alloc::{AllocError, Global};

/// A controller: its parameters, the records that were logged, and how far they are processed.
#[derive(Drop)]
pub struct Controller {
    pub(crate) own: Own,
    pub(crate) config: Config,
    pub(crate) lan: Lan,
    pub(crate) log: Log,
    /// The seconds so far, modulo 2 to the power of 32.
    pub(crate) ticks: u32,
    /// The seconds left of the startup delay.
    pub(crate) delay: u8,
    pub(crate) postpone: Postpone,
    /// How many records at the front of the log are processed.
    pub(crate) mark: usize,
    /// The ID of the record that software says it processed last, 0000h for none.
    pub(crate) software: u16,
    /// The sequence number of the next alert, 1 to 65535.
    pub(crate) sequence: u16,
    /// The status of Alert Immediate: 00h none, 01h ended with success, 03h failed, FFh pending.
    pub(crate) status: u8,
    /// What runs: the job of the record behind the mark, or an alert at once.
    pub(crate) running: Option<Running>,
    pub(crate) script: Option<Script>,
    note: Note,
    reply: Option<Octets>,
    /// The replies to the last frame that aren't sent yet.
    replies: Replies,
}

impl Controller {
    ghost use Rattle.std.specs.Prelude.{◌≡◌, ◌<◌, ◌≤◌, ◌+◌, ◌-◌, ◌*◌, ℕ, [], ◌∷◌, List, Some, None, IfOk, IsSome, IfSome, length, option_copied, slice_get};
    ghost use Rattle.pef_config.specs.Kept.{tables};
    ghost use Rattle.pef_engine.specs.Scripts.{MayCome, script_with, script_from};
    ghost use Rattle.job_course.specs.Running.{IsTurn, MayCountNow};
    ghost use Rattle.pef_core.specs.Settings.{initial_of, own_of};
    ghost use Rattle.pef_core.specs.Deeds.{item_deed, told_deed, deed, standing};
    ghost use Rattle.pef_core.specs.After.{with_deed, with_next_job, begun, begins, counted_now, work_of};
    ghost use Rattle.pef_core.specs.Past.{Ticked, Powered, WasTold};
    ghost use Rattle.pef_core.specs.Left.{left};
    ghost use Rattle.pef_engine.specs.Rules.{IsOutcome, Lawful};
    ghost use Rattle.pef_core.specs.Histories.{controller_rules};
    ghost use Rattle.pef_core.specs.Values.{stamp_at, force_of};
    ghost use Rattle.pef_core.specs.Course.{guid_by, is_enabled, may_begin};
    ghost use Rattle.pef_core.specs.Report.{step_in, controller_scripts};
    ghost use Rattle.pef_core.specs.View.{shown, due_of, ShowsController, AllowedBy};

    /// The controller of these settings at the start of its history, with room for a whole log.
    pub(crate) fn new(alloc: Global, own: Own, initial: &Initial) -> Result<Controller, AllocError>
        ensures { IfOk result (λ controller. (Z : List ℕ) → own ≡ own_of Z → initial.now ≡ initial_of Z → ShowsController controller Z []) }
    {
        let config = Config::new(initial);
        let delay = startup_delay(&config);
        Ok(Controller {
            own,
            config,
            lan: Lan::new(),
            log: Log::new(alloc)?,
            ticks: 0,
            delay,
            postpone: Postpone::Seconds(0),
            mark: 0,
            software: 0x0000,
            sequence: 1,
            status: 0x00,
            running: None,
            script: None,
            note: Note::Nothing,
            reply: None,
            replies: Replies::new(),
        })
    }

    /// What the last item did to the log; an outcome leaves it as it is.
    pub fn note(&self) -> Note
        ensures { (Z : List ℕ) (H : List (Entry Item)) → ShowsController self.now Z H → result ≡ (standing Z H).note }
    {
        self.note
    }

    /// The reply to the last item, from the completion code on, where that was a command; an outcome leaves it as it is.
    pub fn reply(&self) -> Option<&Octets>
        ensures { (Z : List ℕ) (H : List (Entry Item)) → ShowsController self.now Z H → option_copied result ≡ (standing Z H).reply }
    {
        self.reply.as_ref()
    }

    /// At most 18 steps are left before the next item for each record that isn't processed: its act, 16 alerts and the OEM action; and 2
    /// beside them, of an alert at once and of replies to a frame. Each outcome leaves fewer (`apply`). This does nothing when it runs.
    pub fn has_few_steps_left(&self)
        ensures moment { (Z : List ℕ) (H : List (Entry Item)) → ShowsController self.now Z H
            → left (shown self.now) ≤ 18 * (length self.now.log - self.now.mark) + 1 + length self.now.replies }
        ensures bound { (Z : List ℕ) (H : List (Entry Item)) → Lawful controller_rules Z H → ShowsController self.now Z H
            → left (shown self.now) ≤ 18 * (length self.now.log - self.now.mark) + 2 }
    {
        if let Some(running) = &self.running {
            running.is_open();
        }
    }

    /// What the entry does, but for the job that may begin then.
    pub(crate) fn enter(&mut self, entry: &Entry<Item>)
        requires { AllowedBy self.old entry.now }
        ensures values { shown self.new ≡ with_deed (deed (shown self.old) entry.now) (shown self.old) }
        ensures script { self.new.script ≡ script_from controller_scripts self.old.script (entry.now ∷ []) }
        ensures fewer { IsOutcome entry.now → left (shown self.new) < left (shown self.old) }
    {
        match entry {
            Entry::Item(item) => self.take(item),
            Entry::Outcome(told) => self.hear(*told),
        }
    }

    // Takes an item, but for the job that may begin then.
    fn take(&mut self, item: &Item)
        requires may { MayCome self.old.script (step_in item.now) }
        requires none_due { due_of self.old ≡ None }
        ensures values { shown self.new ≡ with_deed (item_deed (shown self.old) item.now) (shown self.old) }
        ensures script { self.new.script ≡ script_with self.old.script (step_in item.now) }
    {
        self.script = script_behind(self.script, step_in(item));
        match item {
            Item::Event(octets) => self.log_event(octets),
            Item::Command(request) => self.answer(request),
            Item::Frame { from, octets } => self.frame(*from, octets),
            Item::Tick => self.tick(),
            Item::Power => self.power(),
            Item::Open { .. } | Item::Close => self.say_nothing(),
        }
    }

    // The item changed nothing in the log, and was no command.
    fn say_nothing(&mut self)
        ensures { self.new ≡ record self.old { note = Note.Nothing; reply = None } }
    {
        self.note = Note::Nothing;
        self.reply = None;
    }

    fn tick(&mut self)
        requires { due_of self.old ≡ None }
        ensures values { shown self.new ≡ with_deed Ticked (shown self.old) }
        ensures script { self.new.script ≡ self.old.script }
    {
        self.ticks = self.ticks.wrapping_add(1);
        self.delay = self.delay.saturating_sub(1);
        self.postpone = one_second_less(self.postpone);
        self.say_nothing();
        self.count(&Counts::Second);
    }

    // A frame is answered, and what it acknowledges counts for what runs.
    fn frame(&mut self, from: Address, octets: &Octets)
        requires { due_of self.old ≡ None }
        ensures values { shown self.new ≡ with_deed (item_deed (shown self.old) (Item.Frame from octets.now)) (shown self.old) }
        ensures script { self.new.script ≡ self.old.script }
    {
        let answered = answered(from, octets.as_slice());
        self.replies = answered.replies;
        self.say_nothing();
        if let Some(ack) = answered.ack {
            self.count(&Counts::Ack(ack));
        }
    }

    fn power(&mut self)
        ensures values { shown self.new ≡ with_deed Powered (shown self.old) }
        ensures script { self.new.script ≡ self.old.script }
    {
        self.config.power();
        self.lan.power();
        self.delay = startup_delay(&self.config);
        self.postpone = Postpone::Seconds(0);
        self.say_nothing();
    }

    fn log_event(&mut self, octets: &[u8; 16])
        ensures values { shown self.new ≡ with_deed (item_deed (shown self.old) (Item.Event octets.now)) (shown self.old) }
        ensures script { self.new.script ≡ self.old.script }
    {
        self.note = add_event(&mut self.log, octets);
        self.reply = None;
    }

    /// Keeps the reply to a command.
    pub(crate) fn keep(&mut self, reply: Octets)
        ensures { self.new ≡ record self.old { note = Note.Nothing; reply = Some reply } }
    {
        self.note = Note::Nothing;
        self.reply = Some(reply);
    }

    // The step that was due had its outcome. That of a reply counts for nothing.
    fn hear(&mut self, told: Told)
        requires { IsSome (due_of self.old) }
        ensures values { shown self.new ≡ with_deed (told_deed (shown self.old).replies told) (shown self.old) }
        ensures script { self.new.script ≡ self.old.script }
        ensures fewer { left (shown self.new) < left (shown self.old) }
    {
        if self.replies.is_empty() {
            self.hear_of_step(told);
        } else {
            self.replies.drop_first();
        }
    }

    // The step of what runs had its outcome.
    fn hear_of_step(&mut self, told: Told)
        requires none { self.old.replies ≡ [] }
        requires due { IsSome (due_of self.old) }
        ensures values { shown self.new ≡ with_deed (WasTold told) (shown self.old) }
        ensures script { self.new.script ≡ self.old.script }
        ensures fewer { left (shown self.new) < left (shown self.old) }
    {
        let Some(running) = &self.running else {
            return;
        };
        running.is_open();
        self.count(&Counts::Heard(told));
    }

    /// What counts for what runs brings it on.
    pub(crate) fn count(&mut self, counts: &Counts)
        requires { MayCountNow counts.now self.old.running }
        ensures values { shown self.new ≡ record (shown self.old) { now = counted_now counts.now (stamp_at self.old.ticks) self.old.running (shown self.old).now } }
        ensures script { self.new.script ≡ self.old.script }
    {
        let Some(running) = self.running.take() else {
            return;
        };
        match running.after(counts) {
            Progress::GoesOn(running) => self.running = Some(running),
            Progress::Ended {
                work,
                turn,
                success,
            } => self.begin(work, turn, Some(success)),
        }
    }

    /// Opens the part of this turn. Without one, what was begun is over, and `last` says whether its last part succeeded.
    pub(crate) fn begin(&mut self, work: Work, turn: Option<Turn>, last: Option<bool>)
        requires { IfSome turn (λ turn. IsTurn work.job.targets turn) }
        ensures values { shown self.new ≡ record (shown self.old) { now = begins work (stamp_at self.old.ticks) turn last (shown self.old).now } }
        ensures script { self.new.script ≡ self.old.script }
    {
        let Some(turn) = turn else {
            self.running = None;
            match work.number {
                Some(number) => self.mark = number,
                None => self.status = status_by(last),
            }
            return;
        };
        let stamp = self.ticks.wrapping_mul(100);
        self.running = Some(Running::begin(work, turn, self.sequence, stamp));
        if let Turn::ToAlert { .. } = turn {
            self.sequence = following(self.sequence);
        }
    }

    /// Begins the next job, where one may begin.
    pub(crate) fn begin_next(&mut self)
        ensures values { shown self.new ≡ with_next_job (shown self.old) }
        ensures script { self.new.script ≡ self.old.script }
    {
        // Tested before `begin_jobs` is entered, which makes room for a whole job: most entries of a long history find no record waiting.
        let waits = self.mark < self.log.len();
        if waits && self.running.is_none() && self.may_begin() {
            self.begin_jobs();
        }
    }

    // Whether PEF is enabled and nothing holds it.
    fn may_begin(&self) -> bool
        ensures { result ≡ may_begin (tables self.now.config) self.now.delay self.now.postpone }
    {
        self.is_enabled() && self.delay == 0 && is_over(self.postpone)
    }

    fn is_enabled(&self) -> bool
        ensures { result ≡ is_enabled (tables self.now.config) }
    {
        self.config.control() % 2 == 1
    }

    // The record behind the mark, and none where all are processed.
    fn waiting(&self) -> Option<Record>
        ensures event { result ≡ slice_get self.now.log self.now.mark }
        ensures within { IsSome result → self.now.mark < 1024 }
    {
        let event = self.log.get(self.mark)?;
        prove!(self.mark < self.log.len());
        Some(*event)
    }

    // What is to be begun for this record, which stands behind the mark.
    fn work_for(&self, event: &Record) -> Work
        requires { self.now.mark < 1024 }
        ensures { result ≡ work_of (force_of (shown self.now)) (self.now.mark + 1) event.now }
    {
        Work {
            number: Some(self.mark + 1),
            job: job_of(&self.config, &self.lan, &self.own.ports, event),
            guid: self.guid(),
        }
    }

    /// The system GUID in force.
    pub(crate) fn guid(&self) -> [u8; 16]
        ensures { result ≡ guid_by (force_of (shown self.now)) }
    {
        self.config.guid().unwrap_or(self.own.guid)
    }

    /// The step that is due: a reply to the last frame, else that of what runs.
    pub(crate) fn due(&self) -> Option<Step>
        ensures { result ≡ due_of self.now }
    {
        if let Some(reply) = self.replies.first() {
            return Some(reply);
        }
        match &self.running {
            Some(running) => running.step(&self.own),
            None => None,
        }
    }

    // Begins the first job with a part among the records behind the mark, and passes over those for which nothing is to be done.
    fn begin_jobs(&mut self)
        requires { self.old.running ≡ None }
        ensures values { shown self.new ≡ begun (shown self.old) }
        ensures script { self.new.script ≡ self.old.script }
    {
        'records: while let Some(event) = self.waiting() {
            let work = self.work_for(&event);
            let turn = first_turn(&work.job);
            if turn.is_some() {
                self.begin(work, turn, None);
                return;
            }
            self.mark += 1;
        }
    }
}

// The startup delay: parameter 3 where bit 2 of parameter 1 is 1.
fn startup_delay(config: &Config) -> u8
    ensures { result ≡ delay_by (tables config.now) }
{
    if config.control() / 4 % 2 == 1 {
        config.delay()
    } else {
        0
    }
}

// The timer one second later.
fn one_second_less(timer: Postpone) -> Postpone
    ensures { result ≡ less_by 1 timer }
{
    match timer {
        Postpone::Disabled => Postpone::Disabled,
        Postpone::Seconds(left) => Postpone::Seconds(left.saturating_sub(1)),
    }
}

// Whether the timer holds nothing.
fn is_over(timer: Postpone) -> bool
    ensures { result ≡ is_over_of timer }
{
    match timer {
        Postpone::Disabled => false,
        Postpone::Seconds(left) => left == 0,
    }
}

// The status of Alert Immediate behind an alert that ended so.
fn status_by(last: Option<bool>) -> u8
    ensures { result ≡ status_by_of last }
{
    if last == Some(true) { 0x01 } else { 0x03 }
}

// The sequence number behind this one: 65535 is followed by 1.
fn following(sequence: u16) -> u16
    ensures { result ≡ following sequence }
{
    if sequence == u16::MAX {
        1
    } else {
        sequence + 1
    }
}

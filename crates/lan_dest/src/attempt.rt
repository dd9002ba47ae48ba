//! The attempts to deliver an alert.
ghost use Rattle.std.specs.Prelude.{◌≡◌, ◌+◌, ◌*◌, ◌<◌, ◌≤◌, ◌↔◌, ◌⊎◌, Bool, false, IsTrue};
ghost use Rattle.lan_dest.specs.Attempts.{Counted, sends, IsDue, verdict, Waits, begun, counted, heard, ticked, answered};

use crate::destination::Destination;
use board_core::Told;
use std::marker::Model;

/// The attempts to deliver one alert: when a transmission is due, and how the alert ends. It counts the ticks of each
/// wait down.
#[derive(Debug, Drop)]
pub struct Attempt {
    acknowledged: bool,
    wait: u16,
    retries: u8,
    outcomes: u8,
    done: bool,
    ticks: u16,
    acked: bool,
    /// The ticks left of the wait that the last transmission began; 0 where the last wait is over.
    left: u16,
    due: bool,
}

impl Model for Attempt {
    ghost use Rattle.lan_dest.specs.Attempts.{Counted};
    ghost use Rattle.lan_dest.specs.Countdown.{CountsDown};

    ghost Value = { Counted };

    ghost view = { λ a. record { acknowledged = a.acknowledged; wait = a.wait; retries = a.retries; outcomes = a.outcomes; done = a.done; ticks = a.ticks; acked = a.acked } };

    ghost invariant = { λ a. CountsDown a.wait a.retries a.outcomes a.ticks a.left a.due };
}

impl Attempt {
    /// An alert to this destination, of which nothing was sent yet.
    pub fn start(to: &Destination) -> Attempt
        requires wait { (1 ≤ to.now.wait) × (to.now.wait ≤ 256) }
        requires retries { to.now.retries ≤ 7 }
        ensures { result ≡ begun to.now.acknowledged to.now.wait to.now.retries }
    {
        Attempt {
            acknowledged: to.acknowledged,
            wait: to.wait,
            retries: to.retries,
            outcomes: 0,
            done: false,
            ticks: 0,
            acked: false,
            left: to.wait,
            due: true,
        }
    }

    /// The alert to a destination with this wait and these retries, after `outcomes` outcomes, of which one was done or none,
    /// and `ticks` ticks since the first of them.
    pub fn resume(
        acknowledged: bool,
        wait: u16,
        retries: u8,
        outcomes: u8,
        done: bool,
        ticks: u16,
    ) -> Attempt
        requires wait { (1 ≤ wait) × (wait ≤ 256) }
        requires retries { retries ≤ 7 }
        requires counted { (outcomes ≡ sends wait retries ticks) ⊎ (outcomes + 1 ≡ sends wait retries ticks) }
        requires first { outcomes ≡ 0 → (ticks ≡ 0) × (done ≡ false) }
        requires going_on { verdict (counted acknowledged wait retries outcomes done ticks) ≡ None }
        ensures { result ≡ counted acknowledged wait retries outcomes done ticks }
    {
        let waits = u16::from(retries).min(ticks / wait);
        Attempt {
            acknowledged,
            wait,
            retries,
            outcomes,
            done,
            ticks,
            acked: false,
            left: (wait * (1 + waits)).saturating_sub(ticks),
            due: u16::from(outcomes) <= waits,
        }
    }

    /// Whether a transmission is to be made now.
    pub fn due(&self) -> bool
        ensures { IsTrue result ↔ IsDue self.now }
    {
        self.due
    }

    /// Tells the outcome of the transmission that is due.
    pub fn told(&mut self, told: Told)
        requires { IsDue self.old }
        ensures { self.new ≡ heard told self.old }
    {
        self.due = false;
        self.outcomes += 1;
        self.done = told == Told::Done || self.done;
    }

    /// Tells that one second passed.
    pub fn tick(&mut self)
        requires { Waits self.old }
        ensures { self.new ≡ ticked self.old }
    {
        self.ticks += 1;
        self.left -= 1;
        if self.left == 0 && self.outcomes <= self.retries {
            self.left = self.wait;
            self.due = true;
        }
    }

    /// Tells that the acknowledgement of this alert came, which is nothing to an alert that asks for none.
    pub fn acked(&mut self)
        requires { Waits self.old }
        ensures { self.new ≡ answered self.old }
    {
        self.acked = self.acknowledged || self.acked;
    }

    /// Whether the alert ended with success or failed; none while it goes on.
    pub fn verdict(&self) -> Option<bool>
        ensures { result ≡ verdict self.now }
    {
        if !self.acknowledged {
            return (self.outcomes > self.retries).then_some(self.done);
        }
        if self.acked {
            Some(true)
        } else if self.left == 0 {
            Some(false)
        } else {
            None
        }
    }

    /// At most one transmission is due. This does nothing when it runs.
    pub fn has_one_due(&self)
        ensures { sends self.now.wait self.now.retries self.now.ticks ≤ self.now.outcomes + 1 }
    {
        let _ = &self.due;
    }

    /// The number of outcomes.
    pub fn outcomes(&self) -> u8
        ensures { result ≡ self.now.outcomes }
    {
        self.outcomes
    }

    /// Whether one of the transmissions went without error.
    pub fn done(&self) -> bool
        ensures { result ≡ self.now.done }
    {
        self.done
    }

    /// The ticks since the first outcome.
    pub fn ticks(&self) -> u16
        ensures { result ≡ self.now.ticks }
    {
        self.ticks
    }
}

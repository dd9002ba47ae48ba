//! A walk over a policy set.
ghost use Rattle.std.specs.Prelude.{◌≡◌, ◌+◌, ◌<◌, ◌≤◌, ◌++◌, ℕ, [], ◌∷◌, List, Bool, Some, length, drop, All, IsSome, nat_lt, if◌then◌else◌};
ghost use Rattle.std.specs.Option.{ForSome};
ghost use Rattle.policy_walk.specs.Tried.{Any, place_after};
ghost use Rattle.policy_walk.specs.First.{first_tried};
ghost use Rattle.policy_walk.specs.Standing.{StandsAfter};
ghost use Rattle.policy_walk.specs.declared.stop.Stop.{Stop};

use crate::after::next_after_success;
use crate::stop::Stop;
use arrayvec::ArrayVec;
use std::marker::Model;

/// How many stops a set has at most: as many as the policy table has entries.
pub const STOPS: usize = 16;

/// A walk over the stops of a policy set, which are numbered from 0.
#[derive(Drop)]
pub struct Walk {
    stops: ArrayVec<Stop, STOPS>,
    current: Option<u8>,
}

impl Model for Walk {
    ghost use Rattle.std.specs.Prelude.{◌<◌, ◌≤◌, length};
    ghost use Rattle.std.specs.Option.{ForSome};
    ghost use Rattle.policy_walk.specs.Place.{Standing};

    ghost Value = { Standing };

    ghost view = { λ w. record { stops = w.stops.items; current = w.current } };

    ghost invariant = { λ w. (length w.stops.items ≤ 16) × ForSome w.current (λ place. place < length w.stops.items) };
}

impl Walk {
    /// A walk over these stops, before any alert.
    pub fn start(stops: &[Stop]) -> Walk
        requires few { length stops.now ≤ 16 }
        requires known { All (λ stop. stop.policy ≤ 4) stops.now }
        ensures { StandsAfter stops.now [] result }
    {
        let current = if stops.is_empty() { None } else { Some(0) };
        Walk {
            stops: copied(stops),
            current,
        }
    }

    /// The walk over these stops that stands at this place, however it came there.
    pub fn resume(stops: &[Stop], place: u8) -> Walk
        requires few { length stops.now ≤ 16 }
        requires known { All (λ stop. stop.policy ≤ 4) stops.now }
        requires within { place < length stops.now }
        ensures here { result.current ≡ Some place }
        ensures over { result.stops ≡ stops.now }
        ensures came { (results : List Bool) → place_after stops.now results ≡ Some place → StandsAfter stops.now results result }
    {
        Walk {
            stops: copied(stops),
            current: Some(place),
        }
    }

    /// The stop to be attempted now; none where the set is over.
    pub fn current(&self) -> Option<u8>
        ensures { result ≡ self.now.current }
    {
        self.current
    }

    /// Tells whether the alert to the current stop succeeded, and goes on to the next.
    pub fn told(&mut self, success: bool)
        requires { IsSome self.old.current }
        ensures after { (stops : List Stop) → (results : List Bool) → StandsAfter stops results self.old
            → StandsAfter stops (results ++ success ∷ []) self.new }
        ensures stops { self.new.stops ≡ self.old.stops }

        // Where it goes hangs on the current stop and on this result alone.
        ensures next { (place : ℕ) → self.old.current ≡ Some place
            → self.new.current ≡ first_tried Any success (place + 1) (drop (place + 1) self.old.stops) }
        ensures within { ForSome self.new.current (λ next. next < length self.old.stops) }
    {
        if let Some(place) = self.current {
            self.current = next(self.stops.as_slice(), place, success);
        }
    }
}

/// The place of the stop after the one at this place, where its alert ended so.
fn next(stops: &[Stop], place: u8, success: bool) -> Option<u8>
    requires few { length stops.now ≤ 16 }
    requires within { place < length stops.now }
    ensures place { result ≡ first_tried Any success (place + 1) (drop (place + 1) stops.now) }
    ensures bound { ForSome result (λ next. next < length stops.now) }
{
    let from = usize::from(place) + 1;
    if success {
        next_after_success(stops, from)
    } else {
        next_after_failure(stops, from)
    }
}

/// The place of the stop to be attempted, from this place on, where the last alert of the set failed: the first of them.
fn next_after_failure(stops: &[Stop], from: usize) -> Option<u8>
    requires few { length stops.now ≤ 16 }
    ensures { result ≡ (if nat_lt from (length stops.now) then Some from else None) }
{
    if from < stops.len() {
        Some(from as u8)
    } else {
        None
    }
}

/// The same stops.
fn copied(stops: &[Stop]) -> ArrayVec<Stop, STOPS>
    requires { length stops.now ≤ 16 }
    ensures { result.items ≡ stops.now }
{
    let mut copy = ArrayVec::new();
    let _ = copy.try_extend_from_slice(stops);
    copy
}

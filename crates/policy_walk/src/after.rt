//! Which stop comes after a success.
ghost use Rattle.std.specs.Prelude.{◌≡◌, ℕ, ◌+◌, ◌<◌, ◌≤◌, ◌==◌, true, length, drop};
ghost use Rattle.std.specs.List.{prefix_len};
ghost use Rattle.std.specs.Option.{ForSome};
ghost use Rattle.policy_walk.specs.Tried.{Any, wanted_after};
ghost use Rattle.policy_walk.specs.First.{first_tried};

use crate::stop::Stop;

/// The place of the stop to be attempted, from this place on, where the last alert of the set succeeded.
pub(crate) fn next_after_success(stops: &[Stop], from: usize) -> Option<u8>
    requires few { length stops.now ≤ 16 }
    requires from { from ≤ length stops.now }
    ensures place { result ≡ first_tried Any true from (drop from stops.now) }
    ensures bound { ForSome result (λ next. next < length stops.now) }
{
    let mut place = from;
    while place < stops.len() {
        let stop = stops[place];
        if stop.policy == 0 {
            return Some(place as u8);
        }
        place += 1;
        place += passed_with(stop, &stops[place..]);
    }
    None
}

/// How many of the later stops are passed together with this one, which no alert goes to.
fn passed_with(stop: Stop, later: &[Stop]) -> usize
    ensures within { result ≤ length later.now }
    ensures passed { (place : ℕ) → first_tried (wanted_after stop) true place later.now
        ≡ first_tried Any true (place + result) (drop result later.now) }
{
    match stop.policy {
        2 => later.len(),
        3 => count_on_channel(later, stop.channel),
        4 => count_of_kind(later, stop.kind),
        _ => 0,
    }
}

/// How many stops are on this channel, from the first on and up to one that isn't.
fn count_on_channel(stops: &[Stop], channel: u8) -> usize
    ensures { result ≡ prefix_len (λ stop. stop.channel == channel) stops.now }
{
    stops
        .iter()
        .take_while(|stop| stop.channel == channel)
        .count()
}

/// How many stops are of this kind, from the first on and up to one that isn't.
fn count_of_kind(stops: &[Stop], kind: u8) -> usize
    ensures { result ≡ prefix_len (λ stop. stop.kind == kind) stops.now }
{
    stops.iter().take_while(|stop| stop.kind == kind).count()
}

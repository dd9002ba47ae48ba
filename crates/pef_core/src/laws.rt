//! What the definitions promise, over any past, in the standard's words. These functions do nothing when they run.
ghost use Rattle.std.specs.Prelude.{◌≡◌, ◌≤◌, ◌%◌, ◌∷◌, ◌++◌, ℕ, List, length, true, false, Some, None};
ghost use Rattle.board_core.specs.declared.step.Act.{Act};
ghost use Rattle.board_core.specs.declared.step.Told.{Told};
ghost use Rattle.job_course.specs.Counting.{outcomes};
ghost use Rattle.job_course.specs.Undertaking.{Undertaking, cut_of, turn_of, sequence_behind};
ghost use Rattle.pef_core.specs.Past.{Deed, log, pef, delay, postpone};
ghost use Rattle.pef_core.specs.Deeds.{past_of};
ghost use Rattle.pef_core.specs.Course.{is_busy, may_begin, moved, course};
ghost use Rattle.pef_core.specs.Promises.{GoesInOrder, NoneMoves, AllBegan, IsSent, heard_by, with_later};

use crate::item::Item;
use job_course::{Counts, Own, Turn};
use pef_engine::Entry;

/// As long as no command moves the mark, records are processed in their order from the mark on, and none is skipped.
pub fn order_law()
    ensures { (Z : List ℕ) (H K : List (Entry Item)) → NoneMoves Z (past_of Z H) K → GoesInOrder (course Z (past_of Z H)) (course Z (past_of Z (H ++ K))) }
{}

/// Where nothing runs, PEF is enabled and nothing holds it, no record is unprocessed: none stands behind the mark.
pub fn idle_law()
    ensures { (Z : List ℕ) (past : List Deed) → is_busy (course Z past).undertakings ≡ false → may_begin (pef Z past) (delay Z past) (postpone past) ≡ true
        → length (log past) ≤ (course Z past).mark }
{}

/// While PEF is disabled, or the startup delay or the postpone timer holds it, no job begins; one that runs goes on.
pub fn hold_law()
    ensures { (Z : List ℕ) (d : Deed) (past : List Deed) → may_begin (pef Z (d ∷ past)) (delay Z (d ∷ past)) (postpone (d ∷ past)) ≡ false
        → course Z (d ∷ past) ≡ moved d (log past) (course Z past) }
{}

/// What a job does depends on the parameters at its start alone.
pub fn start_law()
    ensures { (Z : List ℕ) (past : List Deed) → AllBegan Z past (course Z past).undertakings }
{}

/// A job has at most one act, which comes before any other step, and its OEM action comes last. Each is done once, and a failed one isn't
/// tried again.
pub fn job_law()
    ensures one_act { (u : Undertaking) (act : Act) → turn_of u ≡ Some (Turn.ToAct act) → (outcomes u.since ≡ 0) × (u.job.act ≡ Some act) }
    ensures oem_last { (u : Undertaking) (told : Told) → turn_of u ≡ Some Turn.ToOemAction → turn_of (heard_by told u) ≡ None }
    ensures act_not_again { (u : Undertaking) (act : Act) → turn_of u ≡ Some (Turn.ToAct act) → turn_of (heard_by Told.Failed u) ≡ turn_of (heard_by Told.Done u) }
{}

/// Sequence numbers are 1 to 65535. Two alerts of a controller have the same one only where their numbers, counted as they begin, differ
/// by a multiple of 65535; behind 65535 alerts comes 1 again.
pub fn sequence_law()
    ensures range { (drawn : ℕ) → (1 ≤ sequence_behind drawn) × (sequence_behind drawn ≤ 65535) }
    ensures same { (one other : ℕ) → sequence_behind one ≡ sequence_behind other → one % 65535 ≡ other % 65535 }
    ensures again { sequence_behind 65535 ≡ 1 }
{}

/// Each transmission of an alert has the octets of the first, while it is open: as long as no further alert of its job is over.
pub fn retry_law()
    ensures { (own : Own) (now : ℕ) (u : Undertaking) (later : List Counts) (first place : ℕ) → turn_of u ≡ Some (Turn.ToAlert first place)
        → (cut_of (with_later later u)).alerts ≡ (cut_of u).alerts → IsSent own now u later first place }
{}

// What holds of any number of lives, over definitions alone.
ghost use Rattle.std.specs.Prelude.{ℕ, List, [], length};
ghost use Rattle.pef_engine.specs.declared.entry.Entry.{Entry};
ghost use Rattle.pef_engine.specs.Rules.{Lawful};
ghost use Rattle.pef_engine.specs.Lives.{Life, AreLives, steps_of_lives, last_history, IsRepeating, Call, AreCalls, steps_of_calls};

use crate::machine::Machine;

/// Over any number of lives the steps are those prescribed, but that each life may issue once again the step that was in flight.
pub fn lives_law<M: Machine>()
    ensures { (Z : List ℕ) (lives : List (Life M.Item)) → AreLives M.rules Z [] lives →
        IsRepeating M.rules Z (length lives) (steps_of_lives lives) (last_history [] lives) }
{}

/// The same of any number of calls of a program, where a crash at any moment of each, or its return, leaves a prefix of its run
/// without a crash. The last history is lawful.
pub fn calls_law<M: Machine>()
    ensures steps { (Z : List ℕ) (calls : List (Call M.Item)) (G : List (Entry M.Item)) → AreCalls M.rules Z [] calls G →
        IsRepeating M.rules Z (length calls) (steps_of_calls calls) G }
    ensures lawful { (Z : List ℕ) (calls : List (Call M.Item)) (G : List (Entry M.Item)) → AreCalls M.rules Z [] calls G → Lawful M.rules Z G }
{}

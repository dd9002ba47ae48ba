//! What the definition promises of walks. This function does nothing when it runs.
ghost use Rattle.std.specs.Prelude.{◌≡◌, ℕ, List, Bool, Some};
ghost use Rattle.policy_walk.specs.declared.stop.Stop.{Stop};
ghost use Rattle.policy_walk.specs.Tried.{place_after};
ghost use Rattle.policy_walk.specs.Promises.{MayBeTried};

/// An alert goes to a stop whose policy isn't 0 only where no alert of its set was attempted yet or the last one failed.
pub fn policy_law()
    ensures { (stops : List Stop) (results : List Bool) (place : ℕ) → place_after stops results ≡ Some place → MayBeTried stops results place }
{}

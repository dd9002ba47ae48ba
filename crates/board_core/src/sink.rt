// What is written.
ghost use Rattle.std.specs.Prelude.{ℕ, List, Option};
ghost use Rattle.board_core.specs.Causes.{HasCause, IsCount};
ghost use Rattle.board_core.specs.Source.{Appends};

use thiserror::Error;

/// The sink didn't take all of what was written.
#[derive(Clone, Copy, Debug, PartialEq, Eq, Error)]
#[error("the sink could not be written")]
pub struct SinkFailed;

/// What is written, from its beginning on.
pub trait Sink {
    /// What was written, where the sink tells it.
    ghost written: { Self → Option (List ℕ) };

    /// How often a write failed, a count that never falls.
    ghost faults: { Self → ℕ };

    /// Appends all of `from`. After a failure a prefix of it was appended.
    fn write(&mut self, from: &[u8]) -> Result<(), SinkFailed>
        ensures appended { Appends from.now (written self.old) (written self.new) result }
        ensures cause { HasCause (faults self.old) (faults self.new) result };

    ghost counted: { (sink : Self) → IsCount (faults sink) };
}

// What a crash leaves of a board in memory.
ghost use Rattle.std.specs.Prelude.{◌≡◌, IfOk};

use crate::leaving::Leaving;
use crate::step::Sent;
use crate::trace::Trace;
use std::alloc::{AllocError, Global};

impl Trace {
    ghost use Rattle.std.specs.Prelude.{◌≡◌, IfOk};
    ghost use Rattle.board_core.specs.Kept.{past_of};
    ghost use Rattle.board_core.specs.Moments.{is_effective};
    ghost use Rattle.board_core.specs.Leaving.{IsLeft};
    ghost use Rattle.std.specs.List.{take_while};

    /// Goes through the calls that had their effect by a moment.
    pub fn replay(&self, alloc: Global, moment: u64, torn: u8) -> Result<Leaving, AllocError>
        ensures { IfOk result (IsLeft torn self.now.start.items self.now.earlier (take_while (is_effective moment) self.now.calls.kept.items)) }
    {
        let mut left = Leaving::new(alloc, &self.start, self.earlier)?;
        for call in &self.calls.kept {
            if !call.is_effective(moment) {
                break;
            }
            left.go_on(call, torn)?;
        }
        Ok(left)
    }
}

/// The same steps, in memory of their own.
pub fn copies(alloc: Global, sent: &[Sent]) -> Result<Vec<Sent>, AllocError>
    ensures { IfOk result (λ copies. copies.items ≡ sent.now) }
{
    let mut copies = Vec::new(alloc);
    for one in sent {
        copies.push(one.copy())?;
    }
    Ok(copies)
}

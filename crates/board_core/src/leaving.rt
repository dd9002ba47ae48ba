//! What a crash leaves of a board in memory, found by replaying its calls.
ghost use Rattle.std.specs.Prelude.{◌≤◌, vec_len};

use crate::call::{Call, Effect};
use crate::file::{filled, put};
use std::alloc::{AllocError, Global};

/// The file as a read gives it, the longest image that a crash may leave of it, with one octet wherever it may leave any,
/// and the number of steps issued.
#[derive(Drop)]
pub struct Leaving {
    alloc: Global,
    file: Vec<u8>,
    pub image: Vec<u8>,
    pub issued: usize,
    ghost longer: { vec_len file ≤ vec_len image },
}

impl Leaving {
    ghost use Rattle.std.specs.Prelude.{◌≡◌, ◌+◌, ◌^◌, ◌<◌, ℕ, List, [], ◌∷◌, ◌++◌, true, IfOk, OnOk};
    ghost use Rattle.board_core.specs.Moments.{is_placed};
    ghost use Rattle.board_core.specs.declared.call.Call.{Call};
    ghost use Rattle.board_core.specs.Leaving.{IsLeft};

    /// A board that was just made.
    pub fn new(alloc: Global, content: &[u8], issued: usize) -> Result<Leaving, AllocError>
        ensures { IfOk result (λ left. (torn : ℕ) → IsLeft torn content.now issued [] left) }
    {
        Ok(Leaving {
            alloc,
            file: content.to_vec(alloc)?,
            image: content.to_vec(alloc)?,
            issued,
        })
    }

    /// Goes on over one more call. At Err there was no memory.
    pub fn go_on(&mut self, call: &Call, torn: u8) -> Result<(), AllocError>
        requires placed { is_placed (vec_len self.old.file) call.now.effect ≡ true }
        requires room { self.old.issued + 1 < 2 ^ 64 }
        ensures { OnOk result ((content : List ℕ) (earlier : ℕ) (calls : List Call)
            → IsLeft torn content earlier calls self.old → IsLeft torn content earlier (calls ++ call.now ∷ []) self.new) }
    {
        match &call.effect {
            Effect::Wrote { place, octets } => {
                let row = filled(self.alloc, octets.len(), torn)?;
                put(&mut self.image, *place as usize, &row)?;
                put(&mut self.file, *place as usize, octets)?;
            }
            Effect::Spoiled { place, count } => {
                let row = filled(self.alloc, *count as usize, torn)?;
                put(&mut self.image, *place as usize, &row)?;
            }
            Effect::Synced => self.image = self.file.to_vec(self.alloc)?,
            Effect::Issued => self.issued += 1,
        }
        Ok(())
    }
}

//! The replies to a frame that aren't sent yet.
ghost use Rattle.std.specs.Prelude.{◌≡◌, ◌≤◌, ◌↔◌, [], ◌∷◌, length, drop, IsTrue};
ghost use Rattle.frame_answers.specs.Queue.{first_of};

use board_core::Step;
use std::marker::Model;

/// The replies to a frame that aren't sent yet, the next one in front: at most two.
#[derive(Drop)]
pub struct Replies {
    front: Option<Step>,
    behind: Option<Step>,
}

impl Model for Replies {
    ghost use Rattle.std.specs.Prelude.{◌≡◌, List, Option, None};
    ghost use Rattle.board_core.specs.declared.step.Step.{Step};
    ghost use Rattle.frame_answers.specs.Queue.{held};

    ghost Value = { List Step };

    ghost view = { λ r. held r.front r.behind };

    ghost invariant = { λ r. r.front ≡ None → r.behind ≡ None };
}

impl Replies {
    /// No replies.
    pub fn new() -> Replies
        ensures { result ≡ [] }
    {
        Replies {
            front: None,
            behind: None,
        }
    }

    /// One reply.
    pub(crate) fn one(step: Step) -> Replies
        ensures { result ≡ step ∷ [] }
    {
        Replies {
            front: Some(step),
            behind: None,
        }
    }

    /// Two replies.
    pub(crate) fn two(first: Step, second: Step) -> Replies
        ensures { result ≡ first ∷ second ∷ [] }
    {
        Replies {
            front: Some(first),
            behind: Some(second),
        }
    }

    /// A copy of the next reply.
    pub fn first(&self) -> Option<Step>
        ensures { result ≡ first_of self.now }
    {
        match &self.front {
            Some(step) => Some(step.copy()),
            None => None,
        }
    }

    /// Whether all replies are sent.
    pub fn is_empty(&self) -> bool
        ensures { IsTrue result ↔ (self.now ≡ []) }
    {
        self.front.is_none()
    }

    /// Removes the next reply, if there is one.
    pub fn drop_first(&mut self)
        ensures { self.new ≡ drop 1 self.old }
    {
        self.front = self.behind.take();
    }

    /// There are at most two replies: a fact for proofs, which costs nothing.
    pub fn is_short(&self)
        ensures { length self.now ≤ 2 }
    {
        let _ = &self.front;
    }
}

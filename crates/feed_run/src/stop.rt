//! Why a run over a feed ends before its arrivals do.
ghost use Rattle.std.specs.Prelude.{◌≡◌};
ghost use Rattle.feed_run.specs.declared.stop.FeedStop.TheVariants.{Step};

use script_run::StepStop;

/// What stopped a run over a feed.
#[derive(Clone, Copy, Debug, PartialEq, Eq)]
pub enum FeedStop {
    /// A step stopped.
    Step(StepStop),
    /// The feed failed.
    Failed,
    /// A script was begun and isn't finished: its ID and its count.
    Unfinished { id: u32, count: u32 },
}

impl From<StepStop> for FeedStop {
    ghost from_gives = { λ stop feed. feed ≡ Step stop };

    fn from(stop: StepStop) -> FeedStop {
        FeedStop::Step(stop)
    }
}

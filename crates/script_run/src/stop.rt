//! Why a run ends before its script does: a step's stop, a line's and a script's.
ghost use Rattle.std.specs.Prelude.{◌≡◌, ◌↔◌, IsTrue};
ghost use Rattle.script_run.specs.declared.stop.LineStop.TheVariants.{Step};
ghost use Rattle.script_run.specs.declared.stop.ScriptStop.TheVariants.{Lines};

use pef_engine::EngineFault;

/// What stopped a step of a run.
#[derive(Clone, Copy, Debug, PartialEq, Eq)]
pub enum StepStop {
    /// The disk failed.
    Disk,
    /// The sink failed.
    Output,
    /// The next entry has no room, in the file or by a limit of the machine's own.
    Full,
    /// There is no memory for the next item.
    Memory,
}

/// What stopped the lines of a script.
#[derive(Clone, Copy, Debug, PartialEq, Eq)]
pub enum LineStop {
    /// A step stopped.
    Step(StepStop),
    /// This line is the first bad one, counted from 1.
    Line(u32),
    /// The source failed.
    Input,
}

/// What stopped a script.
#[derive(Clone, Copy, Debug, PartialEq, Eq)]
pub enum ScriptStop {
    /// A line stopped.
    Lines(LineStop),
    /// Another script was begun and isn't finished: its ID and its count.
    Unfinished { id: u32, count: u32 },
}

impl From<StepStop> for LineStop {
    ghost from_gives = { λ stop line. line ≡ Step stop };

    fn from(stop: StepStop) -> LineStop {
        LineStop::Step(stop)
    }
}

impl From<LineStop> for ScriptStop {
    ghost from_gives = { λ stop script. script ≡ Lines stop };

    fn from(stop: LineStop) -> ScriptStop {
        ScriptStop::Lines(stop)
    }
}

// What a fault of the engine means to a step.
pub(crate) fn stop_of(fault: EngineFault) -> StepStop
    ensures disk { result ≡ StepStop.Disk ↔ fault ≡ EngineFault.DiskFault }
    ensures full { result ≡ StepStop.Full ↔ fault ≡ EngineFault.Full }
    ensures memory { result ≡ StepStop.Memory ↔ ((fault ≡ EngineFault.Full → ⊥) × (fault ≡ EngineFault.DiskFault → ⊥)) }
    ensures output { result ≡ StepStop.Output → ⊥ }
{
    match fault {
        EngineFault::Full => StepStop::Full,
        EngineFault::DiskFault => StepStop::Disk,
        EngineFault::Memory(_) => StepStop::Memory,
        EngineFault::NotFormatted => StepStop::Memory,
        EngineFault::Corrupt { .. } => StepStop::Memory,
    }
}

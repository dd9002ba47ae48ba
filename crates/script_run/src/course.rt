//! How a script stands to the one that was opened last.
ghost use Rattle.std.specs.Prelude.{◌≡◌, ℕ};
ghost use Rattle.script_run.specs.Course.{GivesCourse};

use crate::stop::ScriptStop;
use pef_engine::Script;

/// What is to be done with a script.
#[derive(Clone, Copy, Debug, PartialEq, Eq)]
pub enum Course {
    /// It was closed before: nothing is taken.
    Over,
    /// It is unfinished, and so many of its items were taken: it goes on behind them.
    GoesOn { taken: u32 },
    /// It begins.
    Begins,
}

/// The course of a script of this ID and count behind the script that was opened last. Refused where another one is unfinished.
pub(crate) fn course_of(script: &Option<Script>, id: u32, count: u32) -> Result<Course, ScriptStop>
    ensures { GivesCourse script.now id count result }
{
    let Some(script) = script else {
        return Ok(Course::Begins);
    };
    let same = script.id == id && script.count == count;
    match (script.closed, same) {
        (false, false) => Err(ScriptStop::Unfinished {
            id: script.id,
            count: script.count,
        }),
        (false, true) => Ok(Course::GoesOn {
            taken: script.taken,
        }),
        (true, true) => Ok(Course::Over),
        (true, false) => Ok(Course::Begins),
    }
}

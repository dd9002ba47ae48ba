//! The script that a machine takes its items from.
ghost use Rattle.std.specs.Prelude.{◌≡◌, ◌↔◌, ◌<◌, Option, Some, IsTrue, IsFalse};
ghost use Rattle.pef_engine.specs.Scripts.{MayCome, script_with, one_taken};

/// How many items a script has at most.
const ITEMS: u32 = 1_000_000;

/// The script opened last in a history.
#[derive(Clone, Copy, Debug, PartialEq, Eq)]
pub struct Script {
    /// The number that its maker gave it.
    pub id: u32,
    /// How many items it has, at most 1,000,000.
    pub count: u32,
    /// How many of them were taken.
    pub taken: u32,
    /// All of them were taken, and the script was closed.
    pub closed: bool,
}

/// What an item does to the script that was opened last.
#[derive(Clone, Copy, Debug, PartialEq, Eq)]
pub enum ScriptStep {
    /// It opens a script of `count` items.
    Opens { id: u32, count: u32 },
    /// It is an item of the script, where one is unfinished.
    Takes,
    /// It closes the script, of which all items were taken.
    Closes,
}

/// Whether an item that does this may come, by the script opened last.
pub fn may_come(script: Option<Script>, step: ScriptStep) -> bool
    ensures { IsTrue result ↔ MayCome script step }
{
    match step {
        ScriptStep::Opens { count, .. } => {
            script.is_none_or(|script| script.closed) && count <= ITEMS
        }
        ScriptStep::Takes => script.is_none_or(|script| script.closed
            || script.taken < script.count),
        ScriptStep::Closes => {
            script.is_some_and(|script| !script.closed && script.taken == script.count)
        }
    }
}

/// The script behind an item that may come and does this.
pub fn script_behind(script: Option<Script>, step: ScriptStep) -> Option<Script>
    requires { MayCome script step }
    ensures { result ≡ script_with script step }
{
    match step {
        ScriptStep::Opens { id, count } => Some(Script {
            id,
            count,
            taken: 0,
            closed: false,
        }),
        ScriptStep::Takes => script.map(one_taken),
        ScriptStep::Closes => script.map(|script| Script {
            closed: true,
            ..script
        }),
    }
}

// The script with one more item taken, unless it is closed.
fn one_taken(script: Script) -> Script
    requires { IsFalse script.closed → script.taken < script.count }
    ensures { Some result ≡ one_taken (Some script) }
{
    if script.closed {
        script
    } else {
        Script {
            taken: script.taken + 1,
            ..script
        }
    }
}

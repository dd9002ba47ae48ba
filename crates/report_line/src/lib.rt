//! Report lines: one builder for all of them, how a call ends, with its last line and status, and why a settings text is refused.
#![tactic(auto)]

mod builder;
mod ending;
mod finishing;
mod refusal;

pub use builder::{LineBuilder, ReportLine};
pub use ending::{Ending, last_line, status};
pub use finishing::finish;
pub use refusal::{SettingsKey, SettingsRefusal};

//! The kinds of state files that this project makes.
use console_settings::KIND as CONSOLE;
use pef_journal::FileKind;
use pef_settings::KIND as CONTROLLER;

/// All kinds: a file of any of them counts as formatted.
pub const KINDS: [FileKind; 2] = [CONTROLLER, CONSOLE];

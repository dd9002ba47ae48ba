//! What a person reads on standard error behind a call.
use crate::asked::Asked;
use crate::state_reader::StateReader;
use crate::unformatted::{Unformatted, why_unformatted};
use board_core::Board;
use pef_call::Form;
use pef_core::Controller;
use read_ahead::ReadAhead;
use real_devices::{Failure, FileBoard, StdSink};
use std::alloc::Global;
use std::io::Write;
use thiserror::Error;
use trap_console::Console;

/// One line on a call, which says more than its status.
#[derive(Clone, Copy, Debug, Error)]
pub enum Remark<'a> {
    /// This file isn't a valid state file.
    #[error("{name}: {why}")]
    Unformatted { name: &'a str, why: Unformatted },
    /// The text in this file isn't a settings text of a controller.
    #[error("{0}: expected a TOML document with guid and agent, and no other keys than manufacturer, system, pet_port, oem1_port, oem2_port, control, actions, delay and filter")]
    Controller(&'a str),
    /// The text in this file isn't a settings text of a console.
    #[error("{0}: expected a TOML document with no other key than ack_port, a whole number from 0 to 65535")]
    Console(&'a str),
    /// The text in this file isn't a script.
    #[error("{0}: expected script ID COUNT, then COUNT lines event, cmd, frame, tick or power, then end")]
    Script(&'a str),
    /// The text in this file isn't a capture.
    #[error("{0}: expected capture ID COUNT, then COUNT lines datagram ADDRESS OCTETS, then end")]
    Capture(&'a str),
    /// A script or capture was begun on this state file, and isn't finished.
    #[error("{0}: another script or capture is unfinished; finish that one first, with its own text")]
    Unfinished(&'a str),
    /// A call on what has this name failed.
    #[error("{name}: {failure}")]
    Failed { name: &'a str, failure: Failure },
    /// An action or a datagram failed.
    #[error("the first step that failed: {0}")]
    Step(Failure),
    /// This file has no room for the next entry.
    #[error("{0}: there is no room for the next entry; a state file has at most 16,777,216 octets; make a new one with init")]
    Full(&'a str),
    /// This file has no room for the next entry, or the ledger none for the next row.
    #[error("{0}: there is no room for the next entry; a console's file has at most 16,777,216 octets and 65,536 rows; make a new one with init-console")]
    FullConsole(&'a str),
    /// This file is a state file already.
    #[error("{0}: it is formatted already, and was left as it is")]
    Formatted(&'a str),
}

// The first failure of each device of a call.
#[derive(Drop)]
struct Failures {
    input: Option<Failure>,
    disk: Option<Failure>,
    output: Option<Failure>,
}

/// Says on standard error what is to be said behind a call: why it ended with its status, and why a step was told as failed. `input` is
/// the first failure of its source or feed.
pub fn tell<W: Write + Drop>(
    rt: &HostRuntime,
    asked: &Asked<'_>,
    status: u8,
    board: &mut ReadAhead<FileBoard<'_, HostRuntime>>,
    input: Option<Failure>,
    out: &StdSink<W>,
) {
    let failures = Failures {
        input,
        disk: board.board().disk_failure(),
        output: out.failure(),
    };
    say(rt, remark_on(rt.alloc(), asked, status, board, &failures));
    if let Some(failure) = board.board().issue_failure() {
        say(rt, Some(Remark::Step(failure)));
    }
}

/// Says why a call of `show` or `list` ended with its status.
pub fn tell_of_reading<W: Write + Drop>(
    rt: &HostRuntime,
    asked: &Asked<'_>,
    status: u8,
    board: &mut ReadAhead<StateReader>,
    out: &StdSink<W>,
) {
    let failures = Failures {
        input: None,
        disk: board.board().failure(),
        output: out.failure(),
    };
    say(rt, remark_on(rt.alloc(), asked, status, board, &failures));
}

// Why a call ended with this status.
fn remark_on<'a, B: Board>(
    alloc: Global,
    asked: &Asked<'a>,
    status: u8,
    board: &mut B,
    failures: &Failures,
) -> Option<Remark<'a>> {
    match status {
        3 => unformatted(alloc, asked, board),
        4 => expected(asked),
        5 => Some(Remark::Unfinished(asked.state)),
        6 => failed(asked.second, failures.input),
        7 => failed(asked.state, failures.disk),
        8 => failed("standard output", failures.output),
        9 => Some(full(asked)),
        11 => Some(Remark::Formatted(asked.state)),
        _ => None,
    }
}

// Where the file stops making sense to the machine of this form.
fn unformatted<'a, B: Board>(
    alloc: Global,
    asked: &Asked<'a>,
    board: &mut B,
) -> Option<Remark<'a>> {
    let why = match asked.form {
        Form::Init | Form::Run | Form::Live | Form::Show => {
            why_unformatted::<Controller, B>(alloc, board, "controller", "init")
        }
        Form::InitConsole | Form::Receive | Form::Listen | Form::List => {
            why_unformatted::<Console, B>(alloc, board, "console", "init-console")
        }
    };
    why.map(|why| Remark::Unformatted {
        name: asked.state,
        why,
    })
}

// Which text was expected, where the form reads one.
fn expected<'a>(asked: &Asked<'a>) -> Option<Remark<'a>> {
    match asked.form {
        Form::Init => Some(Remark::Controller(asked.second)),
        Form::InitConsole => Some(Remark::Console(asked.second)),
        Form::Run => Some(Remark::Script(asked.second)),
        Form::Receive => Some(Remark::Capture(asked.second)),
        Form::Live | Form::Listen | Form::Show | Form::List => None,
    }
}

// How large a file may be.
fn full<'a>(asked: &Asked<'a>) -> Remark<'a> {
    match asked.form {
        Form::Receive | Form::Listen | Form::List => Remark::FullConsole(asked.state),
        _ => Remark::Full(asked.state),
    }
}

fn failed(name: &str, failure: Option<Failure>) -> Option<Remark<'_>> {
    failure.map(|failure| Remark::Failed { name, failure })
}

fn say(rt: &HostRuntime, remark: Option<Remark<'_>>) {
    if let Some(remark) = remark {
        let _ = eprintln!(rt; "{remark}");
    }
}

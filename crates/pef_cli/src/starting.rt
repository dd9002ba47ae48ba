//! From the words that the program was called with to its call.
use crate::asked::Asked;
use crate::no_start::NoStart;
use crate::opening::{open_feed, open_files, open_to_read};
use crate::remark::{tell, tell_of_reading};
use board_core::{MemBoard, MemFeed, MemSource};
use pef_call::{Form, paths, top};
use read_ahead::ReadAhead;
use real_devices::{StandardStreams, StdSink};
use script_text::address;
use std::io::ErrorKind;
use std::{env, io};

/// Opens what the words name, and does what they ask for: the status. Words that aren't text are no form.
pub fn start(rt: &HostRuntime) -> u8 {
    // before any file is opened, and kept to the end
    let streams = match StandardStreams::take(rt) {
        Ok(streams) => streams,
        Err(error) => return refused(rt, &NoStart::of("/dev/null", error)),
    };
    let status = match words_of(rt) {
        Ok(words) => called(rt, words.as_slice()),
        Err(error) if error.kind() == ErrorKind::InvalidData => called(rt, &[]),
        Err(error) => refused(rt, &NoStart::of("the command line", error)),
    };
    drop(streams);
    status
}

// The words behind the program's name.
fn words_of(rt: &HostRuntime) -> io::Result<Vec<String>> {
    let mut words = Vec::new(rt.alloc());
    for word in env::args(rt)?.skip(1) {
        words.push(word)?;
    }
    Ok(words)
}

// Says on standard error why no work could begin, and answers the status.
fn refused(rt: &HostRuntime, fault: &NoStart<'_>) -> u8 {
    let line = fault.line();
    let _ = eprintln!(rt; "{line}");
    if let Some(reason) = fault.reason() {
        let _ = eprintln!(rt; "{reason}");
    }
    fault.status()
}

fn called(rt: &HostRuntime, words: &[String]) -> u8 {
    let answer = match paths(words) {
        Some(paths) => call(
            rt,
            words,
            &Asked {
                form: paths.form,
                state: words[paths.state].as_str(),
                second: words[paths.second].as_str(),
            },
        ),
        None => call_without_files(rt, words),
    };
    match answer {
        Ok(status) => status,
        Err(fault) => refused(rt, &fault),
    }
}

// A call on words that are no form.
fn call_without_files<'a>(rt: &HostRuntime, words: &[String]) -> Result<u8, NoStart<'a>> {
    let alloc = rt.alloc();
    let mut board = MemBoard::new(alloc, &[], &[], &[])?;
    let mut source = MemSource::new(alloc, &[], &[])?;
    let mut feed = MemFeed::new(alloc, &[], &[])?;
    let mut out = StdSink::new(io::writer(rt));
    Ok(top(alloc, words, &mut board, &mut source, &mut feed, &mut out))
}

// A call on the files and the address that the words name.
fn call<'a>(rt: &HostRuntime, words: &[String], asked: &Asked<'a>) -> Result<u8, NoStart<'a>> {
    match asked.form {
        Form::Show | Form::List => call_to_read(rt, words, asked),
        Form::Live | Form::Listen => call_over_feed(rt, words, asked),
        _ => call_on_files(rt, words, asked),
    }
}

// A call that reads a state file.
fn call_to_read<'a>(
    rt: &HostRuntime,
    words: &[String],
    asked: &Asked<'a>,
) -> Result<u8, NoStart<'a>> {
    let alloc = rt.alloc();
    let mut board = ReadAhead::new(alloc, open_to_read(rt, asked)?)?;
    let mut source = MemSource::new(alloc, &[], &[])?;
    let mut feed = MemFeed::new(alloc, &[], &[])?;
    let mut out = StdSink::new(io::writer(rt));
    let status = top(alloc, words, &mut board, &mut source, &mut feed, &mut out);
    tell_of_reading(rt, asked, status, &mut board, &out);
    Ok(status)
}

// A call that works on a state file with another file.
fn call_on_files<'a>(
    rt: &HostRuntime,
    words: &[String],
    asked: &Asked<'a>,
) -> Result<u8, NoStart<'a>> {
    let alloc = rt.alloc();
    let (board, mut source) = open_files(rt, asked)?;
    // a journal is read entry by entry, and each entry is short
    let mut board = ReadAhead::new(alloc, board)?;
    let mut feed = MemFeed::new(alloc, &[], &[])?;
    let mut out = StdSink::new(io::writer(rt));
    let status = top(alloc, words, &mut board, &mut source, &mut feed, &mut out);
    tell(rt, asked, status, &mut board, source.failure(), &out);
    Ok(status)
}

// A call that works on a state file with what arrives at an address.
fn call_over_feed<'a>(
    rt: &HostRuntime,
    words: &[String],
    asked: &Asked<'a>,
) -> Result<u8, NoStart<'a>> {
    let Some(at) = address(asked.second.as_bytes()) else {
        // `paths` has read the address too, so this doesn't happen
        return call_without_files(rt, words);
    };
    let alloc = rt.alloc();
    let (board, mut feed) = open_feed(rt, asked, &at)?;
    let mut board = ReadAhead::new(alloc, board)?;
    let mut source = MemSource::new(alloc, &[], &[])?;
    let mut out = StdSink::new(io::writer(rt));
    let status = top(alloc, words, &mut board, &mut source, &mut feed, &mut out);
    tell(rt, asked, status, &mut board, feed.failure(), &out);
    Ok(status)
}

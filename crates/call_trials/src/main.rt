//! Trials of calls: `pef_call::top` on objects in memory, as a text of trials on standard input has them.
//!
//! # The text
//!
//! Each line is one of these; a line that begins with `#` and an empty one say nothing. Octets are in hexadecimal digits.
//!
//! | line | what it says |
//! | --- | --- |
//! | `trial NAME` | a trial begins: no words, an empty file, and nothing of what lines before it gave |
//! | `words WORD WORD ..` | the words behind the program's name, parted by single blanks; `words` alone: none |
//! | `file OCTETS` | the state file has these octets more |
//! | `times N OCTETS` | the same, N times over |
//! | `text LINE` | the settings, script or capture has this line more, with its end; `text` alone: an empty line |
//! | `part LINE` | the same without a line feed |
//! | `second` | one more arrival: a second passed |
//! | `from IP:PORT OCTETS` | one more arrival: a datagram; `-` for no octets |
//! | `disk N ..` | the calls of the disk with these numbers fail, from 0 |
//! | `issue N ..` | the steps with these numbers fail |
//! | `input N ..` | the reads of the settings, script or capture with these numbers fail |
//! | `feed N ..` | the calls for an arrival with these numbers fail |
//! | `output N` | the write with this number fails |
//! | `go` | the call is made, and what came of it is told |
//! | `crash` | right behind a `go`: that call is crashed at each moment, made again, and what came of that is told |
//!
//! A later `go` of a trial has the words, and the file that the last one left; text, arrivals and failures are given anew. At any
//! other line the program prints `bad line N` and ends with status 1.
//!
//! # What is printed
//!
//! `trial NAME`, and for each `go`: `status N`; a line `| LINE` for each line written, and `|. PART` for what lacks its end;
//! `issued act KIND ID OUTCOME` or `issued send IP:PORT OCTETS OUTCOME` for each step; and `file OCTETS`, `file as before`, or
//! `file of N octets` for more than 2,000.
//!
//! For each `crash`: `crash torn OCTET ..` with the torn octets at which the lines behind it are the same, and
//! `moments A to B: status S, from "LINE", steps N, again M, file as without a crash` for each run of moments with the same outcome:
//! the first line that the second call wrote; the steps of both calls; those that repeat the step right before them; and whether the
//! file begins with the one that the first call left, else `file other`. The second call has the first one's words and text, and those
//! of the arrivals that were there for the first one that the crashed file hasn't stored.
#![tactic(auto)]

mod arrivals;
mod crash;
mod entries;
mod fault;
mod play;
mod player;
mod runs;
mod starting;
mod supply;
mod telling;
mod trial;

use starting::start;
use std::process::ExitCode;

fn main(rt: HostRuntime) -> ExitCode {
    ExitCode::from(start(&rt))
}

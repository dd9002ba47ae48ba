//! A trial, and the lines that say what its next call is given.
use crate::fault::Fault;
use crate::supply::Supply;
use board_core::Arrival;
use hex::FromHexError;
use script_text::{address, count, octets_up_to};
use std::alloc::{AllocError, Global};

/// What the next call of a trial is given.
#[derive(Drop)]
pub struct Trial {
    alloc: Global,
    /// The words behind the program's name.
    pub words: Vec<String>,
    /// The state file.
    pub file: Vec<u8>,
    /// What that call alone is given.
    pub supply: Supply,
}

/// Whether a trial begins at this line.
pub fn begins_trial(line: &str) -> bool {
    line.starts_with("trial ")
}

impl Trial {
    /// No words, an empty file, and nothing else.
    pub fn new(alloc: Global) -> Trial {
        Trial {
            alloc,
            words: Vec::new(alloc),
            file: Vec::new(alloc),
            supply: Supply::new(alloc),
        }
    }

    /// Takes a line that says what the next call is given.
    pub fn take(&mut self, line: &str) -> Result<(), Fault> {
        match line.split_once(' ') {
            Some((word, rest)) => self.take_with(word, rest),
            None => self.take_alone(line),
        }
    }

    // A line of one word.
    fn take_alone(&mut self, word: &str) -> Result<(), Fault> {
        match word {
            "words" => self.words = Vec::new(self.alloc),
            "text" => self.supply.text.push(b'\n').map_err(AllocError::from)?,
            "second" => self.supply.arrivals.push(Arrival::Tick)?,
            _ => return Err(Fault::Line),
        }
        Ok(())
    }

    // A line of this word and what stands behind it.
    fn take_with(&mut self, word: &str, rest: &str) -> Result<(), Fault> {
        match word {
            "words" => self.words = words_in(self.alloc, rest)?,
            "file" => self.append(1, rest)?,
            "times" => self.append_often(rest)?,
            "text" => self.add_text(rest, "\n")?,
            "part" => self.add_text(rest, "")?,
            "from" => self.add_datagram(rest)?,
            _ => self.take_failures(word, rest)?,
        }
        Ok(())
    }

    // A line that says which calls fail.
    fn take_failures(&mut self, word: &str, rest: &str) -> Result<(), Fault> {
        let numbers = numbers_in(self.alloc, rest)?;
        let failing = &mut self.supply.failing;
        match word {
            "disk" => failing.disk = numbers,
            "issue" => failing.issue = numbers,
            "input" => failing.input = numbers,
            "feed" => failing.feed = numbers,
            "output" => failing.output = numbers.first().copied(),
            _ => return Err(Fault::Line),
        }
        Ok(())
    }

    // These octets behind the file's, so many times.
    fn append(&mut self, times: u32, digits: &str) -> Result<(), Fault> {
        let octets = octets_in(self.alloc, digits)?;
        for _ in 0..times {
            self.file.extend_from_slice(octets.as_slice())?;
        }
        Ok(())
    }

    // `N OCTETS`
    fn append_often(&mut self, rest: &str) -> Result<(), Fault> {
        let Some((number, digits)) = rest.split_once(' ') else {
            return Err(Fault::Line);
        };
        let Some(times) = count(number.as_bytes()) else {
            return Err(Fault::Line);
        };
        self.append(times, digits)
    }

    fn add_text(&mut self, line: &str, end: &str) -> Result<(), Fault> {
        self.supply.text.extend_from_slice(line.as_bytes())?;
        self.supply.text.extend_from_slice(end.as_bytes())?;
        Ok(())
    }

    // `IP:PORT OCTETS`
    fn add_datagram(&mut self, rest: &str) -> Result<(), Fault> {
        let Some((from, digits)) = rest.split_once(' ') else {
            return Err(Fault::Line);
        };
        let Some(from) = address(from.as_bytes()) else {
            return Err(Fault::Line);
        };
        let Some(octets) = octets_up_to::<512>(digits.as_bytes()) else {
            return Err(Fault::Line);
        };
        self.supply
            .arrivals
            .push(Arrival::Datagram { from, octets })?;
        Ok(())
    }
}

// The words of a text, parted by single blanks.
fn words_in(alloc: Global, text: &str) -> Result<Vec<String>, Fault> {
    let mut words = Vec::new(alloc);
    let mut left = text;
    for _ in 0..text.len() {
        let Some((word, behind)) = left.split_once(' ') else {
            break;
        };
        words
            .push(String::from_str(alloc, word)?)
            .map_err(AllocError::from)?;
        left = behind;
    }
    words
        .push(String::from_str(alloc, left)?)
        .map_err(AllocError::from)?;
    Ok(words)
}

// The numbers of a text, each at most 1,000,000.
fn numbers_in(alloc: Global, text: &str) -> Result<Vec<u64>, Fault> {
    let words = words_in(alloc, text)?;
    let mut numbers = Vec::new(alloc);
    for word in &words {
        let Some(number) = count(word.as_str().as_bytes()) else {
            return Err(Fault::Line);
        };
        numbers.push(u64::from(number)).map_err(AllocError::from)?;
    }
    Ok(numbers)
}

// Octets in pairs of hexadecimal digits.
fn octets_in(alloc: Global, digits: &str) -> Result<Vec<u8>, Fault> {
    match hex::decode(alloc, digits) {
        Ok(octets) => Ok(octets),
        Err(FromHexError::OutOfMemory) => Err(Fault::Memory),
        Err(_) => Err(Fault::Line),
    }
}

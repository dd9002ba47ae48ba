//! Runs of moments with the same outcome.
use crate::telling::tell_line;
use std::alloc::{AllocError, Global};

/// The lines of the runs that are over, and the run that goes on.
#[derive(Drop)]
pub struct Runs {
    alloc: Global,
    lines: Vec<u8>,
    first: u64,
    last: u64,
    outcome: Option<String>,
}

impl Runs {
    /// No moment yet.
    pub fn new(alloc: Global) -> Runs {
        Runs {
            alloc,
            lines: Vec::new(alloc),
            first: 0,
            last: 0,
            outcome: None,
        }
    }

    /// One more moment, with its outcome.
    pub fn add(&mut self, moment: u64, outcome: String) -> Result<(), AllocError> {
        if !self.goes_on(outcome.as_str()) {
            self.close()?;
            self.first = moment;
            self.outcome = Some(outcome);
        }
        self.last = moment;
        Ok(())
    }

    /// The lines of all runs.
    pub fn end(mut self) -> Result<Vec<u8>, AllocError> {
        self.close()?;
        Ok(self.lines)
    }

    // Whether the run at hand has this outcome.
    fn goes_on(&self, outcome: &str) -> bool {
        match &self.outcome {
            Some(at_hand) => at_hand.as_str() == outcome,
            None => false,
        }
    }

    // Adds the line of the run at hand.
    fn close(&mut self) -> Result<(), AllocError> {
        let first = self.first;
        let last = self.last;
        if let Some(outcome) = &self.outcome {
            let line = format!(in self.alloc; "moments {first} to {last}: {outcome}")?;
            tell_line(&mut self.lines, line.as_str())?;
        }
        Ok(())
    }
}

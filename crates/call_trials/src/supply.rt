//! What one call is given besides its words and its state file.
use crate::arrivals::Arrivals;
use std::alloc::{AllocError, Global};

/// What one call is given besides its words and its state file.
#[derive(Drop)]
pub struct Supply {
    /// The settings, script or capture.
    pub text: Vec<u8>,
    /// What arrives.
    pub arrivals: Arrivals,
    /// What fails.
    pub failing: Failing,
}

/// The calls that fail, by their numbers from 0.
#[derive(Drop)]
pub struct Failing {
    pub disk: Vec<u64>,
    pub issue: Vec<u64>,
    pub input: Vec<u64>,
    pub feed: Vec<u64>,
    pub output: Option<u64>,
}

impl Supply {
    /// No text and no arrivals, and nothing fails.
    pub fn new(alloc: Global) -> Supply {
        Supply {
            text: Vec::new(alloc),
            arrivals: Arrivals::new(alloc),
            failing: Failing::new(alloc),
        }
    }

    /// The same text and these arrivals, and nothing fails.
    pub fn again(&self, alloc: Global, arrivals: Arrivals) -> Result<Supply, AllocError> {
        Ok(Supply {
            text: self.text.as_slice().to_vec(alloc)?,
            arrivals,
            failing: Failing::new(alloc),
        })
    }
}

impl Failing {
    /// Nothing fails.
    fn new(alloc: Global) -> Failing {
        Failing {
            disk: Vec::new(alloc),
            issue: Vec::new(alloc),
            input: Vec::new(alloc),
            feed: Vec::new(alloc),
            output: None,
        }
    }
}

//! The lines of the trials, one by one.
use crate::crash::{Life, tell_crashes};
use crate::entries::arrivals_stored;
use crate::fault::Fault;
use crate::play::play;
use crate::supply::Supply;
use crate::telling::{tell_call, tell_line};
use crate::trial::{Trial, begins_trial};
use board_core::MemBoard;
use std::alloc::Global;
use std::mem;

/// The trial at hand, its last call where that was the last line, and what is told so far.
#[derive(Drop)]
pub struct Player {
    alloc: Global,
    trial: Trial,
    life: Option<Life>,
    told: Vec<u8>,
}

impl Player {
    /// No trial has begun.
    pub fn new(alloc: Global) -> Player {
        Player {
            alloc,
            trial: Trial::new(alloc),
            life: None,
            told: Vec::new(alloc),
        }
    }

    /// What is told since the last call of `clear`.
    pub fn told(&self) -> &[u8] {
        self.told.as_slice()
    }

    /// Lets go what is told.
    pub fn clear(&mut self) {
        self.told.clear();
    }

    /// Takes a line.
    pub fn take(&mut self, line: &str) -> Result<(), Fault> {
        if line.is_empty() || line.starts_with('#') {
            return Ok(());
        }
        match line {
            "go" => self.go(),
            "crash" => self.crash(),
            _ => self.take_other(line),
        }
    }

    // Takes a line that begins a trial or says what its next call is given.
    fn take_other(&mut self, line: &str) -> Result<(), Fault> {
        self.life = None;
        if !begins_trial(line) {
            return self.trial.take(line);
        }
        self.trial = Trial::new(self.alloc);
        tell_line(&mut self.told, line)?;
        Ok(())
    }

    // Makes the call.
    fn go(&mut self) -> Result<(), Fault> {
        let alloc = self.alloc;
        let supply = mem::replace(&mut self.trial.supply, Supply::new(alloc));
        let file = self.trial.file.as_slice();
        let stored = arrivals_stored(file);
        let mut board = MemBoard::new(alloc, file, &supply.failing.disk, &supply.failing.issue)?;
        let played = play(alloc, self.trial.words.as_slice(), &mut board, &supply)?;
        tell_call(alloc, &mut self.told, &played, file, &board)?;
        self.trial.file = board.octets().to_vec(alloc)?;
        self.life = Some(Life {
            board,
            supply,
            stored,
        });
        Ok(())
    }

    // Crashes the call that was made last.
    fn crash(&mut self) -> Result<(), Fault> {
        let Some(life) = &self.life else {
            return Err(Fault::Line);
        };
        tell_crashes(
            self.alloc,
            &mut self.told,
            self.trial.words.as_slice(),
            life,
        )?;
        Ok(())
    }
}

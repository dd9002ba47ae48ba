//! From standard input to standard output.
use crate::fault::Fault;
use crate::player::Player;
use crate::trial::begins_trial;
use std::io;
use std::io::{BufRead, BufReader, Write};

/// Plays the trials of standard input, writes what came of each, and answers the status: 0 at the end of the text, else 1.
pub fn start(rt: &HostRuntime) -> u8 {
    let mut player = Player::new(rt.alloc());
    let mut number = 0u64;
    let answer = play_all(rt, &mut player, &mut number);
    let written = write_told(rt, &mut player);
    match answer.and(written) {
        Ok(()) => 0,
        Err(fault) => {
            let text = fault.text();
            let _ = println!(rt; "{text} {number}");
            1
        }
    }
}

// Plays the trials, and counts the lines.
fn play_all(rt: &HostRuntime, player: &mut Player, number: &mut u64) -> Result<(), Fault> {
    let Ok(reader) = BufReader::new(rt.alloc(), rt.reader()) else {
        return Err(Fault::Memory);
    };
    for line in reader.lines(rt.alloc()) {
        let Ok(line) = line else {
            return Err(Fault::Input);
        };
        *number = number.saturating_add(1);
        if begins_trial(line.as_str()) {
            write_told(rt, player)?;
        }
        player.take(line.as_str())?;
    }
    Ok(())
}

// Writes what is told since the last time.
fn write_told(rt: &HostRuntime, player: &mut Player) -> Result<(), Fault> {
    let mut out = io::writer(rt);
    match out.write_all(player.told()) {
        Ok(()) => {
            player.clear();
            Ok(())
        }
        Err(_) => Err(Fault::Output),
    }
}

//! The lines of standard input, one after the other.
use crate::fault::Fault;
use std::alloc::Global;
use std::io::{self, BufRead, BufReader};
use std::process::ExitCode;

/// Plays lines.
pub trait LinePlayer {
    /// What a line answers: whole lines, or nothing.
    fn play(&mut self, line: &str) -> Result<String, Fault>;
}

// Plays a line that was read, and prints what it answers.
fn play_line<R: Print, P: LinePlayer>(
    rt: &R,
    player: &mut P,
    line: io::Result<String>,
) -> Result<(), Fault> {
    let line = line?;
    let answer = player.play(line.as_str())?;
    print!(rt; "{}", answer.as_str())?;
    Ok(())
}

// Plays each line.
fn play_all<R: Input + Print, P: LinePlayer>(
    rt: &R,
    alloc: Global,
    player: &mut P,
) -> Result<(), Fault> {
    for line in BufReader::new(alloc, rt.reader())?.lines(alloc) {
        play_line(rt, player, line)?;
    }
    Ok(())
}

/// Plays each line of standard input, and prints what it answers. One that is not played is the last; standard error
/// tells why.
pub fn play_lines<R: Input + Print + Eprint, P: LinePlayer>(
    rt: &R,
    alloc: Global,
    player: &mut P,
) -> ExitCode {
    match play_all(rt, alloc, player) {
        Ok(()) => ExitCode::SUCCESS,
        Err(fault) => {
            let _ = eprintln!(rt; "{fault}");
            ExitCode::FAILURE
        }
    }
}

//! A chess game server: its words.
//!
//! What was read of its words goes to `server_words`; then it tells how it ended.
#![tactic(auto)]

use clap::Error;
use command_lines::words_given;
use server_words::{
    End, Fault, Word, command, copy_journal, end_of_words, end_of_work, fault_name, format,
    play_board, read_words, run_journal, serve, show_games, status, tell_drill, widen,
};
use std::process::ExitCode;

fn main(rt: HostRuntime) -> ExitCode {
    let end = match do_words(&rt) {
        Ok(done) => end_of_work(done),
        Err(error) => end_with(&rt, &error),
    };
    if let End::Fault(fault) = end {
        let name = fault_name(fault);
        let _ = eprintln!(rt; "fault {name}");
    }
    ExitCode::from(status(end))
}

// Prints a text of the command line, as help.
fn end_with(rt: &HostRuntime, error: &Error) -> End {
    let _ = error.print(rt);
    end_of_words(error)
}

// Does what the words of the command line ask for.
fn do_words(rt: &HostRuntime) -> Result<Result<(), Fault>, Error> {
    let words = words_given(rt, command(rt.alloc())?)?;
    let word = read_words(rt.alloc(), words.as_slice())?;
    Ok(do_work(rt, word))
}

// Does what a word asks for.
fn do_work(rt: &HostRuntime, word: Word<'_>) -> Result<(), Fault> {
    match word {
        Word::Board => play_board(rt, &mut rt.stdin(), &mut rt.stdout()),
        Word::Format(formatting) => format(rt, rt.alloc(), &formatting),
        Word::Run(journal) => {
            let (mut input, mut output) = (rt.stdin(), rt.stdout());
            run_journal(rt, rt.alloc(), journal, &mut input, &mut output)
        }
        Word::Serve(serving) => serve(rt, rt.alloc(), &serving),
        Word::Drill => tell_drill(rt, rt.alloc()),
        Word::Widen(wanted) => widen(rt, rt.alloc(), &wanted),
        Word::Copy(copying) => copy_journal(rt, rt.alloc(), &copying),
        Word::Show(journal) => show_games(rt, rt.alloc(), journal, &mut rt.stdout()),
    }
}

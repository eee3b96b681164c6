//! How a program ends.
ghost use Rattle.std.specs.Prelude.{◌≡◌, IsOk, IfErr};
ghost use Rattle.std.specs.Process.{exit_status};
ghost use Rattle.clap.specs.Values.{kind_of};
ghost use Rattle.command_lines.specs.Ending.{status_of, status_of_text};

use anyhow::Result;
use clap::Error;
use clap::error::ErrorKind;
use std::alloc::AllocError;
use std::process::ExitCode;

/// Why a program did not do what its words ask for.
#[derive(Drop)]
pub enum NotDone {
    /// They ask for a text of the command line, as help, or for nothing that it does; or memory for them was refused.
    Words(Error),
    /// The work broke off.
    Work(anyhow::Error),
}

impl From<Error> for NotDone {
    fn from(error: Error) -> NotDone {
        NotDone::Words(error)
    }
}

impl From<AllocError> for NotDone {
    fn from(error: AllocError) -> NotDone {
        NotDone::Words(Error::from(error))
    }
}

impl From<anyhow::Error> for NotDone {
    fn from(error: anyhow::Error) -> NotDone {
        NotDone::Work(error)
    }
}

// How a program ends that did nothing, with a text of its command line.
fn status_after(text: &Error) -> ExitCode
    ensures { exit_status result ≡ status_of_text (kind_of text.now) }
{
    match text.kind() {
        ErrorKind::DisplayHelp | ErrorKind::DisplayVersion => ExitCode::SUCCESS,
        ErrorKind::OutOfMemory => ExitCode::FAILURE,
        _ => ExitCode::from(2),
    }
}

/// Prints why a program did not do what its words ask for, and ends it: with status 0 where it did, or printed a text
/// that was asked for, with 1 where the work broke off or memory was refused, and else with 2.
pub fn end_of<R: Print + Eprint>(rt: &R, program: &str, done: Result<(), NotDone>) -> ExitCode
    ensures done { IsOk done → exit_status result ≡ 0 }
    ensures not_done { IfErr done (λ fault. exit_status result ≡ status_of fault) }
{
    match done {
        Ok(()) => ExitCode::SUCCESS,
        Err(NotDone::Words(error)) => {
            let _ = error.print(rt);
            status_after(&error)
        }
        Err(NotDone::Work(error)) => {
            let _ = eprintln!(rt; "{program}: {error:#}");
            ExitCode::FAILURE
        }
    }
}

//! The words that a program was given.
ghost use Rattle.std.specs.Prelude.{◌≡◌, ◌⊎◌, IfErr};
ghost use Rattle.clap.specs.Values.{kind_of};

use clap::error::ErrorKind;
use clap::{Command, Error};
use std::alloc::AllocError;
use std::rt::Env;
use std::{env, io};

// The words of the command line. An `Err` is a usage fault of `command` where one of them is no text, and `OutOfMemory`
// where memory was refused.
fn words_or_fault<R: Env + AllocGlobal>(
    rt: &R,
    command: &mut Command<'_>,
) -> Result<Vec<String>, Error>
    ensures { IfErr result (λ fault. (kind_of fault ≡ ErrorKind.InvalidValue)
        ⊎ (kind_of fault ≡ ErrorKind.OutOfMemory)) }
{
    match env::args(rt) {
        Ok(args) => Ok(args.collect(rt.alloc())?),
        Err(fault) if fault.kind() == io::ErrorKind::OutOfMemory => Err(Error::from(AllocError)),
        Err(_) => Err(command.error(ErrorKind::InvalidValue, "a word is not in UTF-8")?),
    }
}

/// The words of the command line, the program's own name first. An `Err` is a usage fault of `command` where one of
/// them is no text, and `OutOfMemory` where memory was refused.
pub fn words_given<R: Env + AllocGlobal>(
    rt: &R,
    mut command: Command<'_>,
) -> Result<Vec<String>, Error>
    ensures { IfErr result (λ fault. (kind_of fault ≡ ErrorKind.InvalidValue)
        ⊎ (kind_of fault ≡ ErrorKind.OutOfMemory)) }
{
    let words = words_or_fault(rt, &mut command);
    drop(command);
    words
}

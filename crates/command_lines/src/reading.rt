//! What was read of the words.
ghost use Rattle.std.specs.Prelude.{◌≡◌, ◌⊎◌, None, Some, IfErr, IfOk, IsSome, IsErrAnd, OnErr, map};
ghost use Rattle.clap.specs.Simple.{HasMatchesOf, app_of};
ghost use Rattle.command_lines.specs.Faults.{IsOfCommand};
ghost use Rattle.clap.specs.Values.{kind_of};

use clap::error::ErrorKind;
use clap::{ArgMatches, Command, Error};
use std::alloc::Global;
use std::convert::AsStr;

/// What was read of the words, or a usage fault of the command with this text where nothing was. `OutOfMemory` where
/// memory was refused for the fault.
pub fn read_or_fault<T: Drop>(
    command: &mut Command<'_>,
    read: Option<T>,
    text: &str,
) -> Result<T, Error>
    ensures some { IfOk result (λ value. read ≡ Some value) }
    ensures none { OnErr result (read ≡ None) }
    ensures fault { IfErr result (λ fault. (kind_of fault ≡ ErrorKind.InvalidValue)
        ⊎ (kind_of fault ≡ ErrorKind.OutOfMemory)) }
{
    match read {
        Some(value) => Ok(value),
        None => Err(command.error(ErrorKind::InvalidValue, text)?),
    }
}

/// What was read of the words, or a usage fault of the command with what was told of them, and where nothing was told
/// and nothing read, with this text. `OutOfMemory` where memory was refused for the fault.
pub fn read_or_told<T: Drop>(
    command: &mut Command<'_>,
    told: Option<String>,
    read: Option<T>,
    text: &str,
) -> Result<T, Error>
    ensures some { IfOk result (λ value. (told ≡ None) × (read ≡ Some value)) }
    ensures none { OnErr result (IsSome told ⊎ (read ≡ None)) }
    ensures fault { IfErr result (λ fault. (kind_of fault ≡ ErrorKind.InvalidValue)
        ⊎ (kind_of fault ≡ ErrorKind.OutOfMemory)) }
{
    match told {
        Some(told) => Err(command.error(ErrorKind::InvalidValue, told.as_str())?),
        None => read_or_fault(command, read, text),
    }
}

/// What `read` answers of what the command has of the words, the program's own name first. An `Err` is its fault, or
/// one of the command, which is a request for help too. The command has a fault of words that it takes only where
/// memory was refused.
pub fn read_by<'a, S: AsStr, T, F>(
    alloc: Global,
    mut command: Command<'a>,
    words: &'a [S],
    read: F,
) -> Result<T, Error>
where
    F: FnOnce(Global, &mut Command<'a>, &ArgMatches<'a>) -> Result<T, Error>,
    requires { F.IsAlwaysCallable read }
    ensures { ((found : _) × HasMatchesOf (app_of command.entry) (map S.text words.entry.now) found.now
        × ((before : _) × (after : _) × F.post read alloc before found result after))
        ⊎ IsErrAnd result (IsOfCommand (app_of command.entry) (map S.text words.entry.now)) }
{
    // (the command and its matches go by calls: each way out would let go of all their parts)
    let matches = match command.try_get_matches_from_mut(words) {
        Ok(matches) => matches,
        Err(fault) => {
            drop(command);
            return Err(fault);
        }
    };
    let answer = read(alloc, &mut command, &matches);
    drop(matches);
    drop(command);
    answer
}

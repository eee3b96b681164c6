//! Arguments of a command line.
ghost use Rattle.std.specs.Prelude.{◌≡◌, Some};

use clap::{Arg, ArgAction};
use std::alloc::Global;

/// An argument `--NAME VALUE`.
pub fn option<'a>(
    alloc: Global,
    name: &'static str,
    value: &'static str,
    help: &'static str,
) -> Arg<'a>
    ensures id { result.id.now ≡ name.entry.now }
    ensures long { result.long ≡ Some name.entry }
{
    Arg::new(alloc, name)
        .long(name)
        .value_name(value)
        .help(help)
}

/// An argument `--NAME` without a value.
pub fn flag<'a>(alloc: Global, name: &'static str, help: &'static str) -> Arg<'a>
    ensures id { result.id.now ≡ name.entry.now }
    ensures long { result.long ≡ Some name.entry }
{
    Arg::new(alloc, name)
        .long(name)
        .help(help)
        .action(ArgAction::SetTrue)
}

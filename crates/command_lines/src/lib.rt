//! What programs share: the words that were given, the options of each word as a table, what is told on standard error,
//! the moment, and how a program ends.
//!
//! Modules: `given` has the words that were given, `argument` makes an argument, `options` a command line of a table of
//! words, and arguments of a table of options, `ending` ends a program, `version` is the version of all; `reading`
//! hands on what a command line finds in a program's words, and makes a usage fault where these ask for nothing;
//! `telling` is how the club's program tells what is wrong, `moment` the system's clock.
#![tactic(auto)]

mod argument;
mod ending;
mod given;
mod moment;
mod options;
mod reading;
mod telling;
mod version;

pub use argument::{flag, option};
pub use ending::{NotDone, end_of};
pub use given::words_given;
pub use moment::unix_time;
pub use options::{OptionText, OptionValue, WordText, arguments, command_line};
pub use reading::{read_by, read_or_fault, read_or_told};
pub use telling::{CLUB, tell};
pub use version::VERSION;

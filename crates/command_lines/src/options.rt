//! Options, and words with their options, as tables.
use crate::argument::{flag, option};
use crate::version::VERSION;
use clap::builder::ValueParser;
use clap::{Arg, ArgAction, Command};
use std::alloc::{AllocError, Global};

/// What stands behind the name of an option; the text is what the help calls it.
#[derive(Clone, Copy)]
pub enum OptionValue {
    /// Nothing: the option is a flag.
    Nothing,
    /// A text.
    Text(&'static str),
    /// A text, and the option may be given several times.
    Texts(&'static str),
    /// A number from the first on, up to the second.
    Number(&'static str, u64, u64),
    /// A text that is given by its place, without the option's name.
    Alone(&'static str),
}

/// An option `--NAME VALUE`, or a flag `--NAME`.
#[derive(Clone, Copy)]
pub struct OptionText {
    pub name: &'static str,
    pub value: OptionValue,
    pub help: &'static str,
    pub is_required: bool,
}

/// A word of a program, with its options in the order in which help lists them.
#[derive(Clone, Copy)]
pub struct WordText {
    pub name: &'static str,
    pub about: &'static str,
    /// What its help has behind the list of its options.
    pub help: &'static str,
    pub options: &'static [OptionText],
}

// An option as an argument.
fn argument<'a>(alloc: Global, text: &OptionText) -> Arg<'a> {
    let made = match text.value {
        OptionValue::Nothing => flag(alloc, text.name, text.help),
        OptionValue::Text(value) => option(alloc, text.name, value, text.help),
        OptionValue::Texts(value) => {
            option(alloc, text.name, value, text.help).action(ArgAction::Append)
        }
        OptionValue::Number(value, least, most) => option(
            alloc, text.name, value, text.help,
        ).value_parser(ValueParser::Unsigned(least, most)),
        OptionValue::Alone(value) => Arg::new(alloc, text.name).value_name(value).help(text.help),
    };
    made.required(text.is_required)
}

/// Options as arguments, in their order. It fails where memory is refused.
pub fn arguments<'a>(alloc: Global, options: &[OptionText]) -> Result<Vec<Arg<'a>>, AllocError> {
    let mut arguments = Vec::new(alloc);
    for text in options {
        arguments.push(argument(alloc, text))?;
    }
    Ok(arguments)
}

fn word_command<'a>(alloc: Global, text: &WordText) -> Result<Command<'a>, AllocError> {
    // Before the command, which is then never given up half made.
    let arguments = arguments(alloc, text.options)?;
    Command::new(alloc, text.name)
        .about(text.about)
        .after_help(text.help)
        .args(arguments)
}

fn word_commands<'a>(alloc: Global, words: &[WordText]) -> Result<Vec<Command<'a>>, AllocError> {
    let mut commands = Vec::new(alloc);
    for text in words {
        commands.push(word_command(alloc, text)?)?;
    }
    Ok(commands)
}

/// The command line of a program that is given one of these words, each with its options, in the order in which help
/// lists them; a line without a word is refused. It fails where memory is refused.
pub fn command_line<'a>(
    alloc: Global,
    name: &'static str,
    about: &'static str,
    words: &[WordText],
) -> Result<Command<'a>, AllocError> {
    let commands = word_commands(alloc, words)?;
    Command::new(alloc, name)
        .about(about)
        .version(VERSION)
        .subcommand_required(true)
        .subcommands(commands)
}

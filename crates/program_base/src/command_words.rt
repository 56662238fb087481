//! Tables of the words that commands take. clap's commands are made of them.

use clap::{Arg, ArgAction, Command, value_parser};
use std::alloc::{AllocError, Global};

/// An argument of a command: a row of its table. An id is the long name of an option or a flag, and of any other word
/// its name in the help.
#[derive(Clone, Copy)]
pub enum Argument<'a> {
    /// A word that has to be there.
    Word {
        id: &'a str,
        help: &'a str,
    },
    /// A word that may be there.
    OptionalWord {
        id: &'a str,
        help: &'a str,
    },
    /// One or more words.
    Words {
        id: &'a str,
        help: &'a str,
    },
    /// Any number of words.
    OptionalWords {
        id: &'a str,
        help: &'a str,
    },
    /// A word that is there or not.
    Flag {
        id: &'a str,
        help: &'a str,
    },
    /// A flag that has one letter too.
    ShortFlag {
        id: &'a str,
        short: char,
        help: &'a str,
    },
    /// A flag that has to be there.
    RequiredFlag {
        id: &'a str,
        help: &'a str,
    },
    /// A flag that excludes other arguments.
    FlagAgainst {
        id: &'a str,
        others: &'a [&'a str],
        help: &'a str,
    },
    /// A flag whose whole help is longer.
    ExplainedFlag {
        id: &'a str,
        help: &'a str,
        long_help: &'a str,
    },
    /// An option `--id VALUE`.
    Option {
        id: &'a str,
        value: &'a str,
        help: &'a str,
    },
    /// An option for a number below 2^64, which has to be there.
    RequiredNumber {
        id: &'a str,
        value: &'a str,
        help: &'a str,
    },
    /// An option that excludes other arguments.
    OptionAgainst {
        id: &'a str,
        value: &'a str,
        others: &'a [&'a str],
        help: &'a str,
    },
    /// An option that may be given several times.
    Options {
        id: &'a str,
        value: &'a str,
        help: &'a str,
    },
    /// An option with a default.
    OptionOr {
        id: &'a str,
        value: &'a str,
        default: &'a str,
        help: &'a str,
    },
    /// An option for a number below 2^64.
    Number {
        id: &'a str,
        value: &'a str,
        help: &'a str,
    },
    /// An option for a number below 2^64, with a default.
    NumberOr {
        id: &'a str,
        value: &'a str,
        default: &'a str,
        help: &'a str,
    },
    /// An option for one of these words, with a default.
    ChoiceOr {
        id: &'a str,
        value: &'a str,
        choices: &'a [&'a str],
        default: &'a str,
        help: &'a str,
        long_help: &'a str,
    },
    /// How many checkpoints a full block of the index has: an option.
    Period,
}

impl<'a> Argument<'a> {
    // Its id, its help, and what the help calls its value.
    fn names(self) -> (&'a str, &'a str, &'a str) {
        match self {
            Argument::Word { id, help }
            | Argument::OptionalWord { id, help }
            | Argument::Words { id, help }
            | Argument::OptionalWords { id, help }
            | Argument::Flag { id, help }
            | Argument::ShortFlag { id, help, .. }
            | Argument::RequiredFlag { id, help }
            | Argument::FlagAgainst { id, help, .. }
            | Argument::ExplainedFlag { id, help, .. } => (id, help, id),
            Argument::Option { id, value, help }
            | Argument::RequiredNumber { id, value, help }
            | Argument::OptionAgainst {
                id,
                value,
                help,
                ..
            }
            | Argument::Options { id, value, help }
            | Argument::OptionOr {
                id,
                value,
                help,
                ..
            }
            | Argument::Number { id, value, help }
            | Argument::NumberOr {
                id,
                value,
                help,
                ..
            }
            | Argument::ChoiceOr {
                id,
                value,
                help,
                ..
            } => (id, help, value),
            Argument::Period => (
                "period",
                "Entries per index run, 2 to 64; rarely worth changing, gets don't depend on it",
                "COUNT",
            ),
        }
    }

    // What is done with its words.
    fn action(self) -> ArgAction {
        match self {
            Argument::Words { .. } | Argument::OptionalWords { .. } | Argument::Options { .. } => {
                ArgAction::Append
            }
            Argument::Flag { .. }
            | Argument::ShortFlag { .. }
            | Argument::RequiredFlag { .. }
            | Argument::FlagAgainst { .. }
            | Argument::ExplainedFlag { .. } => ArgAction::SetTrue,
            _ => ArgAction::Set,
        }
    }

    // Whether it has to be there.
    fn is_required(self) -> bool {
        matches!(
            self,
            Argument::Word { .. }
                | Argument::Words { .. }
                | Argument::RequiredFlag { .. }
                | Argument::RequiredNumber { .. }
        )
    }

    // As clap has it. Each step is for all kinds: a chain of steps for each kind would take far longer to prove.
    fn arg(self, alloc: Global) -> Result<Arg<'a>, AllocError> {
        let (id, help, value) = self.names();
        let arg = Arg::new(alloc, id)
            .help(help)
            .value_name(value)
            .action(self.action())
            .required(self.is_required());
        let arg = match self {
            Argument::Word { .. } | Argument::OptionalWord { .. } => arg,
            Argument::Words { .. } => arg.num_args(1..),
            Argument::OptionalWords { .. } => arg.num_args(0..),
            _ => arg.long(id),
        };
        let arg = match self {
            Argument::ShortFlag { short, .. } => arg.short(short),
            Argument::ExplainedFlag { long_help, .. } | Argument::ChoiceOr { long_help, .. } => {
                arg.long_help(long_help)
            }
            _ => arg,
        };
        let arg = match self {
            Argument::Number { .. } | Argument::NumberOr { .. } | Argument::RequiredNumber { .. } =>
                arg.value_parser(value_parser!(u64)),
            Argument::ChoiceOr { choices, .. } => arg.value_parser(choices),
            Argument::Period => arg.value_parser(value_parser!(u8).range(2..=64)),
            _ => arg,
        };
        let arg = match self {
            Argument::OptionOr { default, .. }
            | Argument::NumberOr { default, .. }
            | Argument::ChoiceOr { default, .. } => arg.default_value(default),
            Argument::Period => arg.default_value("8"),
            _ => arg,
        };
        match self {
            Argument::FlagAgainst { others, .. } | Argument::OptionAgainst { others, .. } => {
                arg.conflicts_with_all(others)
            }
            _ => Ok(arg),
        }
    }
}

// The arguments of a table.
fn args_of<'a>(alloc: Global, arguments: &[Argument<'a>]) -> Result<Vec<Arg<'a>>, AllocError> {
    let mut args = Vec::with_capacity(alloc, arguments.len())?;
    for argument in arguments {
        args.push(argument.arg(alloc)?)?;
    }
    Ok(args)
}

/// A command: its name, what it does, what its help ends with, and its arguments.
pub fn command_of<'a>(
    alloc: Global,
    name: &'a str,
    about: &'a str,
    after_help: &'a str,
    arguments: &[Argument<'a>],
) -> Result<Command<'a>, AllocError> {
    let args = args_of(alloc, arguments)?;
    Command::new(alloc, name)
        .about(about)
        .after_help(after_help)
        // Of an option that is given twice the last one counts, so that an alias can have options.
        .args_override_self(true)
        .args(args)
}

/// Puts a command after others.
pub fn add<'a>(
    commands: &mut Vec<Command<'a>>,
    command: Result<Command<'a>, AllocError>,
) -> Result<(), AllocError> {
    commands.push(command?)?;
    Ok(())
}

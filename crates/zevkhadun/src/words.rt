//! The words that the program takes.

use clap::{ArgMatches, Command, Error};
use program_base::command_words::add;
use program_base::failure::{Failure, FailureCause};
use program_stores::{append, cat, export, get, inspect, merge, pack, stat, verify};
use std::alloc::{AllocError, Global};
use std::{env, io};

const AFTER_HELP: &str = "\
Documents are any bytes; file names and other arguments are UTF-8. If a command that writes fails or is interrupted,
the existing file is left untouched, unless only the sync of the folder failed, the last step: then the new file is in
place.

The exit status is 0 for success; 1 if a store is broken, lacks a document that is named, or a file is not what the
command takes; 2 for a usage error; 3 if the system refused a call: no such file, no rights, a full disk, no memory.

Example:
  zevkhadun pack words.store words.txt && zevkhadun get words.store 7";

// The program's command, without its subcommands.
fn bare_command<'a>(alloc: Global) -> Result<Command<'a>, AllocError> {
    Command::new(alloc, "zevkhadun")
        .version("0.2.0 (writes format 3, reads formats 1 to 3)")
        .about("Write-once files of documents, read back by number")
        .after_help(AFTER_HELP)
        .subcommand_required(true)
        .arg_required_else_help(true)
        .bin_name("zevkhadun")
}

// The subcommands of the program, in the order of the help.
fn subcommands<'a>(alloc: Global) -> Result<Vec<Command<'a>>, AllocError> {
    let mut commands = Vec::new(alloc);
    add(&mut commands, pack::command(alloc))?;
    add(&mut commands, append::command(alloc))?;
    add(&mut commands, get::command(alloc))?;
    add(&mut commands, cat::command(alloc))?;
    add(&mut commands, stat::command(alloc))?;
    add(&mut commands, verify::command(alloc))?;
    add(&mut commands, merge::command(alloc))?;
    add(&mut commands, export::command(alloc))?;
    add(&mut commands, inspect::command(alloc))?;
    add(&mut commands, program_logs::command(alloc))?;
    Ok(commands)
}

// The program's command, with its subcommands.
fn command<'a>(alloc: Global) -> Result<Command<'a>, AllocError> {
    let subcommands = subcommands(alloc)?;
    bare_command(alloc)?.subcommands(subcommands)
}

// What keeps the words from being read.
fn refusal_of(error: io::Error) -> FailureCause {
    if error.kind() == io::ErrorKind::InvalidData {
        return FailureCause::NoText;
    }
    FailureCause::System(error)
}

/// The words that the program was given.
pub fn given(rt: &HostRuntime) -> Result<Vec<String>, Failure> {
    let words = match env::args(rt) {
        Ok(words) => words.collect(rt.alloc()),
        Err(error) => return Err(Failure::from(refusal_of(error))),
    };
    match words {
        Ok(words) => Ok(words),
        Err(_) => Err(Failure::from(FailureCause::System(io::ErrorKind::OutOfMemory.into()))),
    }
}

/// What the words say.
pub fn parse<'a>(alloc: Global, given: &'a [String]) -> Result<ArgMatches<'a>, Error> {
    command(alloc)?.try_get_matches_from(given)
}

// What stands before a line of clap's text that is kept: it is of the first paragraph, or a tip.
fn separator_before(line: &str, is_first: bool, is_begun: bool) -> Option<&'static str> {
    match (is_first, line.starts_with("tip: ")) {
        (true, _) => Some(if is_begun { " " } else { "" }),
        (false, true) => Some("; "),
        (false, false) => None,
    }
}

// What clap says, on one line: its first paragraph, and its tips.
fn one_line(alloc: Global, text: &str) -> Result<String, AllocError> {
    let mut said = String::new(alloc);
    let mut is_first = true;
    for line in text.strip_prefix("error: ").unwrap_or(text).lines() {
        let line = line.trim();
        is_first &= !line.is_empty();
        if let Some(separator) = separator_before(line, is_first, !said.is_empty()) {
            said.push_str(separator)?;
            said.push_str(line)?;
        }
    }
    Ok(said)
}

/// The failure of words that clap refuses.
pub fn usage_failure(alloc: Global, error: &Error) -> Failure {
    let line = match format!(in alloc; "{error}") {
        Ok(text) => one_line(alloc, text.as_str()),
        Err(error) => Err(error),
    };
    match line {
        Ok(line) => Failure::from(FailureCause::Words(line)),
        Err(error) => Failure::from(error),
    }
}

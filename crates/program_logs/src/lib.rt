//! The commands of `log`: a log of records in a folder grows by `append`, and its records are read by their numbers.
#![tactic(auto)]

pub mod append;
pub mod cat;
mod compact;
mod drop;
pub mod get;
mod log_refusal;
pub mod logs;
mod places;
mod record_span;
mod repair;
mod seal;
mod stat;
mod sync_policy;
mod verify;

ghost use Rattle.std.specs.Prelude.{◌≡◌, ℕ, List, [], IsTrue};

use clap::{ArgMatches, Command};
use document_framing::InputFiles;
use logs::{Logs, ReadLogs};
use places::check_parts;
use program_base::arguments::{word, wrong_words};
use program_base::command_words::{Argument, add};
use program_base::failure::{Failure, FailureCause, with_file};
use std::alloc::{AllocError, Global};
use std::io::IsTerminal;
use store_files::SystemFiles;

/// The name of the argument for the folder.
const FOLDER: &str = "FOLDER";

const AFTER_HELP: &str = "\
A log is a folder: sealed segments, which are ordinary stores, and a tail. A record is any bytes, and its number stays.
'append', 'repair', 'seal', 'compact' and 'drop' lock the log, so it has one writer; the other commands take no lock and
change nothing.

Example:
  zevkhadun log append events new.txt && zevkhadun log get events 0";

// The command `log`, without its subcommands.
fn bare_command<'a>(alloc: Global) -> Command<'a> {
    Command::new(alloc, "log")
        .about("Keep a log: records that are on the disk once they are acknowledged")
        .after_help(AFTER_HELP)
        .subcommand_required(true)
        .arg_required_else_help(true)
}

// The subcommands of `log`, in the order of the help.
fn subcommands<'a>(alloc: Global) -> Result<Vec<Command<'a>>, AllocError> {
    let mut commands = Vec::new(alloc);
    add(&mut commands, append::command(alloc))?;
    add(&mut commands, get::command(alloc))?;
    add(&mut commands, cat::command(alloc))?;
    add(&mut commands, stat::command(alloc))?;
    add(&mut commands, verify::command(alloc))?;
    add(&mut commands, repair::command(alloc))?;
    add(&mut commands, seal::command(alloc))?;
    add(&mut commands, compact::command(alloc))?;
    add(&mut commands, drop::command(alloc))?;
    Ok(commands)
}

/// The words of `log`.
pub fn command<'a>(alloc: Global) -> Result<Command<'a>, AllocError> {
    let subcommands = subcommands(alloc)?;
    bare_command(alloc).subcommands(subcommands)
}

/// The folder of a log that is there.
fn folder<'a>() -> Argument<'a> {
    Argument::Word {
        id: FOLDER,
        help: "The log's folder",
    }
}

/// Whether what a command says of its work is seen: on a terminal, unless the words say that nothing is shown.
fn is_seen(rt: &HostRuntime, matches: &ArgMatches<'_>) -> bool {
    !matches.get_flag("quiet") && rt.stderr().is_terminal()
}

// Does what the words ask of a command that only reads.
fn read<S: SystemFiles>(
    logs: &ReadLogs<'_, S>,
    name: &str,
    matches: &ArgMatches<'_>,
) -> Result<(), Failure> {
    let alloc = logs.rt.alloc();
    match name {
        "stat" => return stat::run(logs, matches),
        "verify" => return verify::run(logs, matches),
        _ => {}
    }
    let path = word(alloc, matches, FOLDER)?;
    with_file(alloc, path, check_parts(logs.rt, path))?;
    let given = match name {
        "get" => get::run(logs, path, matches),
        "cat" => cat::run(logs, path, matches),
        _ => Err(wrong_words(alloc, "unknown command", name)),
    };
    with_file(alloc, path, given)
}

// Does what the words ask of a command that writes the log at a path.
fn write<S: SystemFiles>(
    logs: Logs<'_, S>,
    name: &str,
    path: &str,
    matches: &ArgMatches<'_>,
) -> Result<(), FailureCause> {
    match name {
        "repair" => repair::run(logs, path),
        "seal" => seal::run(logs, path, matches),
        "compact" => compact::run(logs, path, matches),
        "drop" => drop::run(logs, path, matches),
        _ => Err(wrong_words(logs.rt.alloc(), "unknown command", name)),
    }
}

/// Does what the words ask. Nothing was changed through the system before.
pub fn run<S: SystemFiles, I: InputFiles + Drop>(
    rt: &HostRuntime,
    system: S,
    mut files: I,
    matches: &ArgMatches<'_>,
) -> Result<(), Failure>
    requires unchanged { IsTrue S.honest → (d : List ℕ) → S.changes system d ≡ [] }
{
    let Some((name, matches)) = matches.subcommand() else {
        return Ok(());
    };
    if let "get" | "cat" | "stat" | "verify" = name {
        return read(&ReadLogs::new(rt, system)?, name, matches);
    }
    let (logs, path) = (Logs::new(rt, system), word(rt.alloc(), matches, FOLDER)?);
    match name {
        "append" => append::run(logs, &mut files, path, matches),
        _ => with_file(rt.alloc(), path, write(logs, name, path, matches)),
    }
}

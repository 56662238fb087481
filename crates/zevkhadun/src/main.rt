//! The program `zevkhadun`: it packs documents into stores on disk, gets them, and checks, merges and shows stores.
//!
//! It ends with status 0 after success, 1 if a store is broken or a file is not what the command takes, 2 after a usage
//! error, and 3 if the system refused a call.
#![tactic(auto)]

mod descriptors;
mod words;

ghost use Rattle.std.specs.Prelude.{◌≡◌, ℕ, List, [], IsTrue};

use clap::error::ErrorKind;
use clap::{ArgMatches, Error};
use descriptors::hold_closed;
use document_framing::{HostInputs, InputFiles};
use program_base::arguments::wrong_words;
use program_base::failure::{Failure, FailureCause};
use program_stores::{append, cat, export, get, inspect, merge, pack, stat, verify};
use std::process::ExitCode;
use store_files::{HostFiles, SystemFiles};

// Does what the words ask. A subcommand and the arguments that it requires are there, since clap has seen to it.
fn run<S: SystemFiles, F: InputFiles + Drop>(
    rt: &HostRuntime,
    system: S,
    files: F,
    matches: &ArgMatches<'_>,
) -> Result<(), Failure>
    requires unchanged { IsTrue S.honest → (d : List ℕ) → S.changes system d ≡ [] }
{
    let Some((name, matches)) = matches.subcommand() else {
        return Ok(());
    };
    match name {
        "pack" => pack::run(rt, system, files, matches),
        "append" => append::run(rt, system, files, matches),
        "get" => get::run(rt, &system, matches),
        "cat" => cat::run(rt, &system, matches),
        "stat" => stat::run(rt, &system, matches),
        "verify" => verify::run(rt, &system, matches),
        "merge" => merge::run(rt, system, matches),
        "export" => export::run(rt, system, matches),
        "inspect" => inspect::run(rt, system, matches),
        "log" => program_logs::run(rt, system, files, matches),
        _ => Err(Failure::from(wrong_words(rt.alloc(), "unknown command", name))),
    }
}

// Reports a failure, and returns the program's status.
fn end(rt: &HostRuntime, failure: &Failure) -> ExitCode {
    match failure.report(rt) {
        Some(status) => ExitCode::from(status),
        None => ExitCode::SUCCESS,
    }
}

// Prints the help or the version, or reports what is wrong with the words, and returns the program's status.
fn end_words(rt: &HostRuntime, error: &Error) -> ExitCode {
    match error.kind() {
        ErrorKind::DisplayHelp
        | ErrorKind::DisplayHelpOnMissingArgumentOrSubcommand
        | ErrorKind::DisplayVersion => {}
        _ => return end(rt, &words::usage_failure(rt.alloc(), error)),
    }
    match error.print(rt) {
        Err(failed) if !error.use_stderr() => {
            end(rt, &Failure::from(FailureCause::Output(failed)))
        }
        _ => ExitCode::from(error.exit_code() as u8),
    }
}

// Does what the words ask, over the files of the operating system.
fn run_on_host(rt: &HostRuntime, matches: &ArgMatches<'_>) -> Result<(), Failure> {
    run(rt, HostFiles::new(rt)?, HostInputs { rt }, matches)
}

// Does what the words that were given ask.
fn run_given(rt: &HostRuntime) -> ExitCode {
    let given = match words::given(rt) {
        Ok(given) => given,
        Err(failure) => return end(rt, &failure),
    };
    match words::parse(rt.alloc(), given.as_slice()) {
        Ok(matches) => match run_on_host(rt, &matches) {
            Ok(()) => ExitCode::SUCCESS,
            Err(failure) => end(rt, &failure),
        },
        Err(error) => end_words(rt, &error),
    }
}

fn main(rt: HostRuntime) -> ExitCode {
    match hold_closed(&rt) {
        Ok(_held) => run_given(&rt),
        Err(error) => end(&rt, &Failure::from(FailureCause::System(error))),
    }
}

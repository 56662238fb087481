//! `verify`: reads stores whole, and reports what breaks a promise of the format.

use clap::{ArgMatches, Command};
use program_base::arguments::{self, wrong_words};
use program_base::command_words::{Argument, command_of};
use program_base::failure::{Failure, FailureCause};
use program_base::findings::Findings;
use program_base::store_check::{BLIND_SPOT, Verifying};
use program_base::store_file::StorePath;
use program_base::verify_output::ReportForm;
use std::alloc::{AllocError, Global};
use store_files::SystemFiles;

const EXAMPLE: &str = "\
Checks the footer, the index, that the blocks cover the data, the table of each block, and the place of each document.
The exit status is 1 if a store is broken, and 3 if none is but one can't be read.

Examples:
  zevkhadun verify *.store     one line for each store, with its first fault
  zevkhadun verify --list a.store > damaged.ids; zevkhadun cat a.store --without @damaged.ids";

/// The words of `verify`.
pub fn command<'a>(alloc: Global) -> Result<Command<'a>, AllocError> {
    command_of(
        alloc,
        "verify",
        "Check stores completely and report the first violation of the format",
        EXAMPLE,
        &[
            Argument::Words {
                id: "FILE",
                help: "The stores",
            },
            Argument::FlagAgainst {
                id: "list",
                others: &["json"],
                help: "Print the numbers of all damaged documents of one store, as --without takes them, \
                       and the fault on standard error",
            },
            Argument::Flag {
                id: "json",
                help: "Print a JSON object for each store, one per line, with all its damaged documents",
            },
            arguments::tantivy(),
            Argument::ShortFlag {
                id: "quiet",
                short: 'q',
                help: "Print broken stores only, and show no progress",
            },
        ],
    )
}

// Prints what is found in a store, and returns whether it is sound.
fn verify<S: SystemFiles>(
    rt: &HostRuntime,
    system: &S,
    verifying: &Verifying,
    store: StorePath<'_>,
) -> Result<bool, FailureCause> {
    let found = verifying.look_at(rt, system, store)?;
    let is_sound = found.is_sound();
    if !(is_sound && verifying.is_quiet) {
        found.print(rt, store.path, verifying.form)?;
    }
    Ok(is_sound)
}

// Prints what is found in each store, and returns what that is.
fn verify_all<S: SystemFiles>(
    rt: &HostRuntime,
    system: &S,
    verifying: &Verifying,
    paths: &[&str],
) -> Result<Findings, Failure> {
    let mut findings = Findings::new();
    for path in paths {
        let store = StorePath {
            path,
            is_tantivy: verifying.is_tantivy,
        };
        findings.add_outcome(rt, path, verify(rt, system, verifying, store))?;
    }
    Ok(findings)
}

// How the words say that stores are reported.
fn form_of(rt: &HostRuntime, matches: &ArgMatches<'_>) -> Result<ReportForm, FailureCause> {
    if matches.get_flag("json") {
        return Ok(ReportForm::Json);
    }
    if !matches.get_flag("list") {
        return Ok(ReportForm::Lines);
    }
    match matches.get_strs("FILE").unwrap_or(&[]).get(1) {
        Some(path) => Err(wrong_words(rt.alloc(), "'--list' takes one store", path)),
        None => Ok(ReportForm::List),
    }
}

/// Prints the line of each store. It goes on after one that can't be read, and fails at the end.
pub fn run<S: SystemFiles>(
    rt: &HostRuntime,
    system: &S,
    matches: &ArgMatches<'_>,
) -> Result<(), Failure> {
    let verifying = Verifying {
        form: form_of(rt, matches)?,
        is_tantivy: matches.get_flag("tantivy"),
        is_quiet: matches.get_flag("quiet"),
    };
    let paths = matches.get_strs("FILE").unwrap_or(&[]);
    let findings = verify_all(rt, system, &verifying, paths)?;
    if findings.has_read() && verifying.form.has_note() && !verifying.is_quiet {
        let _ = eprintln!(rt; "{BLIND_SPOT}");
    }
    findings.result()
}

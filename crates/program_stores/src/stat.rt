//! `stat`: prints counts and sizes of stores.

use crate::stat_output::{StatForm, print_heads, print_lines, print_object, print_row};
use clap::{ArgMatches, Command};
use program_base::arguments;
use program_base::command_words::{Argument, command_of};
use program_base::failure::{Failure, FailureCause};
use program_base::findings::Findings;
use program_base::store_file::StorePath;
use std::alloc::{AllocError, Global};
use store_commands::store_numbers::{StoreNumbers, numbers_in};
use store_files::SystemFiles;

const EXAMPLE: &str = "\
For several stores the numbers are in a table, with a line for each store.

Example:
  zevkhadun stat --json words.store     documents, blocks, layers and bytes";

/// The words of `stat`.
pub fn command<'a>(alloc: Global) -> Result<Command<'a>, AllocError> {
    command_of(
        alloc,
        "stat",
        "Print counts and sizes of stores",
        EXAMPLE,
        &[
            Argument::Words {
                id: "FILE",
                help: "The stores",
            },
            Argument::Flag {
                id: "json",
                help: "Print a JSON object for each store, one per line",
            },
            arguments::tantivy(),
        ],
    )
}

// The numbers of a store.
fn numbers_at<S: SystemFiles>(
    alloc: Global,
    system: &S,
    store: StorePath<'_>,
) -> Result<StoreNumbers, FailureCause> {
    let reader = store.reader(alloc, system)?;
    Ok(numbers_in(alloc, &*reader)?)
}

// Prints the numbers of a store, in lines, in a line of a table, or as JSON.
fn print_store<S: SystemFiles>(
    rt: &HostRuntime,
    system: &S,
    store: StorePath<'_>,
    form: StatForm,
) -> Result<(), FailureCause> {
    let numbers = numbers_at(rt.alloc(), system, store)?;
    match form {
        StatForm::Lines => print_lines(rt, store.path, &numbers),
        StatForm::Table => print_row(rt, store.path, &numbers),
        StatForm::Json => print_object(rt, store.path, &numbers),
    }
}

/// Prints the numbers of each store. It goes on after one that can't be read, and fails at the end.
pub fn run<S: SystemFiles>(
    rt: &HostRuntime,
    system: &S,
    matches: &ArgMatches<'_>,
) -> Result<(), Failure> {
    let paths = matches.get_strs("FILE").unwrap_or(&[]);
    let is_tantivy = matches.get_flag("tantivy");
    let form = match matches.get_flag("json") {
        true => StatForm::Json,
        false if paths.len() > 1 => StatForm::Table,
        false => StatForm::Lines,
    };
    if form == StatForm::Table {
        print_heads(rt)?;
    }
    let mut findings = Findings::new();
    for path in paths {
        let store = StorePath { path, is_tantivy };
        let printed = print_store(rt, system, store, form);
        findings.add_outcome(rt, path, printed.map(|()| true))?;
    }
    findings.result()
}

//! The files whose documents are packed.

use crate::command_words::Argument;
use crate::failure::Failure;
use crate::progress::Things;
use crate::word_files::{add_lines, text_in};
use clap::ArgMatches;
use document_framing::InputFault;
use document_framing::input_files::STANDARD_INPUT;
use std::alloc::{AllocError, Global};
use std::fs;
use std::io::IsTerminal;

/// The name of the argument for files.
pub const INPUT: &str = "INPUT";

/// The argument for files.
pub fn inputs<'a>() -> Argument<'a> {
    Argument::OptionalWords {
        id: INPUT,
        help: "Input files; '-' or no file means standard input",
    }
}

/// The option for a list of files.
pub fn files_from<'a>() -> Argument<'a> {
    Argument::Option {
        id: "files-from",
        value: "LIST",
        help: "Take further input files from the lines of LIST, after the others; '-' is standard input",
    }
}

/// That the names of the list end with bytes 0.
pub fn null<'a>() -> Argument<'a> {
    Argument::ShortFlag {
        id: "null",
        short: '0',
        help: "The names in LIST end with a byte 0 instead of a line end, as 'find -print0' writes them",
    }
}

// Adds the names that end with bytes 0 and are not empty.
fn add_ended<'t>(names: &mut Vec<&'t str>, list: &'t str) -> Result<(), AllocError> {
    for name in list.split('\0') {
        if !name.is_empty() {
            names.push(name)?;
        }
    }
    Ok(())
}

/// The list of further input files, if the words name one.
#[derive(Drop)]
pub struct InputList {
    text: Option<String>,
    is_null_ended: bool,
}

impl InputList {
    /// Reads it.
    pub fn read(rt: &HostRuntime, matches: &ArgMatches<'_>) -> Result<InputList, Failure> {
        let text = match matches.get_str("files-from") {
            Some(path) => Some(text_in(rt, path)?),
            None => None,
        };
        let is_null_ended = matches.get_flag("null");
        Ok(InputList {
            text,
            is_null_ended,
        })
    }

    /// The names of the inputs: those that words name, and then those of the list. Without words and without a list,
    /// that of the standard input.
    pub fn paths<'t>(
        &'t self,
        alloc: Global,
        words: &[&'t str],
    ) -> Result<Vec<&'t str>, AllocError> {
        let mut paths = Vec::from_slice(alloc, words)?;
        match &self.text {
            Some(list) if self.is_null_ended => add_ended(&mut paths, list.as_str())?,
            Some(list) => add_lines(&mut paths, list.as_str())?,
            None if paths.is_empty() => paths.push(STANDARD_INPUT)?,
            None => {}
        }
        Ok(paths)
    }
}

/// The failure of an input, which is one of these paths.
pub fn input_failure(alloc: Global, paths: &[&str], error: InputFault) -> Failure {
    let InputFault { place, fault } = error;
    let name = match paths.get(place) {
        Some(path) if *path != STANDARD_INPUT => *path,
        _ => "standard input",
    };
    Failure::at_file(alloc, name, fault.into())
}

/// Says that documents or records are read from the terminal, if the standard input is among these inputs and is one.
pub fn note_terminal(rt: &HostRuntime, paths: &[&str], things: Things) {
    if paths.contains(&STANDARD_INPUT) && rt.stdin().is_terminal() {
        let _ = eprintln!(rt; "reading {things} from the terminal; end with Ctrl-D");
    }
}

/// How many bytes these files have together, if all are plain files.
pub fn total_bytes(rt: &HostRuntime, paths: &[&str]) -> Option<u64> {
    let mut total = 0u64;
    for path in paths {
        if *path == STANDARD_INPUT {
            return None;
        }
        let found = fs::metadata(rt, *path).ok()?;
        if !found.is_file() {
            return None;
        }
        total = total.saturating_add(found.len());
    }
    Some(total)
}

//! `log stat`: prints counts and sizes of logs.

use crate::FOLDER;
use crate::logs::ReadLogs;
use crate::places::{check_parts, file_in, segment_numbers, tail_bytes};
use clap::{ArgMatches, Command};
use program_base::command_words::{Argument, command_of};
use program_base::failure::{Failure, FailureCause};
use program_base::findings::Findings;
use program_base::named_numbers::print_named;
use segmented_log::segment_file;
use std::alloc::{AllocError, Global};
use std::fs;
use store_files::SystemFiles;

const EXAMPLE: &str = "\
Example:
  zevkhadun log stat --json events     records, their numbers, segments and bytes";

/// The words of `log stat`.
pub fn command<'a>(alloc: Global) -> Result<Command<'a>, AllocError> {
    command_of(
        alloc,
        "stat",
        "Print counts and sizes of logs",
        EXAMPLE,
        &[
            Argument::Words {
                id: FOLDER,
                help: "The logs' folders",
            },
            Argument::Flag {
                id: "json",
                help: "Print a JSON object for each log, one per line",
            },
        ],
    )
}

// How many bytes the segment of this number has.
fn bytes_of_segment(rt: &HostRuntime, path: &str, first: u64) -> Result<u64, FailureCause> {
    let name = segment_file(rt.alloc(), first)?;
    let file = file_in(rt.alloc(), path, name.as_str())?;
    Ok(fs::metadata(rt, file.as_str())?.len())
}

// How many segments a log has, and how many bytes they have together.
fn segments_of(rt: &HostRuntime, path: &str) -> Result<(u64, u64), FailureCause> {
    let segments = segment_numbers(rt, path)?;
    let mut bytes = 0u64;
    for first in &segments {
        bytes = bytes.saturating_add(bytes_of_segment(rt, path, *first)?);
    }
    Ok((segments.len() as u64, bytes))
}

// Prints the numbers of a log, in lines or as JSON: those of its records, from `first` to before `next`, and others.
fn print_numbers(
    rt: &HostRuntime,
    path: &str,
    first: u64,
    next: u64,
    is_json: bool,
) -> Result<(), FailureCause> {
    let (segments, segment_bytes) = segments_of(rt, path)?;
    let tail_bytes = tail_bytes(rt, path)?.unwrap_or(0);
    let numbers = [
        ("records", "records", next.saturating_sub(first)),
        ("first number", "first", first),
        ("next number", "next", next),
        ("segments", "segments", segments),
        ("segment bytes", "segment_bytes", segment_bytes),
        ("tail bytes", "tail_bytes", tail_bytes),
    ];
    print_named(rt, "folder", path, &numbers, is_json)
}

// Prints the numbers of a log, and fails where its tail is damaged.
fn print<S: SystemFiles>(
    logs: &ReadLogs<'_, S>,
    path: &str,
    is_json: bool,
) -> Result<(), FailureCause> {
    check_parts(logs.rt, path)?;
    let (first, next, end) = logs.bounds(path)?;
    print_numbers(logs.rt, path, first, next, is_json)?;
    end
}

/// Prints the numbers of each log. It goes on after one that can't be read, and fails at the end.
pub fn run<S: SystemFiles>(
    logs: &ReadLogs<'_, S>,
    matches: &ArgMatches<'_>,
) -> Result<(), Failure> {
    let is_json = matches.get_flag("json");
    let mut findings = Findings::new();
    for path in matches.get_strs(FOLDER).unwrap_or(&[]) {
        findings.add_outcome(logs.rt, path, print(logs, path, is_json).map(|()| true))?;
    }
    findings.result()
}

//! `log verify`: reads logs whole, and reports what is broken.

use crate::FOLDER;
use crate::logs::ReadLogs;
use crate::places::{check_parts, file_in};
use clap::{ArgMatches, Command};
use log_tail::TailView;
use program_base::command_words::{Argument, command_of};
use program_base::failure::{Failure, FailureCause, to_output};
use program_base::findings::Findings;
use program_base::store_check::{BLIND_SPOT, Verifying};
use program_base::store_file::StorePath;
use program_base::verify_output::ReportForm;
use segmented_log::{TAIL, segment_file};
use std::alloc::{AllocError, Global};
use std::fs;
use store_files::{SystemFiles, is_left_synced};

const EXAMPLE: &str = "\
Checks each segment as a store, the batches of the tail by their sums, and that no number is missing between them. Bytes
at the end of the tail that are no whole batch are reported: as torn if they may be a batch that was not finished, which
the next writer cuts off, and as damaged if another batch follows or the last writer ended well. The exit status is
then 1, as for a broken log.

Example:
  zevkhadun log verify events";

/// The words of `log verify`.
pub fn command<'a>(alloc: Global) -> Result<Command<'a>, AllocError> {
    command_of(
        alloc,
        "verify",
        "Check logs completely, and report what is broken",
        EXAMPLE,
        &[
            Argument::Words {
                id: FOLDER,
                help: "The logs' folders",
            },
            Argument::ShortFlag {
                id: "quiet",
                short: 'q',
                help: "Print what is broken only, and show no progress",
            },
        ],
    )
}

// Whether the segment of this number is sound. Another one is reported.
fn check_segment<S: SystemFiles>(
    logs: &ReadLogs<'_, S>,
    folder: &str,
    first: u64,
    is_quiet: bool,
) -> Result<bool, FailureCause> {
    let name = segment_file(logs.rt.alloc(), first)?;
    let path = file_in(logs.rt.alloc(), folder, name.as_str())?;
    drop(name);
    let store = StorePath {
        path: path.as_str(),
        is_tantivy: false,
    };
    let verifying = Verifying {
        form: ReportForm::Lines,
        is_tantivy: false,
        is_quiet,
    };
    let found = verifying.look_at(logs.rt, logs.system(), store)?;
    if !found.is_sound() {
        found.print(logs.rt, store.path, ReportForm::Lines)?;
    }
    Ok(found.is_sound())
}

// Whether all segments of a log are sound.
fn check_segments<S: SystemFiles>(
    logs: &ReadLogs<'_, S>,
    folder: &str,
    segments: &[u64],
    is_quiet: bool,
) -> Result<bool, FailureCause> {
    let mut are_sound = true;
    for first in segments {
        are_sound &= check_segment(logs, folder, *first, is_quiet)?;
    }
    Ok(are_sound)
}

// What is wrong with a tail after whose records these bytes, from that one on, are no whole batch. They were written
// whole, or may be a batch that was not finished.
fn torn_text(
    alloc: Global,
    records: usize,
    end: usize,
    rest: usize,
    is_damaged: bool,
) -> Result<String, AllocError> {
    let kind = if is_damaged { "damaged" } else { "torn" };
    let are_whole = if records == 1 {
        "record is whole"
    } else {
        "records are whole"
    };
    format!(in alloc;
        "{kind}: {records} {are_whole}; the {rest} bytes from byte {end} on are no whole batch"
    )
}

// What is wrong with these bytes of a tail, if something is. They may be known to have been on the disk.
fn fault_in(alloc: Global, bytes: &[u8], is_synced: bool) -> Result<Option<String>, AllocError> {
    let text = match TailView::new(alloc, bytes)? {
        None => "broken: not a tail: its first bytes are others",
        Some(view) => {
            let end = view.whole_len();
            let rest = bytes.len().saturating_sub(end);
            let is_damaged = view.is_damaged();
            if rest > 0 {
                return Ok(Some(torn_text(alloc, view.len(), end, rest, is_synced || is_damaged)?));
            }
            if !is_damaged {
                return Ok(None);
            }
            "damaged: the number of its first record is not the one that its first batch names"
        }
    };
    Ok(Some(String::from_str(alloc, text)?))
}

// Whether the tail of a log is whole to its end. What is wrong is reported.
fn check_tail<S: SystemFiles>(logs: &ReadLogs<'_, S>, folder: &str) -> Result<bool, FailureCause> {
    let (rt, alloc) = (logs.rt, logs.rt.alloc());
    let path = file_in(alloc, folder, TAIL)?;
    let bytes = fs::read(rt, path.as_str())?;
    let is_synced = is_left_synced(logs.system(), alloc, folder, TAIL).unwrap_or(false);
    let fault = fault_in(alloc, &bytes, is_synced)?;
    drop(bytes);
    match fault {
        Some(fault) => {
            to_output(println!(rt; "{path}: {fault}"))?;
            Ok(false)
        }
        None => Ok(true),
    }
}

// That the numbers of a log's parts are in line is shown by opening it.
fn print_whole<S: SystemFiles>(
    logs: &ReadLogs<'_, S>,
    path: &str,
    segments: usize,
    is_quiet: bool,
) -> Result<(), FailureCause> {
    let (first, next, _end) = logs.bounds(path)?;
    if is_quiet {
        return Ok(());
    }
    let records = next.saturating_sub(first);
    let record = if records == 1 { "record" } else { "records" };
    let segment = if segments == 1 { "segment" } else { "segments" };
    to_output(println!(logs.rt;
        "{path}: sound: {records} {record} in {segments} {segment} and the tail"
    ))
}

// Prints what is found in a log, and returns whether it is sound.
fn verify<S: SystemFiles>(
    logs: &ReadLogs<'_, S>,
    path: &str,
    is_quiet: bool,
) -> Result<bool, FailureCause> {
    let segments = check_parts(logs.rt, path)?;
    let are_sound = check_segments(logs, path, &segments, is_quiet)?;
    let is_sound = check_tail(logs, path)? && are_sound;
    if is_sound {
        print_whole(logs, path, segments.len(), is_quiet)?;
    }
    Ok(is_sound)
}

/// Prints what is found in each log. It goes on after one that can't be read, and fails at the end.
pub fn run<S: SystemFiles>(
    logs: &ReadLogs<'_, S>,
    matches: &ArgMatches<'_>,
) -> Result<(), Failure> {
    let is_quiet = matches.get_flag("quiet");
    let mut findings = Findings::new();
    for path in matches.get_strs(FOLDER).unwrap_or(&[]) {
        findings.add_outcome(logs.rt, path, verify(logs, path, is_quiet))?;
    }
    if !is_quiet {
        let _ = eprintln!(logs.rt; "{BLIND_SPOT}");
    }
    findings.result()
}

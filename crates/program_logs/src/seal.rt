//! `log seal`: puts the tail's records into a segment.

use crate::log_refusal::refused;
use crate::logs::{Logs, close};
use crate::places::segment_numbers;
use crate::record_span::RecordSpan;
use crate::{folder, is_seen};
use clap::{ArgMatches, Command};
use program_base::arguments;
use program_base::command_words::command_of;
use program_base::failure::FailureCause;
use segmented_log::segment_file;
use std::alloc::{AllocError, Global};
use store_files::SystemFiles;

const EXAMPLE: &str = "\
'append' seals a tail by itself once it is large. The records and their numbers stay. Other commands read the segment,
which is an ordinary store: its name is the number of its first record, with 20 digits, and '.store'.

Example:
  zevkhadun log seal events";

/// The words of `log seal`.
pub fn command<'a>(alloc: Global) -> Result<Command<'a>, AllocError> {
    command_of(
        alloc,
        "seal",
        "Put the records of the tail into a segment, which is a store",
        EXAMPLE,
        &[folder(), arguments::quiet()],
    )
}

// Says which records a seal put into the last segment, unless there were as many segments before.
fn tell(rt: &HostRuntime, path: &str, before: usize, end: u64) -> Result<(), FailureCause> {
    let segments = segment_numbers(rt, path)?;
    let Some(first) = segments.last().filter(|_| segments.len() > before) else {
        eprintln!(rt; "sealed 0 records: the tail has none that is not sealed")?;
        return Ok(());
    };
    let sealed = RecordSpan {
        from: *first,
        to: end,
    };
    let name = segment_file(rt.alloc(), *first)?;
    eprintln!(rt; "sealed {sealed}, into {name}")?;
    Ok(())
}

/// Seals the log at a path, and says what it did if that is seen.
pub fn run<S: SystemFiles>(
    logs: Logs<'_, S>,
    path: &str,
    matches: &ArgMatches<'_>,
) -> Result<(), FailureCause> {
    let rt = logs.rt;
    let mut log = logs.open(path)?;
    let before = segment_numbers(rt, path)?.len();
    let sealed = log.seal();
    let end = log.end();
    close(rt, path, log);
    sealed.map_err(refused)?;
    match is_seen(rt, matches) {
        true => tell(rt, path, before, end),
        false => Ok(()),
    }
}

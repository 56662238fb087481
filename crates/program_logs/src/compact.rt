//! `log compact`: joins segments.

use crate::log_refusal::refused;
use crate::logs::{Logs, close};
use crate::places::segment_numbers;
use crate::{folder, is_seen};
use clap::{ArgMatches, Command};
use program_base::arguments::{self, size_of};
use program_base::command_words::{Argument, command_of};
use program_base::failure::FailureCause;
use std::alloc::{AllocError, Global};
use store_files::SystemFiles;

const EXAMPLE: &str = "\
The records and their numbers stay. A joined segment is the store that 'merge' writes of its segments, and takes the
name of the first one. It is in memory while it is written.

Example:
  zevkhadun log compact --size 1G events";

/// The words of `log compact`.
pub fn command<'a>(alloc: Global) -> Result<Command<'a>, AllocError> {
    command_of(
        alloc,
        "compact",
        "Join neighbouring segments",
        EXAMPLE,
        &[
            folder(),
            Argument::OptionOr {
                id: "size",
                value: "BYTES",
                default: "256M",
                help: "Join neighbouring segments while their data has at most BYTES; suffixes K, M, G",
            },
            arguments::quiet(),
        ],
    )
}

/// Joins segments of the log at a path, and says what it did if that is seen.
pub fn run<S: SystemFiles>(
    logs: Logs<'_, S>,
    path: &str,
    matches: &ArgMatches<'_>,
) -> Result<(), FailureCause> {
    let rt = logs.rt;
    // There is a size: it has a default.
    let size = size_of(rt.alloc(), matches, "size")?.unwrap_or(0);
    let mut log = logs.open(path)?;
    let before = segment_numbers(rt, path)?.len();
    let compacted = log.compact(size as u64);
    close(rt, path, log);
    compacted.map_err(refused)?;
    let after = segment_numbers(rt, path)?.len();
    if is_seen(rt, matches) {
        let none = if before == after {
            "; none were joined"
        } else {
            ""
        };
        eprintln!(rt; "segments: {before} before, {after} now{none}")?;
    }
    Ok(())
}

//! `log drop`: removes the oldest records.

use crate::log_refusal::refused;
use crate::logs::Logs;
use crate::record_span::RecordSpan;
use crate::{folder, is_seen};
use clap::{ArgMatches, Command};
use program_base::arguments;
use program_base::command_words::{Argument, command_of};
use program_base::failure::FailureCause;
use segmented_log::LogReader;
use std::alloc::{AllocError, Global};
use store_files::{DiskFolder, SystemFiles};

const EXAMPLE: &str = "\
A segment is removed where all its records have smaller numbers, the oldest first. So records before NUMBER may stay:
those of the segment that has it, and those of the tail, which 'seal' puts into a segment. Numbers stay. The tail is
neither repaired nor written, so no room is needed; the segment before a torn or damaged one stays.

Example:
  zevkhadun log drop events --before 1000000";

/// The words of `log drop`.
pub fn command<'a>(alloc: Global) -> Result<Command<'a>, AllocError> {
    command_of(
        alloc,
        "drop",
        "Remove the segments before a record",
        EXAMPLE,
        &[
            folder(),
            Argument::RequiredNumber {
                id: "before",
                value: "NUMBER",
                help: "Remove segments whose records all have smaller numbers",
            },
            arguments::quiet(),
        ],
    )
}

// What is said where records that might go stay.
const STAYING: &str = "a segment goes whole, and records of the tail go once they are sealed";

// How many records before a number the log of a folder has; none where it can't be read.
fn count_before<S: SystemFiles>(alloc: Global, folder: &DiskFolder<S>, number: u64) -> u64 {
    match LogReader::open(alloc, folder) {
        Ok(log) => number.min(log.end()).saturating_sub(log.first()),
        Err(_) => 0,
    }
}

// Says which records went, and how many of those before a number stay.
fn tell(
    rt: &HostRuntime,
    dropped: RecordSpan,
    number: u64,
    staying: u64,
) -> Result<(), FailureCause> {
    match staying {
        0 => eprintln!(rt; "dropped {dropped}")?,
        _ => eprintln!(rt;
            "dropped {dropped}; of those before {number} stay {staying}: {STAYING}"
        )?,
    }
    Ok(())
}

/// Removes segments of the log at a path, and says what it did if that is seen. The log is not opened: its tail may be
/// torn or damaged, and the device full.
pub fn run<S: SystemFiles>(
    logs: Logs<'_, S>,
    path: &str,
    matches: &ArgMatches<'_>,
) -> Result<(), FailureCause> {
    let rt = logs.rt;
    // There is a number: clap requires one.
    let number = matches.get_one::<u64>("before").unwrap_or(0);
    let is_seen = is_seen(rt, matches);
    let mut folder = logs.folder(path)?;
    let dropped = segmented_log::drop_segments(rt.alloc(), &mut *folder, number);
    let staying = match &dropped {
        Ok(_) if is_seen => count_before(rt.alloc(), &*folder, number),
        _ => 0,
    };
    drop(folder);
    match dropped {
        Ok(gone) if is_seen => {
            let dropped = RecordSpan {
                from: gone.start,
                to: gone.end,
            };
            tell(rt, dropped, number, staying)
        }
        Ok(_) => Ok(()),
        Err(error) => Err(refused(error)),
    }
}

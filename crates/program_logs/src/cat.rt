//! `log cat`: prints all records in order.

ghost use Rattle.std.specs.Prelude.{◌≡◌, ◌+◌, ◌-◌, ℕ, List, IfOk, IsTrue, OnOk, length, max};
ghost use Rattle.framed_logs.specs.Reading.{PrintsFrom};
ghost use Rattle.segmented_log.specs.Log.{IsLog};
ghost use Rattle.store_files.specs.Disk.{replay, seen};
ghost use Rattle.store_format.specs.Block.{Slot};

use crate::folder;
use crate::log_refusal::unprinted;
use crate::logs::{ReadLogs, check_end};
use crate::places::tail_mark;
use clap::{ArgMatches, Command};
use document_framing::DocumentForm;
use framed_logs::{ReadLog, print_records};
use program_base::arguments;
use program_base::command_words::{Argument, command_of};
use program_base::document_output::{self, DocumentOutput, form_of, standard_output};
use program_base::failure::{FailureCause, to_output};
use std::alloc::{AllocError, Global};
use std::io::Write;
use std::thread;
use std::time::Duration;
use store_files::SystemFiles;
use store_folder::ReadableFolder;

// How many milliseconds a follower sleeps before it looks for new records.
const PAUSE: u64 = 100;

const EXAMPLE: &str = "\
It takes no lock, so a writer may go on. It shows the log as it was when it was opened. With '--follow' it then looks
for new records ten times a second, until it is interrupted, or has a record for an output whose reader is gone.

Examples:
  zevkhadun log cat events --from 1000     the records from number 1000 on
  zevkhadun log cat events --last 10 --follow     the last ten records, and then those that come";

/// The words of `log cat`.
pub fn command<'a>(alloc: Global) -> Result<Command<'a>, AllocError> {
    command_of(
        alloc,
        "cat",
        "Print all records in order",
        EXAMPLE,
        &[
            folder(),
            Argument::NumberOr {
                id: "from",
                value: "NUMBER",
                default: "0",
                help: "Begin at the record of this number, or at the first one if that is later",
            },
            Argument::Number {
                id: "last",
                value: "COUNT",
                help: "Of these records print the last COUNT ones only",
            },
            Argument::ShortFlag {
                id: "follow",
                short: 'f',
                help: "Go on with the records that are appended from then on",
            },
            document_output::number(),
            document_output::json(),
            arguments::framing(),
        ],
    )
}

// Prints the records of an opened log from a number on, and returns the number after the last one.
fn print_from<F: ReadableFolder, W: Write>(
    alloc: Global,
    read: &mut ReadLog<F>,
    form: DocumentForm,
    from: u64,
    output: &mut W,
) -> Result<u64, FailureCause>
    ensures printed { IsTrue F.honest → (first : ℕ) (all : List Slot) → IsLog first all (F.seen read.old.folder)
        → OnOk result (PrintsFrom form first all from (W.contents output.old) (W.contents output.new)) }
    ensures next { IsTrue F.honest → (first : ℕ) (all : List Slot) → IsLog first all (F.seen read.old.folder)
        → IfOk result (λ next. next ≡ max from (first + length all)) }
{
    let (first, end) = (read.first(), read.end());
    print_records(alloc, read, form, from.max(first), end, output).map_err(unprinted)?;
    to_output(output.flush())?;
    check_end(read)?;
    Ok(from.max(end))
}

/// Prints the last records of the log at a path, this many at most, from a number on, and returns the number after
/// them. An Ok says that the output has exactly these more.
pub fn print<S: SystemFiles, W: Write>(
    logs: &ReadLogs<'_, S>,
    path: &str,
    form: DocumentForm,
    from: u64,
    most: u64,
    output: &mut W,
) -> Result<u64, FailureCause>
    ensures printed { IsTrue S.honest → (first : ℕ) (all : List Slot)
        → IsLog first all (seen (replay (S.changes logs.now path.now) (S.start path.now)))
        → OnOk result (PrintsFrom form first all (max from (first + length all - most))
        (W.contents output.old) (W.contents output.new)) }
    ensures next { IsTrue S.honest → (first : ℕ) (all : List Slot)
        → IsLog first all (seen (replay (S.changes logs.now path.now) (S.start path.now)))
        → IfOk result (λ next. next ≡ max (max from (first + length all - most)) (first + length all)) }
{
    let mut read = logs.open_to_read(path)?;
    let read = &mut *read;
    let from = from.max(read.end().saturating_sub(most));
    print_from(logs.rt.alloc(), read, form, from, output)
}

// Prints the records from a number on as they come, until a call fails.
fn follow<S: SystemFiles>(
    logs: &ReadLogs<'_, S>,
    path: &str,
    form: DocumentForm,
    from: u64,
    output: &mut DocumentOutput<'_>,
) -> Result<(), FailureCause> {
    let (mut from, mut seen) = (from, None);
    for _ in 0..u64::MAX {
        let found = tail_mark(logs.rt, path);
        if found.is_none() || found != seen {
            from = print(logs, path, form, from, u64::MAX, output)?;
            seen = found;
        }
        thread::sleep(logs.rt, Duration::from_millis(PAUSE));
    }
    Ok(())
}

/// Prints the records of the log at a path.
pub fn run<S: SystemFiles>(
    logs: &ReadLogs<'_, S>,
    path: &str,
    matches: &ArgMatches<'_>,
) -> Result<(), FailureCause> {
    let form = form_of(logs.rt.alloc(), matches)?;
    let from = matches.get_one::<u64>("from").unwrap_or(0);
    let most = matches.get_one::<u64>("last").unwrap_or(u64::MAX);
    let mut output = standard_output(logs.rt)?;
    let end = print(logs, path, form, from, most, &mut output)?;
    match matches.get_flag("follow") {
        true => follow(logs, path, form, end, &mut output),
        false => Ok(()),
    }
}

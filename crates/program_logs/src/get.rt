//! `log get`: prints records by their numbers.

ghost use Rattle.std.specs.Prelude.{◌≡◌, ℕ, List, IsTrue, OnOk};
ghost use Rattle.program_base.specs.PrintedRanges.{PrintsNamed};
ghost use Rattle.program_logs.specs.Given.{IsRangeShown, PrintsRange};
ghost use Rattle.segmented_log.specs.Log.{IsLog};
ghost use Rattle.store_files.specs.Disk.{replay, seen};
ghost use Rattle.store_format.specs.Block.{Slot};

use crate::folder;
use crate::log_refusal::{unnamed, unprinted};
use crate::logs::{ReadLogs, check_end};
use clap::{ArgMatches, Command};
use document_framing::DocumentForm;
use framed_logs::{ReadLog, print_records};
use program_base::arguments;
use program_base::command_words::{Argument, command_of};
use program_base::document_output::{self, DocumentOutput, form_of, standard_output};
use program_base::failure::FailureCause;
use program_base::listed_numbers::is_listed;
use program_base::numbered::{Numbered, print_listed, print_ranges};
use std::alloc::{AllocError, Global};
use std::io::Write;
use store_commands::{NumberRange, ranges_of};
use store_files::SystemFiles;
use store_folder::ReadableFolder;

const EXAMPLE: &str = "\
It takes no lock, so a writer may go on. It shows the log as it was when it was opened.

Examples:
  zevkhadun log get events 7 3..9 100..     records 7, 3 to 8, and 100 to the last
  sort -n numbers.txt | zevkhadun log get events -     the records whose numbers are on the lines of numbers.txt";

/// The words of `log get`.
pub fn command<'a>(alloc: Global) -> Result<Command<'a>, AllocError> {
    command_of(
        alloc,
        "get",
        "Print records by their numbers",
        EXAMPLE,
        &[
            folder(),
            Argument::Words {
                id: "NUMBER",
                help: "Records to print: numbers, or ranges that exclude their end: 3..9, 5.. or ..9; \
                       '-' alone reads them from standard input, one on each line",
            },
            document_output::number(),
            document_output::json(),
            arguments::framing(),
        ],
    )
}

// Prints the records of a range. Where the folder is honest, an Ok says that exactly these of its log came.
fn print_range_of<F: ReadableFolder, W: Write>(
    alloc: Global,
    read: &mut ReadLog<F>,
    form: DocumentForm,
    range: NumberRange,
    output: &mut W,
) -> Result<(), FailureCause>
    ensures printed { IsTrue F.honest → (first : ℕ) (all : List Slot) → IsLog first all (F.seen read.old.folder)
        → OnOk result (PrintsRange form first all range (W.contents output.old) (W.contents output.new)) }
    ensures folder { read.new.folder ≡ read.old.folder }
{
    let numbers = range.among(read.first(), read.end()).map_err(unnamed)?;
    print_records(alloc, read, form, numbers.start, numbers.end, output).map_err(unprinted)?;
    Ok(())
}

// An opened log, whose records are printed by their numbers.
#[derive(Drop)]
struct NumberedLog<F: ReadableFolder> {
    read: Box<ReadLog<F>>,
}

impl<F: ReadableFolder> Numbered for NumberedLog<F> {
    ghost use Rattle.std.specs.Prelude.{◌≡◌, ℕ, List, IsTrue, refl};
    ghost use Rattle.program_base.specs.PrintedRanges.{PrintsEach};
    ghost use Rattle.program_base.proofs.PrintedLemmas.{prints_none};
    ghost use Rattle.program_logs.specs.Given.{IsRangeShown, given_more};
    ghost use Rattle.segmented_log.specs.Log.{IsLog};
    ghost use Rattle.store_format.specs.Block.{Slot};

    ghost prints = { λ form ranges old new before after. (new.read.value.folder ≡ old.read.value.folder)
        × (IsTrue F.honest → (first : ℕ) (all : List Slot) → IsLog first all (F.seen old.read.value.folder)
        → PrintsEach (IsRangeShown form first all) ranges before after) };

    fn print<W: Write>(
        &mut self,
        alloc: Global,
        form: DocumentForm,
        range: NumberRange,
        output: &mut W,
    ) -> Result<(), FailureCause> {
        print_range_of(alloc, &mut self.read, form, range, output)
    }

    ghost prints_none = { λ form this old new kept. (
      refl,
      λ honest first all is. prints_none (IsRangeShown form first all) old new kept,
    ) };

    ghost prints_more = { λ form first next old middle new before between after p q.
        given_more F.honest F.seen form old.read.value.folder middle.read.value.folder
        new.read.value.folder first next
        before between after p q };
}

/// Prints the records that words name of the log at a path. An Ok says that the output has exactly these more: those of
/// the range that each word names, in the order of the words.
pub fn print_named<S: SystemFiles, W: Write>(
    logs: &ReadLogs<'_, S>,
    path: &str,
    form: DocumentForm,
    words: &[&str],
    output: &mut W,
) -> Result<(), FailureCause>
    ensures printed { IsTrue S.honest → (first : ℕ) (all : List Slot)
        → IsLog first all (seen (replay (S.changes logs.now path.now) (S.start path.now)))
        → OnOk result (PrintsNamed (IsRangeShown form first all) words.now
        (W.contents output.old) (W.contents output.new)) }
{
    let alloc = logs.rt.alloc();
    let ranges = ranges_of(alloc, words)?;
    let read = logs.open_to_read(path)?;
    let mut log = NumberedLog { read };
    print_ranges(alloc, &mut log, form, &ranges, output)?;
    check_end(&log.read)
}

// Prints the records of the log at a path whose numbers are in the standard input.
fn print_input<S: SystemFiles>(
    logs: &ReadLogs<'_, S>,
    path: &str,
    form: DocumentForm,
    output: &mut DocumentOutput<'_>,
) -> Result<(), FailureCause> {
    let read = logs.open_to_read(path)?;
    let mut log = NumberedLog { read };
    print_listed(logs.rt.alloc(), &mut log, form, logs.rt.reader(), output)?;
    check_end(&log.read)
}

/// Prints the records that words name, or those whose numbers are in the standard input.
pub fn run<S: SystemFiles>(
    logs: &ReadLogs<'_, S>,
    path: &str,
    matches: &ArgMatches<'_>,
) -> Result<(), FailureCause> {
    let form = form_of(logs.rt.alloc(), matches)?;
    let words = matches.get_strs("NUMBER").unwrap_or(&[]);
    let mut output = standard_output(logs.rt)?;
    match is_listed(words) {
        true => print_input(logs, path, form, &mut output),
        false => print_named(logs, path, form, words, &mut output),
    }
}

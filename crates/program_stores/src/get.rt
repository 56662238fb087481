//! `get`: prints documents by their numbers.

ghost use Rattle.std.specs.Prelude.{◌≡◌, ℕ, List, map, IfOk, IsTrue, OnOk, Some};
ghost use Rattle.program_base.specs.PrintedRanges.{PrintsNamed};
ghost use Rattle.program_base.specs.StoresOnDisk.{IsReaderOf};
ghost use Rattle.program_stores.specs.Given.{IsRangeShown, PrintsRange};
ghost use Rattle.store_files.specs.Disk.{replay, seen};
ghost use Rattle.store_files.specs.Paths.{IsPath};
ghost use Rattle.store_reader.specs.Reading.{IsSameStore, Reading};

use clap::{ArgMatches, Command};
use docstore::DocId;
use document_framing::DocumentForm;
use framed_stores::print_range;
use program_base::arguments;
use program_base::command_words::{Argument, command_of};
use program_base::document_output::{self, form_of, standard_output};
use program_base::failure::{Failure, FailureCause, with_file};
use program_base::listed_numbers::is_listed;
use program_base::numbered::{Numbered, print_listed, print_ranges};
use program_base::store_file::{DiskReader, OpenReader, StorePath, store_path, with_reason};
use std::alloc::{AllocError, Global};
use std::io::Write;
use store_commands::{NumberRange, ranges_of};
use store_files::{ReadAt, SystemFiles};

const EXAMPLE: &str = "\
Examples:
  zevkhadun get words.store 7 3..9 100..     documents 7, 3 to 8, and 100 to the last
  sort -n ids.txt | zevkhadun get words.store -     the documents whose numbers are on the lines of ids.txt";

/// The words of `get`.
pub fn command<'a>(alloc: Global) -> Result<Command<'a>, AllocError> {
    command_of(
        alloc,
        "get",
        "Print documents by their numbers",
        EXAMPLE,
        &[
            arguments::input(),
            Argument::Words {
                id: "ID",
                help: "Documents to print: numbers from 0 on, or ranges that exclude their end: 3..9, 5.. or ..9; \
                       '-' alone reads them from standard input, one on each line",
            },
            document_output::number(),
            document_output::json(),
            arguments::framing(),
            arguments::tantivy(),
        ],
    )
}

// Prints the documents of a range. Where the file is honest, an Ok says that exactly these came.
fn print_range_of<F: ReadAt, W: Write>(
    alloc: Global,
    reader: &mut OpenReader<F>,
    form: DocumentForm,
    range: NumberRange,
    output: &mut W,
) -> Result<(), FailureCause>
    ensures printed { IsTrue reader.old.file.honest → OnOk result
        (PrintsRange form reader.old range (W.contents output.old) (W.contents output.new)) }
    ensures same_store { IsSameStore reader.old reader.new }
{
    let numbers = range.among(0, u64::from(reader.num_docs()))?;
    if numbers.start == numbers.end {
        return Ok(());
    }
    let ids = numbers.start as DocId..numbers.end as DocId;
    let printed = print_range(alloc, reader, form, output, ids);
    with_reason(reader, printed.map_err(FailureCause::from))
}

// An opened store, whose documents are printed by their numbers.
#[derive(Drop)]
struct NumberedStore<F: ReadAt> {
    reader: DiskReader<F>,
}

impl<F: ReadAt> Numbered for NumberedStore<F> {
    ghost use Rattle.program_stores.specs.Given.{IsRangeShown, PrintsOf, given_more};
    ghost use Rattle.program_base.proofs.PrintedLemmas.{prints_none};
    ghost use Rattle.store_reader.proofs.RecentLemmas.{same_as_it_is};

    ghost prints = { λ form ranges old new before after.
        PrintsOf form ranges old.reader.value new.reader.value before after };

    fn print<W: Write>(
        &mut self,
        alloc: Global,
        form: DocumentForm,
        range: NumberRange,
        output: &mut W,
    ) -> Result<(), FailureCause> {
        print_range_of(alloc, &mut *self.reader, form, range, output)
    }

    ghost prints_none = { λ form this old new kept. (
      same_as_it_is this.reader.value,
      λ honest. prints_none (IsRangeShown form this.reader.value) old new kept,
    ) };

    ghost prints_more = { λ form first next old middle new before between after p q.
        given_more form old.reader.value middle.reader.value new.reader.value first next before between after p q };
}

/// Prints the documents that words name of the store at a path. An Ok says that the output has exactly these more:
/// those of the range that each word names, in the order of the words.
pub fn print_named<S: SystemFiles, W: Write>(
    alloc: Global,
    system: &S,
    store: StorePath<'_>,
    form: DocumentForm,
    words: &[&str],
    output: &mut W,
) -> Result<(), FailureCause>
    ensures { IsTrue S.honest → (d n : List ℕ) → IsPath d n store.entry.path.now → OnOk result ((reader : Reading)
        × IsReaderOf store.entry.is_tantivy (seen (replay (S.changes system.now d) (S.start d)) n) reader
        × PrintsNamed (IsRangeShown form reader) words.now (W.contents output.old) (W.contents output.new)) }
{
    let ranges = ranges_of(alloc, words)?;
    let reader = store.reader(alloc, system)?;
    print_ranges(alloc, &mut NumberedStore { reader }, form, &ranges, output)
}

// Prints the documents that words name, or those whose numbers are in the standard input.
fn print<S: SystemFiles>(
    rt: &HostRuntime,
    system: &S,
    store: StorePath<'_>,
    form: DocumentForm,
    words: &[&str],
) -> Result<(), FailureCause> {
    let alloc = rt.alloc();
    let mut output = standard_output(rt)?;
    if !is_listed(words) {
        return print_named(alloc, system, store, form, words, &mut output);
    }
    let mut documents = NumberedStore {
        reader: store.reader(alloc, system)?,
    };
    print_listed(alloc, &mut documents, form, rt.reader(), &mut output)
}

/// Prints the documents.
pub fn run<S: SystemFiles>(
    rt: &HostRuntime,
    system: &S,
    matches: &ArgMatches<'_>,
) -> Result<(), Failure> {
    let alloc = rt.alloc();
    let store = store_path(rt, matches)?;
    let form = form_of(alloc, matches)?;
    let words = matches.get_strs("ID").unwrap_or(&[]);
    with_file(alloc, store.path, print(rt, system, store, form, words))
}

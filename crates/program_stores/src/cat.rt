//! `cat`: prints all documents in order.

ghost use Rattle.std.specs.Prelude.{◌≡◌, ◌&&◌, ℕ, List, IfOk, IsTrue, OnOk};
ghost use Rattle.store_commands.specs.Damaged.{is_damaged_in};
ghost use Rattle.store_commands.specs.LeftOut.{is_among, AreApartFrom};
ghost use Rattle.store_files.specs.Disk.{replay, seen};
ghost use Rattle.store_files.specs.Paths.{IsPath};
ghost use Rattle.store_reader.specs.Reading.{Reading, IsSameStore};
ghost use Rattle.program_base.specs.StoresOnDisk.{IsReaderOf};
ghost use Rattle.program_stores.specs.Printed.{PrintsOthers, skips};

use clap::{ArgMatches, Command};
use docstore::{FileHandle, StoreReader};
use document_framing::DocumentForm;
use framed_stores::print_store;
use program_base::arguments;
use program_base::command_words::{Argument, command_of};
use program_base::document_output::{self, form_of, standard_output};
use program_base::failure::{Failure, FailureCause, to_output, with_file};
use program_base::status::Status;
use program_base::store_file::{StorePath, store_path, with_reason};
use program_base::word_files::{IdWord, id_words, words_in};
use std::alloc::{AllocError, Global};
use std::io::Write;
use store_commands::damaged_documents::damaged_documents;
use store_commands::left_out::{IdSpan, joined, left_out};
use store_files::SystemFiles;

const EXAMPLE: &str = "\
Examples:
  zevkhadun cat words.store --without 0,3..9     all but documents 0 and 3 to 8
  zevkhadun cat --number words.store | grep tree     the documents with 'tree', and their numbers
  zevkhadun cat --keep-going damaged.store > saved.txt     what can still be read";

/// The words of `cat`.
pub fn command<'a>(alloc: Global) -> Result<Command<'a>, AllocError> {
    command_of(
        alloc,
        "cat",
        "Print all documents in order",
        EXAMPLE,
        &[
            arguments::input(),
            Argument::Options {
                id: "without",
                value: "IDS",
                help: "Documents to leave out, as 0,3..9, or @FILE with such words on its lines; \
                       may be given several times",
            },
            Argument::Flag {
                id: "keep-going",
                help: "Skip damaged documents; their numbers go to standard error, and the exit status is 1",
            },
            document_output::number(),
            document_output::json(),
            arguments::framing(),
            arguments::tantivy(),
        ],
    )
}

/// What is printed of a store: how, without which documents, and whether damaged ones are skipped.
#[derive(Clone, Copy)]
pub struct Printing<'p, 'w> {
    pub form: DocumentForm,
    pub without: &'p [&'w str],
    pub keeps_going: bool,
}

impl<'p, 'w> Printing<'p, 'w> {
    // Which documents of an opened store are damaged, if they are to be skipped.
    fn damaged<H: FileHandle>(
        self,
        alloc: Global,
        reader: &mut StoreReader<H>,
    ) -> Result<Vec<IdSpan>, FailureCause>
        ensures among { IsTrue reader.old.file.honest → IfOk result (λ spans. (id : ℕ) → is_among spans.items id
            ≡ (self.entry.keeps_going && is_damaged_in reader.old id)) }
        ensures apart { IfOk result (λ spans. AreApartFrom 0 spans.items) }
        ensures same_store { IsSameStore reader.old reader.new }
    {
        if !self.keeps_going {
            return Ok(Vec::new(alloc));
        }
        Ok(damaged_documents(alloc, reader)?)
    }

    // Prints the documents of an opened store, and returns which are damaged, if they are to be skipped.
    fn print_documents<H: FileHandle, W: Write>(
        self,
        alloc: Global,
        reader: &mut StoreReader<H>,
        output: &mut W,
    ) -> Result<Vec<IdSpan>, FailureCause>
        ensures { IsTrue reader.old.file.honest → OnOk result (PrintsOthers self.entry.form
            (skips self.entry.without.now self.entry.keeps_going reader.old) reader.old
            (W.contents output.old) (W.contents output.new)) }
    {
        let left_out = left_out(alloc, self.without, reader.num_docs())?;
        let damaged = self.damaged(alloc, reader)?;
        let skipped = joined(alloc, &left_out, &damaged)?;
        print_store(alloc, reader, self.form, output, &skipped)?;
        to_output(output.flush())?;
        Ok(damaged)
    }

    /// Prints the documents of the store of this path, and returns which are damaged, if they are to be skipped. An Ok
    /// says that the output has exactly the store's documents more that are not skipped, each in its form.
    pub fn print<S: SystemFiles, W: Write>(
        self,
        alloc: Global,
        system: &S,
        store: StorePath<'_>,
        output: &mut W,
    ) -> Result<Vec<IdSpan>, FailureCause>
        ensures { IsTrue S.honest → (d n : List ℕ) → IsPath d n store.entry.path.now → OnOk result ((reader : Reading)
            × IsReaderOf store.entry.is_tantivy (seen (replay (S.changes system.now d) (S.start d)) n) reader
            × PrintsOthers self.entry.form (skips self.entry.without.now self.entry.keeps_going reader) reader
            (W.contents output.old) (W.contents output.new)) }
    {
        let mut reader = store.reader(alloc, system)?;
        let printed = self.print_documents(alloc, &mut *reader, output);
        with_reason(&reader, printed)
    }
}

// Reports the documents that were skipped.
fn report_skipped(rt: &HostRuntime, path: &str, damaged: &[IdSpan]) -> Result<(), Failure> {
    if damaged.is_empty() {
        return Ok(());
    }
    let _ = eprint!(rt; "zevkhadun: {path}: damaged documents were skipped: ");
    let mut separator = "";
    for span in damaged {
        let _ = eprint!(rt; "{separator}{span}");
        separator = ",";
    }
    let _ = eprintln!(rt; "");
    Err(Failure::from(FailureCause::Reported(Status::Broken)))
}

// Prints the documents of a store, without those that words or their files name.
fn print_without<S: SystemFiles>(
    rt: &HostRuntime,
    system: &S,
    store: StorePath<'_>,
    form: DocumentForm,
    read: &[IdWord],
    keeps_going: bool,
) -> Result<(), Failure> {
    let alloc = rt.alloc();
    let without = with_file(alloc, store.path, words_in(alloc, read))?;
    let printing = Printing {
        form,
        without: &without,
        keeps_going,
    };
    let mut output = with_file(alloc, store.path, standard_output(rt))?;
    let printed = printing.print(alloc, system, store, &mut output);
    let damaged = with_file(alloc, store.path, printed)?;
    report_skipped(rt, store.path, &damaged)
}

/// Prints the documents.
pub fn run<S: SystemFiles>(
    rt: &HostRuntime,
    system: &S,
    matches: &ArgMatches<'_>,
) -> Result<(), Failure> {
    let store = store_path(rt, matches)?;
    let form = form_of(rt.alloc(), matches)?;
    let read = id_words(rt, matches.get_strs("without").unwrap_or(&[]))?;
    let keeps_going = matches.get_flag("keep-going");
    print_without(rt, system, store, form, &read, keeps_going)
}

//! `export`: writes the documents of a store as a file that another program reads.

ghost use Rattle.std.specs.Prelude.{ℕ, List, IfOk, IsTrue, string_bytes};
ghost use Rattle.program_base.specs.StoresOnDisk.{IsPublished, IsReaderOf};
ghost use Rattle.store_files.specs.Disk.{replay, seen};
ghost use Rattle.store_files.specs.Paths.{IsPath};
ghost use Rattle.store_reader.specs.Reading.{Reading};
ghost use Rattle.tantivy_export.specs.Exporting.{IsExportOf};

use clap::{ArgMatches, Command};
use docstore::StoreError;
use program_base::arguments::{self, input_path};
use program_base::command_words::{Argument, command_of};
use program_base::failure::{Failure, FailureCause, with_file};
use program_base::output_path::{OutputPath, output_of};
use program_base::progress::Progress;
use program_base::store_file::{OpenReader, StorePath, explained};
use program_base::store_output::{OutputPlace, output_place, summarize};
use std::alloc::{AllocError, Global};
use store_files::{ReadAt, SystemFiles};
use store_published::FillError;

// How many bytes of the store are in memory at a time.
const PART_BYTES: usize = 1 << 22;

const EXAMPLE: &str = "\
The file has the blocks of the store, an index of period 8 and a footer of version 2. The bytes that tantivy's directory
adds after a store on disk are not written.

Example:
  zevkhadun export --tantivy segment.store words.store";

/// The words of `export`.
pub fn command<'a>(alloc: Global) -> Result<Command<'a>, AllocError> {
    command_of(
        alloc,
        "export",
        "Write a store as a file that tantivy opens",
        EXAMPLE,
        &[
            arguments::output(),
            arguments::input(),
            // It is required, so that other forms can be added.
            Argument::RequiredFlag {
                id: "tantivy",
                help: "Write a file of version 2, which tantivy's store reader opens",
            },
            arguments::replace(),
            arguments::quiet(),
        ],
    )
}

// The failure of an export: of the store that is read, or of the file that is written.
fn failure_of<F: ReadAt>(
    alloc: Global,
    reader: &OpenReader<F>,
    input: &str,
    out: &str,
    error: FillError<StoreError>,
) -> Failure {
    let cause = match error {
        FillError::Folder(error) => FailureCause::of_output(error),
        FillError::Store(error) => FailureCause::Store(error),
        FillError::Filling(StoreError::Failed(cause)) => {
            FailureCause::Store(StoreError::Failed(cause))
        }
        FillError::Filling(error) => {
            let cause = explained(reader.file(), FailureCause::Store(error));
            return Failure::at_file(alloc, input, cause);
        }
    };
    Failure::at_file(alloc, out, cause)
}

/// Writes the store at a path as a file that tantivy opens, and returns the place at which it was published. An Ok says
/// that this file has exactly the documents of the store that the system had at its path, and that every crash leaves
/// just this file there.
pub fn export<S: SystemFiles>(
    rt: &HostRuntime,
    system: S,
    store: StorePath<'_>,
    output: OutputPath<'_>,
    progress: &Progress<'_>,
) -> Result<Box<OutputPlace<S>>, Failure>
    ensures exported { IsTrue S.honest → (d n : List ℕ) → IsPath d n store.entry.path.now → IfOk result (λ place.
        (reader : Reading) × IsReaderOf store.entry.is_tantivy (seen (replay (S.changes system d) (S.start d)) n) reader
        × IsPublished (string_bytes place.value.name)
        (replay (S.changes place.value.folder.system place.value.folder.path) (S.start place.value.folder.path))
        (IsExportOf reader)) }
{
    let alloc = rt.alloc();
    let mut reader = with_file(alloc, store.path, store.reader(alloc, &system))?;
    let mut place = output_place(rt, system, output, &[store.path])?;
    match place.export(alloc, &mut *reader, PART_BYTES) {
        Ok(written) => summarize(rt, output.path, written, progress)?,
        Err(error) => return Err(failure_of(alloc, &reader, store.path, output.path, error)),
    }
    Ok(place)
}

/// Writes the file.
pub fn run<S: SystemFiles>(
    rt: &HostRuntime,
    system: S,
    matches: &ArgMatches<'_>,
) -> Result<(), Failure> {
    let alloc = rt.alloc();
    let store = StorePath {
        path: input_path(alloc, matches)?,
        is_tantivy: false,
    };
    let output = output_of(alloc, matches)?;
    let progress = Progress::begin(rt, matches.get_flag("quiet"), None);
    drop(export(rt, system, store, output, &progress)?);
    Ok(())
}

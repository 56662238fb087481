//! `append`: adds documents to those of a store.

ghost use Rattle.std.specs.Prelude.{◌≡◌, ℕ, map, IfOk, IsTrue, Some, string_bytes};
ghost use Rattle.document_framing.specs.Feeding.{all_documents};
ghost use Rattle.document_framing.specs.Inputs.{inputs_of};
ghost use Rattle.framed_stores.specs.Packing.{ArePacked};
ghost use Rattle.program_base.specs.StoresOnDisk.{IsPublished};
ghost use Rattle.store_files.specs.Disk.{replay};
ghost use Rattle.store_published.specs.Filling.{IsStoreOf};
ghost use Rattle.store_reader.specs.Reading.{Reading};

use crate::pack::{EXPECT_HELP, PackingOptions, publish_packed};
use clap::{ArgMatches, Command};
use docstore::{DocStoreVersion, StoreError};
use document_framing::InputFiles;
use program_base::arguments::{self, block_size_of, word};
use program_base::command_words::{Argument, command_of};
use program_base::failure::{Failure, FailureCause, with_file};
use program_base::input_files::{INPUT, InputList, files_from, inputs, null};
use program_base::output_path::OutputPath;
use program_base::store_file::{DiskReader, reader_of, whole_file};
use program_base::store_output::{OutputPlace, output_place};
use std::alloc::{AllocError, Global};
use store_commands::StoreShape;
use store_files::SystemFiles;

const EXAMPLE: &str = "\
The store is copied to a file beside it, the documents are added, and this file replaces the store at the end. If
'append' fails or is interrupted, the store is left as it was, unless only the sync of the folder failed, the last step:
then the new store is in place. It keeps its period.

Example:
  zevkhadun append words.store more.txt     a document for each line, after those of the store";

/// The words of `append`.
pub fn command<'a>(alloc: Global) -> Result<Command<'a>, AllocError> {
    command_of(
        alloc,
        "append",
        "Add the documents in files or standard input to a store",
        EXAMPLE,
        &[
            Argument::Word {
                id: "STORE",
                help: "The store that the documents are added to; it must exist",
            },
            inputs(),
            files_from(),
            null(),
            arguments::expect(EXPECT_HELP),
            arguments::framing(),
            arguments::block_size(),
            arguments::quiet(),
        ],
    )
}

// A reader of the store of this name, which must be one that can be copied. What tantivy's directory puts after a store
// would be lost, so a file that has it is refused as no store.
fn open_store<S: SystemFiles>(
    alloc: Global,
    system: &S,
    path: &str,
) -> Result<DiskReader<S::Reader>, FailureCause>
    ensures { IsTrue S.honest → IfOk result (λ reader. IsTrue reader.value.file.honest) }
{
    let reader = reader_of(alloc, whole_file(alloc, system, path)?)?;
    if reader.version() == DocStoreVersion::V1 {
        return Err(FailureCause::Store(StoreError::OldVersion));
    }
    Ok(reader)
}

// The shape of the store that is written: with the period of the old one.
fn shape_with(block_size: usize, period: u8) -> Result<StoreShape, FailureCause>
    ensures { IfOk result (λ shape. shape.period ≡ period) }
{
    StoreShape::new(block_size, period).ok_or(FailureCause::Store(StoreError::BadPeriod(period)))
}

/// Appends the documents of inputs to the store of this path, and returns the place at which the new one was published.
/// An Ok says that it has exactly the documents that the store had, and then these, and that every crash leaves just it
/// there.
pub fn append<S: SystemFiles, F: InputFiles + Drop>(
    rt: &HostRuntime,
    system: S,
    files: F,
    path: &str,
    block_size: usize,
    paths: &[&str],
    options: PackingOptions,
) -> Result<Box<OutputPlace<S>>, Failure>
    ensures appended { IsTrue S.honest → IfOk result (λ place. (reader : Reading) × (period : ℕ)
        × IsTrue reader.file.honest × (reader.period ≡ period) × IsPublished (string_bytes place.value.name)
        (replay (S.changes place.value.folder.system place.value.folder.path) (S.start place.value.folder.path))
        (IsStoreOf (ArePacked (Some reader) options.expected (all_documents options.framing
        (inputs_of (F.holds files) (map (λ path. path.now) paths.now)))) (λ _. Unit {0}) period)) }
{
    let alloc = rt.alloc();
    let output = OutputPath {
        path,
        replaces: true,
    };
    let mut place = output_place(rt, system, output, paths)?;
    let reader = with_file(alloc, path, open_store(alloc, place.folder.system(), path))?;
    let shape = with_file(alloc, path, shape_with(block_size, reader.period()))?;
    let store = Some(Box::into_inner(reader));
    publish_packed(rt, &mut *place, path, shape, store, files, paths, options)?;
    Ok(place)
}

/// Writes the store.
pub fn run<S: SystemFiles, F: InputFiles + Drop>(
    rt: &HostRuntime,
    system: S,
    files: F,
    matches: &ArgMatches<'_>,
) -> Result<(), Failure> {
    let alloc = rt.alloc();
    let path = word(alloc, matches, "STORE")?;
    let block_size = block_size_of(alloc, matches)?;
    let options = PackingOptions::of(alloc, matches)?;
    let list = InputList::read(rt, matches)?;
    let words = matches.get_strs(INPUT).unwrap_or(&[]);
    let paths = with_file(alloc, path, list.paths(alloc, words))?;
    drop(append(rt, system, files, path, block_size, &paths, options)?);
    Ok(())
}

//! `pack`: writes a store of the documents of files or of the standard input.

ghost use Rattle.std.specs.Prelude.{◌≡◌, map, IfOk, IsOk, IsTrue, None, OnOk, string_bytes};
ghost use Rattle.document_framing.specs.Feeding.{all_documents};
ghost use Rattle.document_framing.specs.Inputs.{inputs_of};
ghost use Rattle.framed_stores.specs.Packing.{ArePacked};
ghost use Rattle.program_base.specs.StoresOnDisk.{IsPublished};
ghost use Rattle.store_files.specs.Disk.{replay};
ghost use Rattle.store_published.specs.Filling.{IsStoreOf};

use clap::{ArgMatches, Command};
use document_framing::{Framing, InputFiles, OtherCount};
use framed_stores::{PackError, PackedInputs};
use program_base::arguments::{self, framing_of, shape_of};
use program_base::command_words::{Argument, command_of};
use program_base::failure::{Failure, FailureCause, with_file};
use program_base::input_files::{INPUT, InputList, files_from, input_failure, inputs, null};
use program_base::input_progress::InputProgress;
use program_base::output_path::{OutputPath, output_of};
use program_base::progress::Things;
use program_base::store_file::OpenReader;
use program_base::store_output::{Outcome, OutputPlace, end_output, output_place};
use std::alloc::{AllocError, Global};
use store_commands::StoreShape;
use store_files::{DiskFile, ReadAt, SystemFiles};
use store_published::FillError;

const EXAMPLE: &str = "\
Examples:
  zevkhadun pack words.store words.txt     one document for each line
  zevkhadun pack --framing files notes.store notes/*.txt     one document for each file
  find notes -type f | zevkhadun pack --framing files --files-from - notes.store";

/// The words of `pack`.
pub fn command<'a>(alloc: Global) -> Result<Command<'a>, AllocError> {
    command_of(
        alloc,
        "pack",
        "Write a store of the documents in files or standard input",
        EXAMPLE,
        &[
            arguments::output(),
            inputs(),
            files_from(),
            null(),
            arguments::replace(),
            arguments::expect(EXPECT_HELP),
            arguments::framing(),
            arguments::block_size(),
            Argument::Period,
            arguments::quiet(),
        ],
    )
}

// How many bytes of a store that documents are appended to are in memory at a time.
const PART_BYTES: usize = 1 << 22;

/// The help of the option for an expected number of documents.
pub const EXPECT_HELP: &str =
    "Write nothing unless exactly COUNT documents come; else an input that ends early is not noticed";

/// How documents are packed, by the words.
#[derive(Clone, Copy)]
pub struct PackingOptions {
    pub framing: Framing,
    /// How many documents have to come, if the words say so.
    pub expected: Option<u64>,
    pub is_quiet: bool,
}

impl PackingOptions {
    /// By the words.
    pub fn of(alloc: Global, matches: &ArgMatches<'_>) -> Result<PackingOptions, FailureCause> {
        Ok(PackingOptions {
            framing: framing_of(alloc, matches)?,
            expected: matches.get_one::<u64>("expect"),
            is_quiet: matches.get_flag("quiet"),
        })
    }
}

// The failure of documents of these inputs that did not all come into the store of this name.
fn failure_of<F: ReadAt>(
    alloc: Global,
    out: &str,
    paths: &[&str],
    error: PackError<DiskFile<F>>,
) -> Failure {
    let cause = match error {
        PackError::Input(fault) => return input_failure(alloc, paths, fault),
        PackError::Copy(failure) => FailureCause::from(failure),
        PackError::Store(error) => FailureCause::Store(error),
        PackError::OtherCount(OtherCount { expected, came }) => FailureCause::OtherCount {
            things: Things::Documents,
            expected,
            came,
        },
    };
    Failure::at_file(alloc, out, cause)
}

// What packing came to, where its failure has a name.
fn named<F: ReadAt>(
    alloc: Global,
    out: &str,
    paths: &[&str],
    outcome: Outcome<PackError<DiskFile<F>>>,
) -> Outcome<Failure>
    ensures { IsOk result → IsOk outcome }
{
    match outcome {
        Ok(written) => Ok(written),
        Err(FillError::Filling(error)) => {
            Err(FillError::Filling(failure_of(alloc, out, paths, error)))
        }
        Err(FillError::Folder(error)) => Err(FillError::Folder(error)),
        Err(FillError::Store(error)) => Err(FillError::Store(error)),
    }
}

/// Publishes a store of this name, of the documents of an old one, if there is one, and then those of these inputs.
pub fn publish_packed<S: SystemFiles, F: InputFiles + Drop>(
    rt: &HostRuntime,
    place: &mut OutputPlace<S>,
    path: &str,
    shape: StoreShape,
    store: Option<OpenReader<S::Reader>>,
    files: F,
    paths: &[&str],
    options: PackingOptions,
) -> Result<(), Failure>
    ensures { IsTrue S.honest → OnOk result (IsPublished (string_bytes place.new.name)
        (replay (S.changes place.new.folder.system place.new.folder.path) (S.start place.new.folder.path))
        (IsStoreOf (ArePacked store options.expected (all_documents options.framing
        (inputs_of (F.holds files) (map (λ path. path.now) paths.now)))) (λ _. Unit {0}) shape.period)) }
{
    let alloc = rt.alloc();
    let mut packed = PackedInputs {
        alloc,
        store,
        part_bytes: PART_BYTES,
        framing: options.framing,
        files,
        paths,
        expected: options.expected,
        progress: InputProgress::begin(
            rt,
            options.is_quiet,
            Things::Documents,
            options.framing,
            paths,
        ),
    };
    let outcome = place.publish(alloc, shape, &mut packed);
    let outcome = named(alloc, path, paths, outcome);
    end_output(rt, path, outcome, &packed.progress.line)
}

/// Packs the documents of inputs into a store, and returns the place at which it was published. An Ok says that the
/// store has exactly these documents, in order, and that every crash leaves just this store there.
pub fn pack<S: SystemFiles, F: InputFiles + Drop>(
    rt: &HostRuntime,
    system: S,
    files: F,
    output: OutputPath<'_>,
    shape: StoreShape,
    paths: &[&str],
    options: PackingOptions,
) -> Result<Box<OutputPlace<S>>, Failure>
    ensures packed { IsTrue S.honest → IfOk result (λ place. IsPublished (string_bytes place.value.name)
        (replay (S.changes place.value.folder.system place.value.folder.path) (S.start place.value.folder.path))
        (IsStoreOf (ArePacked None options.expected (all_documents options.framing
        (inputs_of (F.holds files) (map (λ path. path.now) paths.now)))) (λ _. Unit {0}) shape.period)) }
{
    let mut place = output_place(rt, system, output, paths)?;
    publish_packed(
        rt,
        &mut *place,
        output.path,
        shape,
        None,
        files,
        paths,
        options,
    )?;
    Ok(place)
}

/// Writes the store.
pub fn run<S: SystemFiles, F: InputFiles + Drop>(
    rt: &HostRuntime,
    system: S,
    files: F,
    matches: &ArgMatches<'_>,
) -> Result<(), Failure> {
    let alloc = rt.alloc();
    let output = output_of(alloc, matches)?;
    let options = PackingOptions::of(alloc, matches)?;
    let shape = shape_of(alloc, matches)?;
    let list = InputList::read(rt, matches)?;
    let words = matches.get_strs(INPUT).unwrap_or(&[]);
    let paths = with_file(alloc, output.path, list.paths(alloc, words))?;
    drop(pack(rt, system, files, output, shape, &paths, options)?);
    Ok(())
}

//! A store that is written to disk.

ghost use Rattle.std.specs.Prelude.{◌≡◌, ℕ, List, IsTrue, IfOk, OnOk, IsOk, string_bytes};
ghost use Rattle.store_files.specs.Disk.{replay};
ghost use Rattle.store_published.specs.Filling.{IsStoreOf};
ghost use Rattle.tantivy_export.specs.Exporting.{IsExportOf};
ghost use Rattle.program_base.specs.StoresOnDisk.{IsPublished};

use crate::failure::{Failure, FailureCause, with_file};
use crate::output_path::OutputPath;
use crate::progress::Progress;
use docstore::{FileHandle, StoreError, StoreReader};
use std::alloc::Global;
use store_commands::StoreShape;
use store_files::{DiskFolder, SystemFiles};
use store_published::{FillError, Filling, Written, publish_export, publish_store};

/// The folder of a file that is to be written, and the name of the file in it.
#[derive(Drop)]
pub struct OutputPlace<S: SystemFiles> {
    pub folder: DiskFolder<S>,
    pub name: String,
}

/// A store that was published on disk, or why it was not.
pub type Outcome<E> = Result<Written, FillError<E>>;

impl<S: SystemFiles> OutputPlace<S> {
    /// Fills a store and publishes it here.
    pub fn publish<T: Filling>(
        &mut self,
        alloc: Global,
        shape: StoreShape,
        filling: &mut T,
    ) -> Outcome<T::Error>
        ensures published { IsTrue S.honest → OnOk result (IsPublished (string_bytes self.new.name)
            (replay (S.changes self.new.folder.system self.new.folder.path) (S.start self.new.folder.path))
            (IsStoreOf (T.brings filling.old filling.new) (T.cuts filling.old shape.block_size) shape.period)) }
    {
        publish_store(
            alloc,
            &mut self.folder,
            self.name.as_str(),
            shape.block_size,
            shape.period,
            filling,
        )
    }

    /// Publishes here the file that tantivy opens of the store of a reader, of which this many bytes are in memory at a
    /// time.
    pub fn export<H: FileHandle>(
        &mut self,
        alloc: Global,
        reader: &mut StoreReader<H>,
        part_bytes: usize,
    ) -> Outcome<StoreError>
        ensures exported { IsTrue S.honest → OnOk result (IsPublished (string_bytes self.new.name)
            (replay (S.changes self.new.folder.system self.new.folder.path) (S.start self.new.folder.path))
            (IsExportOf reader.old)) }
    {
        publish_export(
            alloc,
            &mut self.folder,
            self.name.as_str(),
            reader,
            part_bytes,
        )
    }
}

/// The place of a store that is made of these inputs, of which none may be the output. It is in a box: a function that
/// owns it moves and drops one value, and not all of its parts.
pub fn output_place<S: SystemFiles>(
    rt: &HostRuntime,
    system: S,
    output: OutputPath<'_>,
    inputs: &[&str],
) -> Result<Box<OutputPlace<S>>, Failure> {
    output.check_name(rt.alloc(), "a store can't be written to standard output")?;
    output.check_inputs(rt, inputs)?;
    let (folder, name) = with_file(rt.alloc(), output.path, output.folder(rt.alloc(), system))?;
    Ok(Box::new(rt.alloc(), OutputPlace { folder, name })?)
}

// The failure of a store of this name that was not published. What fills it names its own.
fn failure_of(alloc: Global, path: &str, error: FillError<Failure>) -> Failure {
    let cause = match error {
        FillError::Filling(failure) => return failure,
        FillError::Folder(error) => FailureCause::of_output(error),
        FillError::Store(error) => FailureCause::Store(error),
    };
    Failure::at_file(alloc, path, cause)
}

// Prints what a store has.
fn print_summary(rt: &HostRuntime, written: Written, seconds: f64) -> Result<(), FailureCause> {
    let Written {
        documents,
        blocks,
        bytes,
    } = written;
    eprintln!(rt; "{documents} documents, {bytes} bytes, {blocks} blocks, {seconds:.3} seconds")?;
    Ok(())
}

/// Prints a line on what a store that was written has, where progress is shown.
pub fn summarize(
    rt: &HostRuntime,
    path: &str,
    written: Written,
    progress: &Progress<'_>,
) -> Result<(), Failure> {
    if !progress.is_shown() {
        return Ok(());
    }
    with_file(
        rt.alloc(),
        path,
        print_summary(rt, written, progress.elapsed().as_secs_f64()),
    )
}

/// Ends the progress of a store of this name that was filled. Prints a line on what it has, where progress is shown.
pub fn end_output(
    rt: &HostRuntime,
    path: &str,
    outcome: Outcome<Failure>,
    progress: &Progress<'_>,
) -> Result<(), Failure>
    ensures { OnOk result (IsOk outcome) }
{
    progress.end();
    match outcome {
        Ok(written) => summarize(rt, path, written, progress),
        Err(error) => Err(failure_of(rt.alloc(), path, error)),
    }
}

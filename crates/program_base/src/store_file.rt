//! A store's file on disk, opened to be read.

ghost use Rattle.std.specs.Prelude.{◌≡◌, ℕ, List, Ok, Some, IfOk, IsTrue};
ghost use Rattle.store_format.specs.Footer.{version_number};
ghost use Rattle.store_format.specs.StoreFile.{IsStore};
ghost use Rattle.store_reader.specs.Reading.{store_of};
ghost use Rattle.store_files.specs.Disk.{replay, seen};
ghost use Rattle.store_files.specs.Paths.{IsPath};
ghost use Rattle.program_base.specs.StoresOnDisk.{HasStore, IsReaderOf};

use crate::arguments::input_path;
use crate::failure::FailureCause;
use clap::ArgMatches;
use docstore::{FileSlice, OpenError, StoreError, StoreReader};
use std::alloc::{AllocFailed, Global};
use std::io;
use std::io::ErrorKind;
use store_commands::store_part::store_end;
use store_files::{CreateError, DiskFile, FileKind, FoundFile, ReadAt, SystemFiles};

/// A store's file, or the part of a file that is one.
pub type StoreFile<F> = FileSlice<DiskFile<F>>;

/// A reader over a file on disk.
pub type OpenReader<F> = StoreReader<DiskFile<F>>;

/// A reader over a file on disk, in a box: a function that owns it moves and drops one value, and not all of its parts.
pub type DiskReader<F> = Box<OpenReader<F>>;

/// Why there is no reader over an opened file.
#[derive(Drop)]
pub enum NotRead<F: ReadAt> {
    /// The file is no store; it is returned with the error.
    Store(OpenError<DiskFile<F>>),
    /// There was no memory for the reader.
    Memory,
}

impl<F: ReadAt, T: Drop> From<AllocFailed<T>> for NotRead<F> {
    fn from(_: AllocFailed<T>) -> NotRead<F> {
        NotRead::Memory
    }
}

impl<F: ReadAt> From<NotRead<F>> for FailureCause {
    fn from(refusal: NotRead<F>) -> FailureCause {
        match refusal {
            NotRead::Store(refusal) => {
                let cause = FailureCause::Store(refusal.error);
                explained(refusal.file.handle(), cause)
            }
            NotRead::Memory => FailureCause::Store(StoreError::Memory),
        }
    }
}

/// Why a call on a store failed: what the system said, if a read of this file failed.
pub fn explained<F: ReadAt>(file: &DiskFile<F>, cause: FailureCause) -> FailureCause {
    match (cause, file.read_error()) {
        (FailureCause::Store(StoreError::Read), Some(error)) => FailureCause::System(error),
        (cause, _) => cause,
    }
}

/// What a call on a reader gave, or why it failed.
pub fn with_reason<F: ReadAt, T: Drop>(
    reader: &OpenReader<F>,
    given: Result<T, FailureCause>,
) -> Result<T, FailureCause>
    ensures { IfOk result (λ value. given ≡ Ok value) }
{
    given.map_err(|cause| explained(reader.file(), cause))
}

// How many blocks are kept: documents are mostly asked for in the order of their ids.
const CACHED_BLOCKS: usize = 8;

/// The store in a file of this name, by what the words say of it.
#[derive(Clone, Copy)]
pub struct StorePath<'a> {
    pub path: &'a str,
    /// Whether the file has to be as tantivy's directory leaves it.
    pub is_tantivy: bool,
}

// What is at a path, where links are followed. None where nothing is, or a link leads to what has no path.
fn found_at<S: SystemFiles>(
    alloc: Global,
    system: &S,
    path: &str,
) -> io::Result<Option<FoundFile>> {
    match system.find(path)? {
        Some(found) if found.kind == FileKind::Link => match system.real_path(alloc, path) {
            Ok(target) => system.find(target.as_str()),
            Err(error) if error.kind() == ErrorKind::NotFound => Ok(None),
            Err(error) => Err(error),
        },
        found => Ok(found),
    }
}

// Fails if what is at a path is no plain file.
fn check_plain<S: SystemFiles>(alloc: Global, system: &S, path: &str) -> Result<(), FailureCause> {
    match found_at(alloc, system, path)? {
        Some(found) if found.kind == FileKind::Plain => return Ok(()),
        Some(_) => {}
        // By its error the system says that nothing is there. A pipe of the shell has no path, and is opened.
        None => drop(system.open_to_read(path)?),
    }
    Err(FailureCause::Create(CreateError::NotPlainFile))
}

/// The whole file of this path, if it is a plain file.
pub fn whole_file<S: SystemFiles>(
    alloc: Global,
    system: &S,
    path: &str,
) -> Result<StoreFile<S::Reader>, FailureCause>
    ensures honest { IsTrue S.honest → IfOk result (λ file. IsTrue file.honest) }
    ensures content { IsTrue S.honest → (d n : List ℕ) → IsPath d n path.now → IfOk result
        (λ file. seen (replay (S.changes system.now d) (S.start d)) n ≡ Some file.content) }
{
    check_plain(alloc, system, path)?;
    Ok(FileSlice::new(DiskFile::new(system.open_to_read(path)?)?))
}

impl<'a> StorePath<'a> {
    /// The file that is the store.
    pub fn file<S: SystemFiles>(
        &self,
        alloc: Global,
        system: &S,
    ) -> Result<StoreFile<S::Reader>, FailureCause>
        ensures honest { IsTrue S.honest → IfOk result (λ file. IsTrue file.honest) }
        ensures content { IsTrue S.honest → (d n : List ℕ) → IsPath d n self.now.path.now → IfOk result (λ file.
            HasStore self.now.is_tantivy (seen (replay (S.changes system.now d) (S.start d)) n) file.content) }
    {
        let mut file = whole_file(alloc, system, self.path)?;
        match store_end(alloc, &mut file) {
            Ok(Some(end)) => Ok(file.narrow(0..end)),
            Ok(None) if self.is_tantivy => Err(FailureCause::NoTantivyTail),
            Ok(None) => Ok(file),
            Err(error) => Err(explained(file.handle(), FailureCause::Store(error))),
        }
    }

    /// A reader of the store.
    pub fn reader<S: SystemFiles>(
        &self,
        alloc: Global,
        system: &S,
    ) -> Result<DiskReader<S::Reader>, FailureCause>
        ensures honest { IsTrue S.honest → IfOk result (λ reader. IsTrue reader.value.file.honest) }
        ensures store { IsTrue S.honest → (d n : List ℕ) → IsPath d n self.now.path.now → IfOk result (λ reader.
            IsReaderOf self.now.is_tantivy (seen (replay (S.changes system.now d) (S.start d)) n) reader.value) }
    {
        Ok(reader_of(alloc, self.file(alloc, system)?)?)
    }
}

/// A reader over an opened file, or the error with the file.
pub fn reader_of<F: ReadAt>(alloc: Global, file: StoreFile<F>) -> Result<DiskReader<F>, NotRead<F>>
    ensures honest { IfOk result (λ reader. reader.value.file.honest ≡ file.honest) }
    ensures store { IsTrue file.honest → IfOk result (λ reader. IsStore reader.value.period file.content
        (version_number reader.value.version) (store_of reader.value)) }
{
    match StoreReader::open(alloc, file, CACHED_BLOCKS) {
        Ok(reader) => Ok(Box::new(alloc, reader)?),
        Err(refusal) => Err(NotRead::Store(refusal)),
    }
}

/// The store that the words of a command name.
pub fn store_path<'a>(
    rt: &HostRuntime,
    matches: &ArgMatches<'a>,
) -> Result<StorePath<'a>, FailureCause> {
    Ok(StorePath {
        path: input_path(rt.alloc(), matches)?,
        is_tantivy: matches.get_flag("tantivy"),
    })
}

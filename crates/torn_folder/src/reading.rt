//! What a look sees of a folder that may tear: what a folder in memory has after the same calls.

ghost use Rattle.std.specs.Prelude.{◌≡◌, ◌++◌, ◌∷◌, [], List, Some, None, OnOk, IfOk, unwrap_or, string_bytes, reverse};
ghost use Rattle.store_folder.specs.Folder.{Elsewhere};
ghost use Rattle.store_folder.specs.Changes.{look_of, Is};
ghost use Rattle.torn_folder.specs.Torn.{put, or_else, seen_by};

use crate::{Event, TornFolder};
use std::alloc::Global;
use std::io;
use store_base::{MemFile, NoMemory};
use store_folder::{Folder, MemFolder, ReadableFolder};

// Makes an empty file of this name, unless there is one.
fn make_if_absent(alloc: Global, folder: &mut MemFolder, name: &str) -> io::Result<()>
    ensures file { OnOk result (look_of folder.new.changes.items name.now
        ≡ Some (unwrap_or (look_of folder.old.changes.items name.now) [])) }
    ensures elsewhere { OnOk result (Elsewhere name.now
        (look_of folder.old.changes.items) (look_of folder.new.changes.items)) }
{
    match folder.read(alloc, name)? {
        Some(_) => Ok(()),
        None => folder.create(name),
    }
}

// Writes bytes at the end of a file, which is made if it is not there.
fn append_in(alloc: Global, folder: &mut MemFolder, name: &str, bytes: &[u8]) -> io::Result<()>
    ensures { OnOk result (Is (put name.now
        (Some (unwrap_or (look_of folder.old.changes.items name.now) [] ++ bytes.now))
        (look_of folder.old.changes.items)) (look_of folder.new.changes.items)) }
{
    make_if_absent(alloc, folder, name)?;
    folder.append(name, bytes)
}

// Renames a file, if it is there.
fn rename_in(alloc: Global, folder: &mut MemFolder, from: &str, to: &str) -> io::Result<()>
    ensures { OnOk result (Is (put to.now
        (or_else (look_of folder.old.changes.items from.now) (look_of folder.old.changes.items to.now))
        (put from.now None (look_of folder.old.changes.items))) (look_of folder.new.changes.items)) }
{
    if from == to || folder.read(alloc, from)?.is_none() {
        return Ok(());
    }
    folder.rename(from, to)
}

// Makes a call again.
fn repeat(alloc: Global, folder: &mut MemFolder, event: &Event) -> io::Result<()>
    ensures { OnOk result ((events : List Event) → Is (seen_by events) (look_of folder.old.changes.items)
        → Is (seen_by (event.now ∷ events)) (look_of folder.new.changes.items)) }
{
    match event {
        Event::Created(name) => folder.create(name.as_str()),
        Event::Appended(name, bytes) => append_in(alloc, folder, name.as_str(), bytes),
        Event::Moved(from, to) => rename_in(alloc, folder, from.as_str(), to.as_str()),
        Event::Removed(name) => folder.remove(name.as_str()),
        Event::FileSynced(_) | Event::SyncFailed(_) | Event::FolderSynced => Ok(()),
    }
}

// The folder in memory to which these calls were made.
fn repeated(alloc: Global, events: &[Event]) -> io::Result<MemFolder>
    ensures { IfOk result (λ folder. Is (seen_by (reverse events.now)) (look_of folder.changes.items)) }
{
    let mut folder = MemFolder::new(alloc);
    for event in events {
        repeat(alloc, &mut folder, event)?;
    }
    Ok(folder)
}

impl TornFolder {
    // A folder in memory that looks the same.
    fn as_seen(&self, alloc: Global) -> Result<MemFolder, NoMemory>
        ensures { IfOk result (λ folder. Is (seen_by (reverse self.now.events.items)) (look_of folder.changes.items)) }
    {
        match repeated(alloc, &self.events) {
            Ok(folder) => Ok(folder),
            Err(_) => Err(NoMemory),
        }
    }
}

impl ReadableFolder for TornFolder {
    ghost use Rattle.std.specs.Prelude.{true};

    type File = MemFile;

    ghost is_readable = { true };

    fn names(&self, alloc: Global) -> io::Result<Vec<String>> {
        match self.as_seen(alloc) {
            Ok(folder) => folder.names(alloc),
            Err(_) => Err(io::ErrorKind::OutOfMemory.into()),
        }
    }

    fn read(&self, alloc: Global, name: &str) -> io::Result<Option<Vec<u8>>> {
        match self.as_seen(alloc) {
            Ok(folder) => folder.read(alloc, name),
            Err(_) => Err(io::ErrorKind::OutOfMemory.into()),
        }
    }

    fn open(&self, alloc: Global, name: &str) -> io::Result<MemFile> {
        match self.as_seen(alloc) {
            Ok(folder) => folder.open(alloc, name),
            Err(_) => Err(io::ErrorKind::OutOfMemory.into()),
        }
    }
}

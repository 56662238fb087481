//! A folder in memory. A crash leaves what a look sees, and the folder keeps its earlier states.

ghost use Rattle.std.specs.Prelude.{◌≡◌, ◌≢◌, ◌++◌, ◌≤◌, [], ◌∷◌, length, true, IfOk, OnOk, OnErr, IsErr};
ghost use Rattle.std.specs.Prelude.{ℕ, List, Option, Some, None, string_bytes, unwrap_or, refl, map};
ghost use Rattle.store_base.specs.Counts.{HasRisen};
ghost use Rattle.store_folder.specs.Moments.{Elapses};
ghost use Rattle.store_folder.specs.Folder.{ElsewhereOfBoth, AreNames, AreNamesAmong, bytes_of};
ghost use Rattle.store_folder.specs.Changes.{after, look_of, Is, WasSince, was_now, is_now, leads};

use crate::folder::Folder;
use crate::readable_folder::ReadableFolder;
use std::alloc::{AllocError, Global};
use std::io;
use store_base::MemFile;

/// One change: a name gets a file of these bytes, or none, and another name loses its file.
#[derive(Drop)]
pub struct Change {
    name: String,
    bytes: Option<Vec<u8>>,
    gone: String,
}

/// A folder in memory, which is honest. It fails only for lack of memory, and a call that fails changes nothing.
#[derive(Drop)]
pub struct MemFolder {
    alloc: Global,
    changes: Vec<Change>,
    failures: u64,
}

// Adds a change.
fn make_change(
    alloc: Global,
    changes: &mut Vec<Change>,
    name: &str,
    bytes: Option<Vec<u8>>,
    gone: &str,
) -> Result<(), AllocError>
    ensures made { OnOk result (((e : _) × (string_bytes e.name ≡ name.now) × (e.bytes ≡ bytes)
        × (string_bytes e.gone ≡ gone.now) × (changes.new.items ≡ changes.old.items ++ e ∷ []))) }
    ensures kept { OnErr result (changes.new.items ≡ changes.old.items) }
{
    let name = String::from_str(alloc, name)?;
    let gone = String::from_str(alloc, gone)?;
    changes.push(Change { name, bytes, gone })?;
    Ok(())
}

// The file of a name after one change more.
fn found_after(
    alloc: Global,
    change: &Change,
    name: &str,
    found: Option<Vec<u8>>,
) -> Result<Option<Vec<u8>>, AllocError>
    ensures { IfOk result (λ now. bytes_of now ≡ after change.now (λ _. bytes_of found) name.now) }
{
    if change.name.as_str() == name {
        return match &change.bytes {
            Some(bytes) => Ok(Some(bytes.to_vec(alloc)?)),
            None => Ok(None),
        };
    }
    if change.gone.as_str() == name {
        return Ok(None);
    }
    Ok(found)
}

// The bytes of the file of this name.
fn bytes_at(alloc: Global, changes: &[Change], name: &str) -> Result<Option<Vec<u8>>, AllocError>
    ensures { IfOk result (λ found. bytes_of found ≡ look_of changes.now name.now) }
{
    let mut found: Option<Vec<u8>> = None;
    for change in changes {
        found = found_after(alloc, change, name, found)?;
    }
    Ok(found)
}

// Adds a name that has a file, unless the list has it.
fn add_name(
    alloc: Global,
    changes: &[Change],
    name: &String,
    names: &mut Vec<String>,
) -> Result<(), AllocError>
    ensures { OnOk result ((others : List (List ℕ))
        → AreNamesAmong (look_of changes.now) others (map string_bytes names.old.items)
        → AreNamesAmong (look_of changes.now) (others ++ string_bytes name.now ∷ [])
        (map string_bytes names.new.items)) }
{
    if names.contains(name) || bytes_at(alloc, changes, name.as_str())?.is_none() {
        return Ok(());
    }
    names.push(String::from_str(alloc, name.as_str())?)?;
    Ok(())
}

// The names that have a file.
fn names_in(alloc: Global, changes: &[Change]) -> Result<Vec<String>, AllocError>
    ensures { IfOk result (λ names. AreNames (look_of changes.now) (map string_bytes names.items)) }
{
    let mut names = Vec::new(alloc);
    for change in changes {
        add_name(alloc, changes, &change.name, &mut names)?;
    }
    Ok(names)
}

impl MemFolder {
    /// An empty folder.
    pub fn new(alloc: Global) -> MemFolder
        ensures changes { result.changes.items ≡ [] }
        ensures failures { result.failures ≡ 0 }
    {
        MemFolder {
            alloc,
            changes: Vec::new(alloc),
            failures: 0,
        }
    }
}

// The bytes of the file of this name, and these after them.
fn with_bytes(
    alloc: Global,
    changes: &[Change],
    name: &str,
    bytes: &[u8],
) -> Result<Vec<u8>, AllocError>
    ensures { IfOk result (λ all. all.items ≡ unwrap_or (look_of changes.now name.now) [] ++ bytes.now) }
{
    let mut all = match bytes_at(alloc, changes, name)? {
        Some(all) => all,
        None => Vec::new(alloc),
    };
    all.extend_from_slice(bytes)?;
    Ok(all)
}

impl MemFolder {
    // Counts a failed call.
    fn refuse(&mut self) -> io::Result<()>
        ensures fault { IsErr result }
        ensures changes { self.new.changes ≡ self.old.changes }
        ensures count { HasRisen self.old.failures self.new.failures }
    {
        self.failures = self.failures.saturating_add(1);
        Err(io::ErrorKind::OutOfMemory.into())
    }

    // Makes a change, or none for lack of memory.
    fn make(&mut self, name: &str, bytes: Option<Vec<u8>>, gone: &str) -> io::Result<()>
        ensures placed { OnOk result (look_of self.new.changes.items name.now ≡ bytes_of bytes) }
        ensures gone { OnOk result (gone.now ≢ name.now → look_of self.new.changes.items gone.now ≡ None) }
        ensures elsewhere { ElsewhereOfBoth name.now gone.now
            (look_of self.old.changes.items) (look_of self.new.changes.items) }
        ensures kept { OnErr result (self.new.changes.items ≡ self.old.changes.items) }
        ensures time { Elapses (length self.old.changes.items) (length self.new.changes.items)
            (WasSince self.old.changes.items) (WasSince self.new.changes.items) (Is (look_of self.new.changes.items)) }
        ensures count { self.old.failures ≤ self.new.failures }
        ensures fault { OnErr result (HasRisen self.old.failures self.new.failures) }
    {
        match make_change(self.alloc, &mut self.changes, name, bytes, gone) {
            Ok(()) => Ok(()),
            Err(_) => self.refuse(),
        }
    }
}

impl Folder for MemFolder {
    ghost honest = { true };

    ghost seen = { λ m. look_of m.changes.items };

    ghost may_hold = { λ m n bytes. look_of m.changes.items n ≡ Some bytes };

    ghost may_leave = { λ m. Is (look_of m.changes.items) };

    ghost moment = { λ m. length m.changes.items };

    ghost left_since = { λ m. WasSince m.changes.items };

    ghost entry_kept = { λ _ _. Unit {0} };

    ghost trusted = { λ _ _. Unit {0} };

    ghost failures = { λ m. m.failures };

    ghost counts_now = { λ m t c le now. was_now m.changes.items t c le now };

    ghost only_now = { λ m c left. is_now m.changes.items c left };

    ghost seen_may_be_left = { λ m h n. refl };

    ghost entry_leads = { λ m n c h kept left. leads (look_of m.changes.items n) (c n) (left n) };

    fn create(&mut self, name: &str) -> io::Result<()> {
        self.make(name, Some(Vec::new(self.alloc)), name)
    }

    fn append(&mut self, name: &str, bytes: &[u8]) -> io::Result<()> {
        match with_bytes(self.alloc, &self.changes, name, bytes) {
            Ok(all) => self.make(name, Some(all), name),
            Err(_) => self.refuse(),
        }
    }

    fn sync_file(&mut self, _name: &str) -> io::Result<()> {
        Ok(())
    }

    fn rename(&mut self, from: &str, to: &str) -> io::Result<()> {
        match bytes_at(self.alloc, &self.changes, from) {
            Ok(bytes) => self.make(to, bytes, from),
            Err(_) => self.refuse(),
        }
    }

    fn remove(&mut self, name: &str) -> io::Result<()> {
        self.make(name, None, name)
    }

    fn sync(&mut self) -> io::Result<()> {
        Ok(())
    }

    fn is_trusted(&self, _name: &str) -> bool {
        true
    }

    fn is_synced(&self, _name: &str) -> bool {
        true
    }

    fn has_kept_entries(&self) -> bool {
        true
    }
}

impl ReadableFolder for MemFolder {
    type File = MemFile;

    ghost is_readable = { true };

    fn names(&self, alloc: Global) -> io::Result<Vec<String>> {
        Ok(names_in(alloc, &self.changes)?)
    }

    fn read(&self, alloc: Global, name: &str) -> io::Result<Option<Vec<u8>>> {
        Ok(bytes_at(alloc, &self.changes, name)?)
    }

    fn open(&self, alloc: Global, name: &str) -> io::Result<MemFile> {
        let Some(bytes) = bytes_at(alloc, &self.changes, name)? else {
            return Err(io::ErrorKind::NotFound.into());
        };
        match MemFile::new(alloc, bytes) {
            Ok(file) => Ok(file),
            Err(_) => Err(io::ErrorKind::OutOfMemory.into()),
        }
    }
}

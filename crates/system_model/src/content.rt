//! What a system in memory has: the names of files, and their bytes.

ghost use Rattle.std.specs.Prelude.{◌≡◌, ◌≢◌, ◌++◌, ◌∷◌, ◌+◌, ℕ, List, [], Some, None, IsSome, IfOk, IfSome, OnOk};
ghost use Rattle.std.specs.Prelude.{true};
ghost use Rattle.std.specs.Prelude.{string_bytes, unwrap_or};
ghost use Rattle.store_folder.specs.Changes.{look_of};
ghost use Rattle.store_folder.specs.Folder.{Elsewhere, ElsewhereOfBoth};
ghost use Rattle.store_files.specs.Disk.{Change, replay, put};
ghost use Rattle.system_model.specs.Made.{empty};
ghost use Rattle.system_model.specs.System.{Holds, number_in, are_made, change_of};

use std::alloc::{AllocError, Global};
use std::io;
use std::io::ErrorKind;
use store_folder::{Folder, MemFolder, ReadableFolder};

/// A change that is made in the folder. A file is named by its number.
#[derive(Drop)]
pub enum Step {
    Created(String),
    Appended(u64, Vec<u8>),
    FileSynced(u64),
    /// From the first name to the second.
    Moved(String, String),
    Removed(String),
    FolderSynced,
}

impl Step {
    // The same change.
    pub(crate) fn copy(&self, alloc: Global) -> Result<Step, AllocError>
        ensures { IfOk result (λ step. change_of step ≡ change_of self.now) }
    {
        let copy = |name: &String| String::from_str(alloc, name.as_str());
        Ok(match self {
            Step::Created(name) => Step::Created(copy(name)?),
            Step::Appended(number, bytes) => Step::Appended(*number, bytes.to_vec(alloc)?),
            Step::FileSynced(number) => Step::FileSynced(*number),
            Step::Moved(from, to) => Step::Moved(copy(from)?, copy(to)?),
            Step::Removed(name) => Step::Removed(copy(name)?),
            Step::FolderSynced => Step::FolderSynced,
        })
    }
}

/// Which file has a name from here on, or that none has.
#[derive(Drop)]
pub struct NamedFile {
    name: String,
    number: Option<u64>,
}

/// The names of the files, and the bytes of those that have one.
#[derive(Drop)]
pub struct Content {
    pub(crate) names: Vec<NamedFile>,
    pub(crate) files: MemFolder,
    // The number of the next change.
    next: u64,
}

/// The number of the file of a name.
pub(crate) fn number_of(names: &[NamedFile], name: &str) -> Option<u64>
    ensures { result ≡ number_in names.now name.now None }
{
    let mut found = None;
    for file in names {
        if file.name.as_str() == name {
            found = file.number;
        }
    }
    found
}

/// The name of the file of a number, if it has one.
pub(crate) fn name_of(
    alloc: Global,
    names: &[NamedFile],
    number: u64,
) -> Result<Option<String>, AllocError>
    ensures { IfOk result (λ found. IfSome found (λ name. number_in names.now (string_bytes name) None
        ≡ Some number)) }
{
    for file in names {
        if number_of(names, file.name.as_str()) == Some(number) {
            return Ok(Some(String::from_str(alloc, file.name.as_str())?));
        }
    }
    Ok(None)
}

// Keeps which file has a name.
fn put_number(
    alloc: Global,
    names: &mut Vec<NamedFile>,
    name: &str,
    number: Option<u64>,
) -> Result<(), AllocError>
    ensures { OnOk result ((n : List ℕ) → number_in names.new.items n None
        ≡ put name.now number (λ m. number_in names.old.items m None) n) }
{
    let name = String::from_str(alloc, name)?;
    names.push(NamedFile { name, number })?;
    Ok(())
}

impl Content {
    /// No files.
    pub(crate) fn new(alloc: Global) -> Content
        ensures { Holds result empty }
    {
        Content {
            names: Vec::new(alloc),
            files: MemFolder::new(alloc),
            next: 0,
        }
    }

    // Makes an empty file of this name, or empties the one that has it.
    fn create(&mut self, alloc: Global, name: &str, next: u64) -> io::Result<()>
        ensures names { OnOk result ((n : List ℕ) → number_in self.new.names.items n None ≡ put name.now
            (Some (unwrap_or (number_in self.old.names.items name.now None) self.old.next))
            (λ m. number_in self.old.names.items m None) n) }
        ensures made { OnOk result (look_of self.new.files.changes.items name.now ≡ Some []) }
        ensures elsewhere { OnOk result (Elsewhere name.now
            (look_of self.old.files.changes.items) (look_of self.new.files.changes.items)) }
        ensures next { OnOk result (self.new.next ≡ next) }
    {
        let number = number_of(&self.names, name).unwrap_or(self.next);
        self.files.create(name)?;
        put_number(alloc, &mut self.names, name, Some(number))?;
        self.next = next;
        Ok(())
    }

    // Writes bytes at the end of the file of this name.
    fn append_to(&mut self, alloc: Global, name: &str, bytes: &[u8], next: u64) -> io::Result<()>
        ensures names { OnOk result (self.new.names ≡ self.old.names) }
        ensures written { OnOk result (look_of self.new.files.changes.items name.now
            ≡ Some (unwrap_or (look_of self.old.files.changes.items name.now) [] ++ bytes.now)) }
        ensures elsewhere { OnOk result (Elsewhere name.now
            (look_of self.old.files.changes.items) (look_of self.new.files.changes.items)) }
        ensures next { OnOk result (self.new.next ≡ next) }
    {
        if self.files.read(alloc, name)?.is_none() {
            return Err(ErrorKind::NotFound.into());
        }
        self.files.append(name, bytes)?;
        self.next = next;
        Ok(())
    }

    // Gives a file another name.
    fn rename(&mut self, alloc: Global, from: &str, to: &str, next: u64) -> io::Result<()>
        ensures names { OnOk result ((n : List ℕ) → number_in self.new.names.items n None ≡ put to.now
            (number_in self.old.names.items from.now None)
            (put from.now None (λ m. number_in self.old.names.items m None)) n) }
        ensures there { OnOk result (IsSome (number_in self.old.names.items from.now None)) }
        ensures apart { OnOk result (from.now ≢ to.now) }
        ensures renamed { OnOk result (look_of self.new.files.changes.items to.now
            ≡ look_of self.old.files.changes.items from.now) }
        ensures gone { OnOk result (look_of self.new.files.changes.items from.now ≡ None) }
        ensures elsewhere { OnOk result (ElsewhereOfBoth from.now to.now
            (look_of self.old.files.changes.items) (look_of self.new.files.changes.items)) }
        ensures next { OnOk result (self.new.next ≡ next) }
    {
        if from == to {
            return Err(ErrorKind::InvalidInput.into());
        }
        let Some(number) = number_of(&self.names, from) else {
            return Err(ErrorKind::NotFound.into());
        };
        if self.files.read(alloc, from)?.is_none() {
            return Err(ErrorKind::NotFound.into());
        }
        self.files.rename(from, to)?;
        put_number(alloc, &mut self.names, from, None)?;
        put_number(alloc, &mut self.names, to, Some(number))?;
        self.next = next;
        Ok(())
    }

    // Removes the name of a file.
    fn remove(&mut self, alloc: Global, name: &str, next: u64) -> io::Result<()>
        ensures names { OnOk result ((n : List ℕ) → number_in self.new.names.items n None
            ≡ put name.now None (λ m. number_in self.old.names.items m None) n) }
        ensures removed { OnOk result (look_of self.new.files.changes.items name.now ≡ None) }
        ensures elsewhere { OnOk result (Elsewhere name.now
            (look_of self.old.files.changes.items) (look_of self.new.files.changes.items)) }
        ensures next { OnOk result (self.new.next ≡ next) }
    {
        self.files.remove(name)?;
        put_number(alloc, &mut self.names, name, None)?;
        self.next = next;
        Ok(())
    }

    // Writes bytes at the end of a file.
    fn append(&mut self, alloc: Global, number: u64, bytes: &[u8], next: u64) -> io::Result<()>
        ensures { OnOk result ((name : List ℕ) × (number_in self.old.names.items name None ≡ Some number)
            × (self.new.names ≡ self.old.names)
            × (look_of self.new.files.changes.items name
            ≡ Some (unwrap_or (look_of self.old.files.changes.items name) [] ++ bytes.now))
            × Elsewhere name (look_of self.old.files.changes.items) (look_of self.new.files.changes.items)
            × (self.new.next ≡ next)) }
    {
        match name_of(alloc, &self.names, number)? {
            Some(name) => self.append_to(alloc, name.as_str(), bytes, next),
            None => Err(ErrorKind::NotFound.into()),
        }
    }

    // Notes a sync, which changes nothing that is seen.
    fn pass(&mut self, next: u64) -> io::Result<()>
        ensures names { self.new.names ≡ self.old.names }
        ensures files { self.new.files ≡ self.old.files }
        ensures next { self.new.next ≡ next }
    {
        self.next = next;
        Ok(())
    }

    /// Makes a change. After an error nothing is known of the content.
    pub(crate) fn apply(&mut self, alloc: Global, step: &Step) -> io::Result<()>
        ensures { OnOk result ((earlier : List Change) → are_made earlier ≡ true
            → Holds self.old (replay earlier empty) → Holds self.new (replay (change_of step.now ∷ earlier) empty)
            × (are_made (change_of step.now ∷ earlier) ≡ true)) }
    {
        let Some(next) = self.next.checked_add(1) else {
            return Err(ErrorKind::OutOfMemory.into());
        };
        match step {
            Step::Created(name) => {
                self.create(alloc, name.as_str(), next)?;
                Ok(())
            }
            Step::Appended(number, bytes) => {
                self.append(alloc, *number, bytes, next)?;
                Ok(())
            }
            Step::FileSynced(_) => self.pass(next),
            Step::FolderSynced => self.pass(next),
            Step::Moved(from, to) => {
                self.rename(alloc, from.as_str(), to.as_str(), next)?;
                Ok(())
            }
            Step::Removed(name) => {
                self.remove(alloc, name.as_str(), next)?;
                Ok(())
            }
        }
    }
}

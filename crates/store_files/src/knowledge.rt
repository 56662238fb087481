//! What a writer knows of the files of its folder: by the mark that it found, and by what it did since.

ghost use Rattle.std.specs.Prelude.{◌≡◌, ◌≢◌, ◌↔◌, ℕ, List, ◌≤◌, [], true, false, if◌then◌else◌, nat_eq};
ghost use Rattle.std.specs.Prelude.{IsTrue, IfOk, OnOk};
ghost use lib.Pointwise.{pointwise};
ghost use Rattle.store_files.specs.Knowledge.{is_part, untouched, standing_in, said, unless_failed};
ghost use Rattle.store_files.specs.Knowledge.{with_standing, passed_to, moved, after, entries_after, rank, IsOf};
ghost use Rattle.store_files.specs.Mark.{claimed, others_of, claims_entries, named};

use crate::mark::{Mark, MarkKind};
use std::alloc::{AllocError, Global};

/// What is known of the bytes of a file.
#[derive(Clone, Copy, PartialEq, Eq)]
pub enum Standing {
    /// A sync of the file failed, or may have.
    Failed,
    /// They may not be on the disk, and no sync has failed.
    Unsynced,
    /// They are on the disk, and no sync has failed.
    Synced,
}

impl Standing {
    // How much is known.
    fn rank(self) -> u8
        ensures { result ≡ rank self }
    {
        match self {
            Standing::Failed => 0,
            Standing::Unsynced => 1,
            Standing::Synced => 2,
        }
    }
}

/// What was done to a folder, under which names.
#[derive(Clone, Copy)]
pub enum Doing<'a> {
    Created(&'a str),
    Appended(&'a str),
    /// From the first name to the second.
    Moved(&'a str, &'a str),
    Removed(&'a str),
    FileSynced(&'a str),
    SyncFailed(&'a str),
    FolderSynced,
}

/// A file that was touched.
#[derive(Drop)]
pub struct TouchedFile {
    name: Vec<u8>,
    standing: Standing,
}

/// What a writer knows of its folder. Where memory runs out, nothing is known of any file from then on, but of those
/// that are made.
#[derive(Drop)]
pub struct Knowledge {
    // What is known of the files that were not touched. A sync of them has failed only where memory ran out.
    others: Standing,
    touched: Vec<TouchedFile>,
    has_kept_entries: bool,
}

/// Whether a file of this name lies beside another: nothing is known of it, but of one that this writer made.
pub(crate) fn is_beside(name: &[u8]) -> bool
    ensures { result ≡ is_part name.now }
{
    name.ends_with(b".part")
}

// What is known of a file that was not touched.
fn untouched_standing(others: Standing, name: &[u8]) -> Standing
    ensures { result ≡ untouched others name.now }
{
    if is_beside(name) {
        return Standing::Failed;
    }
    others
}

// What is known of a file.
fn standing_of(touched: &[TouchedFile], others: Standing, name: &[u8]) -> Standing
    ensures { result ≡ standing_in others touched.now name.now }
{
    for file in touched {
        if file.name.as_slice() == name {
            return file.standing;
        }
    }
    untouched_standing(others, name)
}

// Forgets a file.
fn forget(touched: &mut Vec<TouchedFile>, name: &[u8])
    ensures { (others : Standing) (n : List ℕ) → standing_in others touched.new.items n
        ≡ (if pointwise nat_eq name.now n then untouched others n else standing_in others touched.old.items n) }
{
    touched.retain(|file| file.name.as_slice() != name);
}

// Keeps what is known of a file.
fn put(
    alloc: Global,
    touched: &mut Vec<TouchedFile>,
    name: &[u8],
    standing: Standing,
) -> Result<(), AllocError>
    ensures { OnOk result ((others : Standing) (n : List ℕ) → standing_in others touched.new.items n
        ≡ (if pointwise nat_eq name.now n then standing else standing_in others touched.old.items n)) }
{
    touched.retain(|file| file.name.as_slice() != name);
    let name = name.to_vec(alloc)?;
    touched.push(TouchedFile { name, standing })?;
    Ok(())
}

// The standing of a file that is written or synced: a sync that failed counts until the file is made again.
fn unless_failed_before(old: Standing, new: Standing) -> Standing
    ensures { result ≡ unless_failed old new }
{
    if old == Standing::Failed {
        return old;
    }
    new
}

// What is known of the files of these names, of which a sync may have failed.
fn touched_by_names(alloc: Global, names: &[Vec<u8>]) -> Result<Vec<TouchedFile>, AllocError>
    ensures { IfOk result (λ touched. (others : Standing) (n : List ℕ) → standing_in others touched.items n
        ≡ (if named names.now n then Standing.Failed else untouched others n)) }
{
    let mut touched = Vec::new(alloc);
    for name in names {
        put(alloc, &mut touched, name, Standing::Failed)?;
    }
    Ok(touched)
}

// Adds the name of a file of which less is known than of the others.
fn add_if_less(
    alloc: Global,
    file: &TouchedFile,
    others: Standing,
    names: &mut Vec<Vec<u8>>,
) -> Result<(), AllocError>
    ensures { OnOk result ((n : List ℕ) → is_part n ≡ false → named names.new.items n ≡ false
        → (named names.old.items n ≡ false)
        × (pointwise nat_eq file.now.name.items n ≡ true → rank others ≤ rank file.now.standing)) }
{
    if file.standing.rank() >= others.rank() {
        return Ok(());
    }
    if is_beside(&file.name) {
        return Ok(());
    }
    let name = file.name.to_vec(alloc)?;
    names.push(name)?;
    Ok(())
}

// The names of the files of which less is known than of the others.
fn names_of_less(
    alloc: Global,
    touched: &[TouchedFile],
    others: Standing,
) -> Result<Vec<Vec<u8>>, AllocError>
    ensures { IfOk result (λ names. (n : List ℕ) → is_part n ≡ false → named names.items n ≡ false
        → rank others ≤ rank (standing_in others touched.now n)) }
{
    let mut names = Vec::new(alloc);
    for file in touched {
        add_if_less(alloc, file, others, &mut names)?;
    }
    Ok(names)
}

impl Knowledge {
    /// Nothing.
    pub(crate) fn none(alloc: Global) -> Knowledge
        ensures files { (n : List ℕ) → said result n ≡ Standing.Failed }
        ensures entries { result.has_kept_entries ≡ false }
    {
        Knowledge {
            others: Standing::Failed,
            touched: Vec::new(alloc),
            has_kept_entries: false,
        }
    }

    /// What a writer knows that finds this mark.
    pub fn after(alloc: Global, mark: &Mark) -> Result<Knowledge, AllocError>
        ensures files { IfOk result (λ k. (n : List ℕ) → said k n ≡ claimed mark.now n) }
        ensures others { IfOk result (λ k. k.others ≡ others_of mark.now.kind) }
        ensures entries { IfOk result (λ k. k.has_kept_entries ≡ claims_entries mark.now.kind) }
    {
        Ok(Knowledge {
            others: mark.kind.others(),
            touched: touched_by_names(alloc, &mark.names)?,
            has_kept_entries: mark.kind == MarkKind::Ended,
        })
    }

    /// What is known of the files that were not touched: that a sync failed only where memory ran out.
    pub(crate) fn others(&self) -> Standing
        ensures { result ≡ self.now.others }
    {
        self.others
    }

    /// The names of the files of which less is known than of the others.
    pub(crate) fn lesser_names(&self, alloc: Global) -> Result<Vec<Vec<u8>>, AllocError>
        ensures { IfOk result (λ names. (n : List ℕ) → is_part n ≡ false → named names.items n ≡ false
            → rank self.now.others ≤ rank (said self.now n)) }
    {
        names_of_less(alloc, &self.touched, self.others)
    }

    /// Forgets that entries are on the disk, before a call that changes some.
    pub(crate) fn doubt_entries(&mut self)
        ensures files { (n : List ℕ) → said self.new n ≡ said self.old n }
        ensures others { self.new.others ≡ self.old.others }
        ensures entries { self.new.has_kept_entries ≡ false }
    {
        self.has_kept_entries = false;
    }

    /// Keeps that a file may have another name: then no more is known of the file of that name than of this one.
    pub(crate) fn doubt_move(&mut self, alloc: Global, from: &str, to: &str)
        ensures files { (n : List ℕ) → rank (said self.new n) ≤ rank (said self.old n) }
        ensures moved { rank (said self.new to.now) ≤ rank (said self.new from.now) }
        ensures entries { self.new.has_kept_entries ≡ self.old.has_kept_entries }
    {
        if !self.is_synced(from) {
            self.note(alloc, &Doing::SyncFailed(to));
        }
    }

    // Nothing is known from now on, as memory ran out.
    fn lose(&mut self)
        ensures others { self.new.others ≡ Standing.Failed }
        ensures touched { self.new.touched.items ≡ [] }
        ensures entries { self.new.has_kept_entries ≡ self.old.has_kept_entries }
    {
        self.others = Standing::Failed;
        self.touched.clear();
    }

    /// What is known of the bytes of this file.
    pub fn standing(&self, name: &str) -> Standing
        ensures { result ≡ said self.now name.now }
    {
        standing_of(&self.touched, self.others, name.as_bytes())
    }

    /// Whether it is known that no sync of this file has failed.
    pub fn is_trusted(&self, name: &str) -> bool
        ensures { IsTrue result ↔ (said self.now name.now ≢ Standing.Failed) }
    {
        self.standing(name) != Standing::Failed
    }

    /// Whether it is known that the bytes of this file are on the disk, and that no sync of it has failed.
    pub fn is_synced(&self, name: &str) -> bool
        ensures { IsTrue result ↔ (said self.now name.now ≡ Standing.Synced) }
    {
        self.standing(name) == Standing::Synced
    }

    /// Whether it is known that the entry of each name is on the disk.
    pub fn has_kept_entries(&self) -> bool
        ensures { result ≡ self.now.has_kept_entries }
    {
        self.has_kept_entries
    }

    // Keeps what is known of a file.
    fn set(&mut self, alloc: Global, name: &str, standing: Standing)
        ensures kept { IsOf self.old.others (with_standing name.now standing (said self.old))
            self.new.others (said self.new) }
        ensures entries { self.new.has_kept_entries ≡ self.old.has_kept_entries }
    {
        match put(alloc, &mut self.touched, name.as_bytes(), standing) {
            Ok(()) => {}
            Err(_) => self.lose(),
        }
    }

    // Keeps that a file was written or synced.
    fn pass_to(&mut self, alloc: Global, name: &str, standing: Standing)
        ensures kept { IsOf self.old.others (passed_to name.now standing (said self.old))
            self.new.others (said self.new) }
        ensures entries { self.new.has_kept_entries ≡ self.old.has_kept_entries }
    {
        let old = self.standing(name);
        self.set(alloc, name, unless_failed_before(old, standing));
    }

    // Keeps that a file has another name.
    fn rename(&mut self, alloc: Global, from: &str, to: &str)
        ensures kept { IsOf self.old.others (moved from.now to.now self.old.others (said self.old))
            self.new.others (said self.new) }
        ensures entries { self.new.has_kept_entries ≡ self.old.has_kept_entries }
    {
        let standing = self.standing(from);
        forget(&mut self.touched, from.as_bytes());
        self.set(alloc, to, standing);
    }

    /// Keeps what was done.
    pub fn note(&mut self, alloc: Global, doing: &Doing<'_>)
        ensures files { IsOf self.old.others (after doing.now self.old.others (said self.old))
            self.new.others (said self.new) }
        ensures entries { self.new.has_kept_entries ≡ entries_after doing.now self.old.has_kept_entries }
    {
        match *doing {
            Doing::Created(name) => {
                self.has_kept_entries = false;
                self.set(alloc, name, Standing::Unsynced)
            }
            Doing::Moved(from, to) => {
                self.has_kept_entries = false;
                self.rename(alloc, from, to)
            }
            Doing::Removed(name) => {
                self.has_kept_entries = false;
                forget(&mut self.touched, name.as_bytes())
            }
            Doing::Appended(name) => self.pass_to(alloc, name, Standing::Unsynced),
            Doing::FileSynced(name) => self.pass_to(alloc, name, Standing::Synced),
            Doing::SyncFailed(name) => self.set(alloc, name, Standing::Failed),
            Doing::FolderSynced => self.has_kept_entries = true,
        }
    }
}

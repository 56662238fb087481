//! A folder on disk that has one writer.

ghost use Rattle.std.specs.Prelude.{◌≡◌, ◌≢◌, ◌≤◌, ℕ, List, [], Some, IsTrue, false, IfOk, IfErr, OnErr, string_bytes};
ghost use Rattle.std.specs.IoError.{error_kind};
ghost use Rattle.store_base.specs.Counts.{HasRisen};
ghost use Rattle.store_files.specs.Disk.{replay, seen, held, trusts};
ghost use Rattle.store_files.specs.Paths.{IsPath};

use crate::create_error::CreateError;
use crate::lock_mark::{LockMark, is_left_synced};
use crate::locking::{folder_of, is_blocked, locked, open_folder};
use crate::open_file::{KeptFile, sync_cut};
use crate::output_folder::Output;
use crate::paths::{lock_path_of, path_of};
use crate::system_files::SystemFiles;
use std::alloc::Global;
use std::io;
use std::io::ErrorKind;
use std::marker::Model;
use store_folder::Folder;

/// A folder of the system. Its names are those of plain files in it. Its file `lock` is locked as long as the folder is
/// open, and is never renamed or removed, so a second writer is refused at once. The file that was written last stays
/// open: an append is one write, and the sync of a file one call.
///
/// A mark in `lock` tells the next writer of this start of the machine whether this one ended well. If it did, no file
/// needs a sync. If it did not, the files are known of which a sync may have failed.
///
/// One that was opened for an output has no file `lock` and no mark: its lock is the file beside. One that was opened
/// to be read has no lock, and refuses each change.
///
/// It keeps the promises of `Folder` if the system keeps those of `SystemFiles`.
pub struct DiskFolder<S: SystemFiles> {
    pub(crate) system: S,
    pub(crate) alloc: Global,
    pub(crate) path: String,
    pub(crate) folder: S::File,
    pub(crate) open_file: Option<KeptFile<S::File>>,
    pub(crate) mark: LockMark<S>,
    /// None, unless it was opened for an output.
    pub(crate) output: Option<Output>,
    pub(crate) failures: u64,
}

/// Clauses see the system, the path, whether it is locked, open to be read alone and keeps a mark, and how often a call
/// failed.
impl<S: SystemFiles> Model for DiskFolder<S> {
    ghost use Rattle.std.specs.Prelude.{◌≡◌, [], IsTrue, IfSome, true, false, is_some, not, option_map, string_bytes};
    ghost use Rattle.std.specs.Prelude.{unwrap_or};
    ghost use Rattle.store_files.specs.Disk.{replay};
    ghost use Rattle.store_files.specs.Knowledge.{said};
    ghost use Rattle.store_files.specs.Opened.{Opened, IsReady, IsTracked, IsMarked};

    ghost Value = { Opened S };

    ghost view = { λ f. record {
      system = f.system;
      path = string_bytes f.path;
      is_locked = unwrap_or (option_map S.is_locked f.mark.lock) false;
      is_read_only = not (is_some f.mark.lock);
      keeps_mark = f.mark.is_kept;
      failures = f.failures;
    } };

    ghost invariant = { λ f. IsTrue S.honest
        → (IsReady (replay (S.changes f.system (string_bytes f.path)) (S.start (string_bytes f.path)))
        (string_bytes f.path) (S.opened_as f.folder) (said f.mark.knowledge) f.mark.knowledge.has_kept_entries)
        × IfSome f.open_file (λ o. IsTracked
        (replay (S.changes f.system (string_bytes f.path)) (S.start (string_bytes f.path))) (string_bytes f.path)
        (string_bytes o.name) (S.opened_as o.file) (S.number o.file))
        × (not (is_some f.mark.lock) ≡ true → S.was_so f.system (string_bytes f.path))
        × (f.mark.is_kept ≡ true → IsMarked (option_map S.locks f.mark.lock) (option_map S.place f.mark.lock)
        (S.was_so f.system (string_bytes f.path)) (S.claims f.system (string_bytes f.path))
        (replay (S.changes f.system (string_bytes f.path)) (S.start (string_bytes f.path))) (string_bytes f.path)
        f.mark.boot.items (string_bytes f.mark.inode) f.mark.mark) };
}

// Counts a call that failed.
fn count(failures: &mut u64, outcome: io::Result<()>) -> io::Result<()>
    ensures same { result ≡ outcome }
    ensures count { failures.old ≤ failures.new }
    ensures fault { OnErr result (HasRisen failures.old failures.new) }
{
    if outcome.is_err() {
        *failures = failures.saturating_add(1);
    }
    outcome
}

impl<S: SystemFiles> DiskFolder<S> {
    /// Makes the folder of this path, unless it is there, and opens it. The folder that it is in is synced.
    ///
    /// # Errors
    ///
    /// `Busy` where another has it open, and those of the system.
    pub fn create(alloc: Global, system: S, path: &str) -> Result<DiskFolder<S>, CreateError>
        requires unchanged { IsTrue S.honest → S.changes system path.now ≡ [] }
        ensures path { IfOk result (λ f. f.path ≡ path.now) }
        ensures locked { IfOk result (λ f. IsTrue f.is_locked) }
        ensures writable { IfOk result (λ f. f.is_read_only ≡ false) }
        ensures marked { IfOk result (λ f. IsTrue f.keeps_mark) }
        ensures failures { IfOk result (λ f. f.failures ≡ 0) }
        ensures seen { IsTrue S.honest → IfOk result (λ f. seen (replay (S.changes f.system f.path) (S.start f.path))
            ≡ seen (S.start path.now)) }
    {
        match system.make_folder(path) {
            Ok(()) => {}
            Err(error) if error.kind() == ErrorKind::AlreadyExists => {}
            Err(error) => return Err(CreateError::System(error)),
        }
        let mut folder = DiskFolder::open(alloc, system, path)?;
        folder.sync_above()?;
        Ok(folder)
    }

    // Syncs the folder that this one is in.
    fn sync_above(&mut self) -> Result<(), CreateError>
        ensures path { self.new.path ≡ self.old.path }
        ensures locked { self.new.is_locked ≡ self.old.is_locked }
        ensures writable { self.new.is_read_only ≡ self.old.is_read_only }
        ensures marked { self.new.keeps_mark ≡ self.old.keeps_mark }
        ensures failures { self.new.failures ≡ self.old.failures }
        ensures seen { IsTrue S.honest → seen (replay (S.changes self.new.system self.old.path) (S.start self.old.path))
            ≡ seen (replay (S.changes self.old.system self.old.path) (S.start self.old.path)) }
    {
        let above = open_folder(&self.system, folder_of(self.path.trim_end_matches('/')))?;
        self.mark.check_lock()?;
        self.system.sync_folder(&above).map_err(CreateError::from)
    }

    /// Opens the folder of this path.
    ///
    /// # Errors
    ///
    /// `Busy` where another has it open, `Blocked` where `lock` is no plain file, and those of the system.
    pub fn open(alloc: Global, system: S, path: &str) -> Result<DiskFolder<S>, CreateError>
        requires unchanged { IsTrue S.honest → S.changes system path.now ≡ [] }
        ensures system { IfOk result (λ f. f.system ≡ system) }
        ensures path { IfOk result (λ f. f.path ≡ path.now) }
        ensures locked { IfOk result (λ f. IsTrue f.is_locked) }
        ensures writable { IfOk result (λ f. f.is_read_only ≡ false) }
        ensures marked { IfOk result (λ f. IsTrue f.keeps_mark) }
        ensures failures { IfOk result (λ f. f.failures ≡ 0) }
    {
        let folder = system.open_folder(path)?;
        let lock_path = lock_path_of(alloc, path)?;
        let lock = locked(alloc, &system, lock_path.as_str())?;
        let found = system.find_mark(alloc, &lock, lock_path.as_str(), path)?;
        let mark = LockMark::of(alloc, Some(lock), found)?;
        let path = String::from_str(alloc, path).map_err(io::Error::from)?;
        Ok(DiskFolder {
            system,
            alloc,
            path,
            folder,
            open_file: None,
            mark,
            output: None,
            failures: 0,
        })
    }

    /// Opens the folder of this path to read it alone: without a lock, beside a writer. Each call that would change
    /// something is refused, as `PermissionDenied`.
    ///
    /// # Errors
    ///
    /// Those of the system.
    pub fn open_to_read(alloc: Global, system: S, path: &str) -> io::Result<DiskFolder<S>>
        requires so { IsTrue S.honest → S.was_so system path.now }
        ensures system { IfOk result (λ f. f.system ≡ system) }
        ensures path { IfOk result (λ f. f.path ≡ path.now) }
        ensures read_only { IfOk result (λ f. IsTrue f.is_read_only) }
        ensures failures { IfOk result (λ f. f.failures ≡ 0) }
    {
        let folder = system.open_folder(path)?;
        let path = String::from_str(alloc, path)?;
        Ok(DiskFolder {
            system,
            alloc,
            path,
            folder,
            open_file: None,
            mark: LockMark::none(alloc, None),
            output: None,
            failures: 0,
        })
    }

    /// Whether it is open to be read alone. Then what its mark claims was so at each moment.
    pub fn is_read_only(&self) -> bool
        ensures answer { result ≡ self.now.is_read_only }
        ensures so { IsTrue S.honest → IsTrue result → S.was_so self.now.system self.now.path }
    {
        self.mark.lock.is_none()
    }

    /// Whether it leaves a mark for the next writer. What the mark claims was so at each moment since it was opened.
    pub fn keeps_mark(&self) -> bool
        ensures answer { result ≡ self.now.keeps_mark }
        ensures so { IsTrue S.honest → IsTrue result → S.was_so self.now.system self.now.path }
    {
        self.mark.is_kept
    }

    /// The system that it is in.
    pub fn system(&self) -> &S
        ensures { result.now ≡ self.now.system }
    {
        &self.system
    }

    /// The path of the file of this name.
    ///
    /// # Errors
    ///
    /// `InvalidInput` for what is no name of a file in a folder, and for that of the lock.
    pub fn path_at(&self, name: &str) -> io::Result<String>
        ensures kind { IfErr result (λ e. error_kind e ≢ ErrorKind.NotFound) }
        ensures path { IfOk result (λ path. IsPath self.now.path name.now (string_bytes path)) }
    {
        path_of(self.alloc, self.path.as_str(), name)
    }

    /// The path of the file of this name. What is there and is no plain file is refused: a pipe would be waited for,
    /// and what a link leads to is no file of the folder.
    pub(crate) fn path_of(&self, name: &str) -> io::Result<String>
        ensures kind { IfErr result (λ e. error_kind e ≢ ErrorKind.NotFound) }
        ensures path { IfOk result (λ path. IsPath self.now.path name.now (string_bytes path)) }
    {
        let path = self.path_at(name)?;
        if is_blocked(&self.system, path.as_str()) {
            return Err(ErrorKind::InvalidInput.into());
        }
        Ok(path)
    }

    // Whether the last writer left this file on the disk. Where that can't be read it is not known.
    fn is_left_synced(&self, name: &str) -> bool
        requires so { IsTrue S.honest → S.was_so self.now.system self.now.path }
        ensures trusted { IsTrue S.honest → IsTrue result
            → trusts (replay (S.changes self.now.system self.now.path) (S.start self.now.path)) name.now }
        ensures durable { IsTrue S.honest → IsTrue result → (bytes : List ℕ)
            → held (replay (S.changes self.now.system self.now.path) (S.start self.now.path)) name.now bytes
            → seen (replay (S.changes self.now.system self.now.path) (S.start self.now.path)) name.now ≡ Some bytes }
    {
        match is_left_synced(&self.system, self.alloc, self.path.as_str(), name) {
            Ok(is) => is,
            Err(_) => false,
        }
    }
}

impl<S: SystemFiles> Folder for DiskFolder<S> {
    ghost use Rattle.store_files.specs.Disk.{replay, seen, held, trusts};

    ghost honest = { S.honest };

    ghost seen = { λ f. seen (replay (S.changes f.system f.path) (S.start f.path)) };

    ghost may_hold = { λ f. held (replay (S.changes f.system f.path) (S.start f.path)) };

    ghost may_leave = { λ f. (replay (S.changes f.system f.path) (S.start f.path)).leaves };

    ghost moment = { λ f. (replay (S.changes f.system f.path) (S.start f.path)).moment };

    ghost left_since = { λ f. (replay (S.changes f.system f.path) (S.start f.path)).left_since };

    ghost entry_kept = { λ f. (replay (S.changes f.system f.path) (S.start f.path)).kept };

    ghost trusted = { λ f. trusts (replay (S.changes f.system f.path) (S.start f.path)) };

    ghost failures = { λ f. f.failures };

    ghost counts_now = { λ f. (S.sound f.system f.path).counts_now };

    ghost only_now = { λ f. (S.sound f.system f.path).only_now };

    ghost seen_may_be_left = { λ f h. ((S.sound f.system f.path).possible h).look };

    ghost entry_leads = { λ f n c h. ((S.sound f.system f.path).possible h).leads n c };

    fn create(&mut self, name: &str) -> io::Result<()> {
        let outcome = self.make(name);
        count(&mut self.failures, outcome)
    }

    fn append(&mut self, name: &str, bytes: &[u8]) -> io::Result<()> {
        let outcome = self.write(name, bytes);
        count(&mut self.failures, outcome)
    }

    fn sync_file(&mut self, name: &str) -> io::Result<()> {
        let outcome = self.sync_one(name);
        count(&mut self.failures, outcome)
    }

    fn rename(&mut self, from: &str, to: &str) -> io::Result<()> {
        let outcome = self.move_file(from, to);
        count(&mut self.failures, outcome)
    }

    fn remove(&mut self, name: &str) -> io::Result<()> {
        let outcome = self.remove_file(name);
        count(&mut self.failures, outcome)
    }

    fn sync(&mut self) -> io::Result<()> {
        let outcome = self.sync_entries();
        count(&mut self.failures, outcome)
    }

    fn is_trusted(&self, name: &str) -> bool {
        self.mark.knowledge.is_trusted(name)
    }

    fn is_synced(&self, name: &str) -> bool {
        // What is known is asked for now, where a writer may be at work beside.
        if self.is_read_only() {
            return self.is_left_synced(name);
        }
        self.mark.knowledge.is_synced(name)
    }

    fn has_kept_entries(&self) -> bool {
        self.mark.knowledge.has_kept_entries()
    }
}

/// The mark tells what is on the disk.
impl<S: SystemFiles> Drop for DiskFolder<S> {
    fn drop(self) {
        let DiskFolder {
            mut system,
            alloc,
            path,
            folder: _folder,
            open_file,
            mut mark,
            output,
            failures: _,
        } = self;
        if let Some(output) = output {
            return output.remove_beside(&mut system, &mark);
        }
        if let Some(open) = open_file {
            sync_cut(alloc, &mut system, &mut mark, &open);
        }
        if mark.has_end() {
            if let Ok(names) = system.names(alloc, path.as_str()) {
                let _ = mark.end(&mut system, &names);
            }
        }
    }
}

//! The calls by which the files of a folder are changed.

ghost use Rattle.std.specs.Prelude.{◌≡◌, ◌≢◌, ◌⊎◌, IsTrue, IsSomeAnd, IfSome, IfOk, OnOk, false, is_ok, string_bytes};
ghost use Rattle.store_files.specs.Disk.{replay};
ghost use Rattle.store_files.specs.Steps.{Creates, Appends, SyncsFile, Renames, Removes, SyncsEntries};
ghost use Rattle.store_files.specs.Opened.{IsTracked};
ghost use Rattle.store_files.specs.Known.{AreSo};
ghost use Rattle.store_files.specs.Mark.{Permits};

use crate::disk_folder::DiskFolder;
use crate::knowledge::Doing;
use crate::open_file::{KeptFile, append};
use crate::system_files::SystemFiles;
use std::io;
use std::io::ErrorKind;

// The file that is open, under its new name, if it was renamed. One that was replaced is not open any more.
fn renamed<F: Drop>(
    open_file: Option<KeptFile<F>>,
    from: &str,
    to: &str,
    name: String,
) -> Option<KeptFile<F>>
    ensures { IfSome result (λ o. IsSomeAnd open_file (λ was. (o.file ≡ was.file)
        × (((string_bytes was.name ≡ from.now) × (o.name ≡ name)) ⊎ ((string_bytes was.name ≢ from.now)
        × (string_bytes was.name ≢ to.now) × (o.name ≡ was.name))))) }
{
    let KeptFile {
        name: old_name,
        file,
        can_append,
        is_cut,
    } = open_file?;
    if old_name.as_str() == from {
        return Some(KeptFile {
            name,
            file,
            can_append,
            is_cut,
        });
    }
    if old_name.as_str() == to {
        return None;
    }
    Some(KeptFile {
        name: old_name,
        file,
        can_append,
        is_cut,
    })
}

impl<S: SystemFiles> DiskFolder<S> {
    // Takes the file of this name, open to be written at its end or to be synced: the one that is open, or another.
    fn take(&mut self, name: &str, to_append: bool) -> io::Result<KeptFile<S::File>>
        ensures same { self.new ≡ self.old }
        ensures name { IfOk result (λ o. string_bytes o.name ≡ name.now) }
        ensures opened { IsTrue S.honest → IfOk result (λ o. IsTracked
            (replay (S.changes self.old.system self.old.path) (S.start self.old.path)) self.old.path name.now
            (S.opened_as o.file) (S.number o.file)) }
    {
        if let Some(open) = self.open_file.take() {
            if open.name.as_str() == name && (open.can_append || !to_append) {
                return Ok(open);
            }
        }
        let path = self.path_of(name)?;
        let name = String::from_str(self.alloc, name)?;
        let file = match to_append {
            true => self.system.open_to_append(path.as_str())?,
            false => self.system.open(path.as_str())?,
        };
        Ok(KeptFile {
            name,
            file,
            can_append: to_append,
            is_cut: false,
        })
    }

    // Lets the mark cover what is done next, and returns whether it was replaced.
    fn begin(&mut self, doing: &Doing<'_>) -> io::Result<bool>
        ensures writable { OnOk result (self.new.is_read_only ≡ false) }
        ensures permitted { IsTrue S.honest → IsTrue self.old.keeps_mark → OnOk result (AreSo
            (S.claims self.new.system self.new.path) (replay (S.changes self.new.system self.new.path)
            (S.start self.new.path)) × Permits (S.claims self.new.system self.new.path)
            (replay (S.changes self.new.system self.new.path) (S.start self.new.path)) doing.now) }
        ensures changes { S.changes self.new.system ≡ S.changes self.old.system }
        ensures path { self.new.path ≡ self.old.path }
        ensures locked { self.new.is_locked ≡ self.old.is_locked }
        ensures read_only { self.new.is_read_only ≡ self.old.is_read_only }
        ensures kept { self.new.keeps_mark ≡ self.old.keeps_mark }
        ensures failures { self.new.failures ≡ self.old.failures }
    {
        self.mark.begin(&mut self.system, doing)
    }

    /// Makes an empty file of this name, or empties the one that is there.
    pub(crate) fn make(&mut self, name: &str) -> io::Result<()>
        ensures made { IsTrue S.honest → Creates name.now (is_ok result)
            (replay (S.changes self.old.system self.old.path) (S.start self.old.path))
            (replay (S.changes self.new.system self.old.path) (S.start self.old.path)) }
        ensures path { self.new.path ≡ self.old.path }
        ensures failures { self.new.failures ≡ self.old.failures }
        ensures read_only { IsTrue self.old.is_read_only → S.changes self.new.system ≡ S.changes self.old.system }
    {
        let path = self.path_of(name)?;
        self.begin(&Doing::Created(name))?;
        self.open_file = None;
        self.mark.knowledge.doubt_entries();
        self.mark
            .knowledge
            .note(self.alloc, &Doing::SyncFailed(name));
        self.system.create(path.as_str())?;
        self.mark.knowledge.note(self.alloc, &Doing::Created(name));
        Ok(())
    }

    /// Writes bytes at the end of a file.
    pub(crate) fn write(&mut self, name: &str, bytes: &[u8]) -> io::Result<()>
        ensures written { IsTrue S.honest → Appends name.now bytes.now (is_ok result)
            (replay (S.changes self.old.system self.old.path) (S.start self.old.path))
            (replay (S.changes self.new.system self.old.path) (S.start self.old.path)) }
        ensures path { self.new.path ≡ self.old.path }
        ensures failures { self.new.failures ≡ self.old.failures }
        ensures read_only { IsTrue self.old.is_read_only → S.changes self.new.system ≡ S.changes self.old.system }
    {
        let mut open = self.take(name, true)?;
        self.begin(&Doing::Appended(name))?;
        self.mark.knowledge.note(self.alloc, &Doing::Appended(name));
        let outcome = append(&mut self.system, &mut open, bytes);
        self.open_file = Some(open);
        outcome
    }

    // Syncs the file of this name, which is open.
    fn sync_open(&mut self, open: KeptFile<S::File>, name: &str) -> io::Result<()>
        requires tracked { IsTrue S.honest → IsTracked
            (replay (S.changes self.old.system self.old.path) (S.start self.old.path)) self.old.path name.now
            (S.opened_as open.file) (S.number open.file) }
        requires name { string_bytes open.name ≡ name.now }
        requires writable { self.old.is_read_only ≡ false }
        requires permitted { IsTrue S.honest → IsTrue self.old.keeps_mark → AreSo
            (S.claims self.old.system self.old.path) (replay (S.changes self.old.system self.old.path)
            (S.start self.old.path)) × Permits (S.claims self.old.system self.old.path)
            (replay (S.changes self.old.system self.old.path) (S.start self.old.path)) (Doing.SyncFailed name) }
        ensures synced { IsTrue S.honest → SyncsFile name.now (is_ok result)
            (replay (S.changes self.old.system self.old.path) (S.start self.old.path))
            (replay (S.changes self.new.system self.old.path) (S.start self.old.path)) }
        ensures path { self.new.path ≡ self.old.path }
        ensures failures { self.new.failures ≡ self.old.failures }
    {
        self.open_file = None;
        match self.system.sync_file(&open.file) {
            Ok(()) => {
                self.mark
                    .knowledge
                    .note(self.alloc, &Doing::FileSynced(name));
                self.open_file = Some(open);
                Ok(())
            }
            Err(error) => {
                self.mark
                    .knowledge
                    .note(self.alloc, &Doing::SyncFailed(name));
                Err(error)
            }
        }
    }

    // Replaces the mark by one of what is known now.
    fn renew(&mut self) -> io::Result<()>
        ensures changes { S.changes self.new.system ≡ S.changes self.old.system }
        ensures path { self.new.path ≡ self.old.path }
        ensures failures { self.new.failures ≡ self.old.failures }
    {
        self.mark.renew(&mut self.system)
    }

    /// Syncs a file.
    pub(crate) fn sync_one(&mut self, name: &str) -> io::Result<()>
        ensures synced { IsTrue S.honest → SyncsFile name.now (is_ok result)
            (replay (S.changes self.old.system self.old.path) (S.start self.old.path))
            (replay (S.changes self.new.system self.old.path) (S.start self.old.path)) }
        ensures path { self.new.path ≡ self.old.path }
        ensures failures { self.new.failures ≡ self.old.failures }
        ensures read_only { IsTrue self.old.is_read_only → S.changes self.new.system ≡ S.changes self.old.system }
    {
        let open = self.take(name, false)?;
        let is_replaced = self.begin(&Doing::SyncFailed(name))?;
        self.sync_open(open, name)?;
        match is_replaced {
            true => self.renew(),
            false => Ok(()),
        }
    }

    // Fails where a file has the path that an output is to take, and may not be replaced.
    fn check_free(&self, path: &str) -> io::Result<()> {
        if self.output.as_ref().is_some_and(|output| !output.replaces)
            && self.system.find(path)?.is_some()
        {
            return Err(ErrorKind::AlreadyExists.into());
        }
        Ok(())
    }

    /// Gives a file another name.
    pub(crate) fn move_file(&mut self, from: &str, to: &str) -> io::Result<()>
        requires { from.now ≢ to.now }
        ensures moved { IsTrue S.honest → Renames from.now to.now (is_ok result)
            (replay (S.changes self.old.system self.old.path) (S.start self.old.path))
            (replay (S.changes self.new.system self.old.path) (S.start self.old.path)) }
        ensures path { self.new.path ≡ self.old.path }
        ensures failures { self.new.failures ≡ self.old.failures }
        ensures read_only { IsTrue self.old.is_read_only → S.changes self.new.system ≡ S.changes self.old.system }
    {
        let (old_path, new_path) = (self.path_at(from)?, self.path_at(to)?);
        let name = String::from_str(self.alloc, to)?;
        self.check_free(new_path.as_str())?;
        self.begin(&Doing::Moved(from, to))?;
        let open_file = self.open_file.take();
        self.mark.knowledge.doubt_entries();
        match self.system.rename(old_path.as_str(), new_path.as_str()) {
            Ok(()) => {
                self.mark
                    .knowledge
                    .note(self.alloc, &Doing::Moved(from, to));
                self.open_file = renamed(open_file, from, to, name);
                Ok(())
            }
            Err(error) => {
                self.mark.knowledge.doubt_move(self.alloc, from, to);
                Err(error)
            }
        }
    }

    /// Removes a file.
    pub(crate) fn remove_file(&mut self, name: &str) -> io::Result<()>
        ensures removed { IsTrue S.honest → Removes name.now (is_ok result)
            (replay (S.changes self.old.system self.old.path) (S.start self.old.path))
            (replay (S.changes self.new.system self.old.path) (S.start self.old.path)) }
        ensures path { self.new.path ≡ self.old.path }
        ensures failures { self.new.failures ≡ self.old.failures }
        ensures read_only { IsTrue self.old.is_read_only → S.changes self.new.system ≡ S.changes self.old.system }
    {
        let path = self.path_at(name)?;
        self.begin(&Doing::Removed(name))?;
        let _closed = self.open_file.take();
        self.mark.knowledge.doubt_entries();
        match self.system.remove(path.as_str()) {
            Ok(()) => {
                self.mark.knowledge.note(self.alloc, &Doing::Removed(name));
                Ok(())
            }
            // The file is there as it was, or gone.
            Err(error) => Err(error),
        }
    }

    /// Syncs the folder.
    pub(crate) fn sync_entries(&mut self) -> io::Result<()>
        ensures synced { IsTrue S.honest → SyncsEntries (is_ok result)
            (replay (S.changes self.old.system self.old.path) (S.start self.old.path))
            (replay (S.changes self.new.system self.old.path) (S.start self.old.path)) }
        ensures path { self.new.path ≡ self.old.path }
        ensures failures { self.new.failures ≡ self.old.failures }
        ensures read_only { IsTrue self.old.is_read_only → S.changes self.new.system ≡ S.changes self.old.system }
    {
        self.mark.check_lock()?;
        match self.system.sync_folder(&self.folder) {
            Ok(()) => {
                self.mark.knowledge.note(self.alloc, &Doing::FolderSynced);
                Ok(())
            }
            Err(error) => Err(error),
        }
    }
}

//! The files of the operating system: the one place where it is asked to keep bytes, or for those that it keeps.

use crate::file_pool::{FilePool, PooledFile};
use crate::lock_mark::{found_mark, replace_bytes};
use crate::mark::Mark;
use crate::names::file_names;
use crate::system_files::{FileKind, FoundFile, FoundMark, SystemFiles};
use std::alloc::{AllocError, Global};
use std::fs::{File, Metadata, OpenFile, OpenOptions, Permissions, TryLockError};
use std::io::{ErrorKind, Write};
use std::os::unix::fs::{MetadataExt, OpenOptionsExt, PermissionsExt, chown};
use std::rc::Rc;
use std::{fs, io};

/// The files of the operating system. Of those that are read at most 64 are open at once.
#[derive(Drop)]
pub struct HostFiles {
    rt: HostRuntime,
    pool: Rc<FilePool, Global>,
}

impl HostFiles {
    /// None is open.
    pub fn new(rt: &HostRuntime) -> Result<HostFiles, AllocError> {
        Ok(HostFiles {
            rt: *rt,
            pool: Rc::new(rt.alloc(), FilePool::new())?,
        })
    }
}

// What is at a path. Links are not followed.
fn found_at(rt: &HostRuntime, path: &str) -> io::Result<Option<Metadata>> {
    match fs::symlink_metadata(rt, path) {
        Ok(found) => Ok(Some(found)),
        Err(error) if error.kind() == ErrorKind::NotFound => Ok(None),
        Err(error) => Err(error),
    }
}

// Its kind, permissions and owner.
fn described(found: &Metadata) -> FoundFile {
    let kind = match (found.is_file(), found.file_type().is_symlink()) {
        (true, _) => FileKind::Plain,
        (false, true) => FileKind::Link,
        (false, false) => FileKind::Other,
    };
    FoundFile {
        kind,
        mode: found.mode() & 0o777,
        owner: found.uid(),
        group: found.gid(),
    }
}

/// Each call is the one of its name. Nothing is claimed of what the system does.
impl SystemFiles for HostFiles {
    ghost use Rattle.std.specs.Prelude.{[], None, true, false};
    ghost use Rattle.store_files.specs.Disk.{unknown, unknown_is_sound};
    ghost use Rattle.store_files.specs.declared.knowledge.Standing.TheVariants.{Failed};

    type File = File;

    type Reader = PooledFile;

    ghost honest = { false };

    ghost start = { λ _. unknown };

    ghost changes = { λ _ _. [] };

    ghost opened_as = { λ _. [] };

    ghost number = { λ _. 0 };

    ghost is_locked = { λ _. true };

    ghost locks = { λ _. None };

    ghost place = { λ _. ([], []) };

    ghost claims = { λ _ _. record { files = λ _. Failed; entries = false } };

    ghost was_so = { λ _ _. Unit {0} };

    ghost first_so = { λ _ _ _ _. tt };

    ghost sound = { λ _ _. unknown_is_sound };

    fn make_folder(&self, path: &str) -> io::Result<()> {
        fs::create_dir(&self.rt, path)
    }

    fn find(&self, path: &str) -> io::Result<Option<FoundFile>> {
        match found_at(&self.rt, path)? {
            Some(found) => Ok(Some(described(&found))),
            None => Ok(None),
        }
    }

    fn real_path(&self, alloc: Global, path: &str) -> io::Result<String> {
        let path = fs::canonicalize(&(&self.rt, alloc), path)?;
        Ok(String::from_str(alloc, path.as_str())?)
    }

    fn set_owner(&self, path: &str, owner: Option<u32>, group: Option<u32>) -> io::Result<()> {
        chown(&self.rt, path, owner, group)
    }

    fn set_mode(&self, path: &str, mode: u32) -> io::Result<()> {
        fs::set_permissions(&self.rt, path, Permissions::from_mode(mode))
    }

    fn open_folder(&self, path: &str) -> io::Result<File> {
        File::open(&self.rt, path)
    }

    fn open(&self, path: &str) -> io::Result<File> {
        File::open(&self.rt, path)
    }

    fn open_to_append(&self, path: &str) -> io::Result<File> {
        OpenOptions::new().append(true).open(&self.rt, path)
    }

    fn create(&mut self, path: &str) -> io::Result<()> {
        OpenOptions::new()
            .write(true)
            .create(true)
            .truncate(true)
            .open(&self.rt, path)
            .map(drop)
    }

    fn create_new(&mut self, path: &str, mode: u32) -> io::Result<File> {
        OpenOptions::new()
            .append(true)
            .create_new(true)
            .mode(mode)
            .open(&self.rt, path)
    }

    fn len(&self, file: &File) -> io::Result<u64> {
        Ok(file.metadata()?.len())
    }

    fn write(&mut self, file: &mut File, bytes: &[u8]) -> io::Result<()> {
        file.write_all(bytes)
    }

    fn cut(&mut self, file: &File, len: u64) -> io::Result<()> {
        file.set_len(len)
    }

    fn sync_file(&mut self, file: &File) -> io::Result<()> {
        file.sync_data()
    }

    fn rename(&mut self, from: &str, to: &str) -> io::Result<()> {
        fs::rename(&self.rt, from, to)
    }

    fn remove(&mut self, path: &str) -> io::Result<()> {
        fs::remove_file(&self.rt, path)
    }

    fn sync_folder(&mut self, folder: &File) -> io::Result<()> {
        folder.sync_all()
    }

    fn open_lock(&self, path: &str) -> io::Result<File> {
        OpenOptions::new()
            .write(true)
            .create(true)
            .open(&self.rt, path)
    }

    fn try_lock(&self, file: &File) -> Result<(), TryLockError> {
        file.try_lock()
    }

    fn has_path(&self, file: &File, path: &str) -> io::Result<bool> {
        let opened = file.metadata()?;
        Ok(match found_at(&self.rt, path)? {
            Some(found) => found.dev() == opened.dev() && found.ino() == opened.ino(),
            None => false,
        })
    }

    fn find_mark(
        &self,
        alloc: Global,
        lock: &File,
        lock_path: &str,
        _folder: &str,
    ) -> io::Result<FoundMark> {
        found_mark(&self.rt, alloc, lock, lock_path)
    }

    fn write_mark(
        &mut self,
        lock: &mut File,
        boot: &[u8],
        inode: &str,
        mark: &Mark,
    ) -> io::Result<()> {
        let bytes = mark.to_bytes(self.rt.alloc(), boot, inode.as_bytes())?;
        replace_bytes(lock, &bytes)
    }

    fn names(&self, alloc: Global, path: &str) -> io::Result<Vec<String>> {
        file_names(&self.rt, alloc, path)
    }

    fn open_to_read(&self, path: &str) -> io::Result<PooledFile> {
        PooledFile::open(&self.rt, &self.pool, path)
    }
}

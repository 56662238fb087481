//! A system that is shared to be read.

ghost use Rattle.std.specs.Prelude.{IsErr};

use crate::mark::Mark;
use crate::system_files::{FoundFile, FoundMark, SystemFiles};
use std::alloc::Global;
use std::fs::TryLockError;
use std::io;
use std::io::ErrorKind;
use std::rc::Rc;

// Refuses to change a system that is shared.
fn refuse<T: Drop>() -> io::Result<T>
    ensures { IsErr result }
{
    Err(ErrorKind::PermissionDenied.into())
}

/// Each call that reads is the system's own; each that would change a file is refused, as `PermissionDenied`. So any
/// number of folders can be open over it to be read.
impl<S: SystemFiles> SystemFiles for Rc<S, Global> {
    ghost use Rattle.std.specs.Prelude.{◌≡◌};

    type File = S::File;

    type Reader = S::Reader;

    ghost honest = { S.honest };

    ghost start = { S.start };

    ghost changes = { λ s. S.changes s.value };

    ghost opened_as = { S.opened_as };

    ghost number = { S.number };

    ghost is_locked = { S.is_locked };

    ghost locks = { S.locks };

    ghost place = { S.place };

    ghost claims = { λ s. S.claims s.value };

    ghost was_so = { λ s. S.was_so s.value };

    ghost first_so = { λ s. S.first_so s.value };

    ghost sound = { λ s. S.sound s.value };

    fn make_folder(&self, _path: &str) -> io::Result<()> {
        refuse()
    }

    fn find(&self, path: &str) -> io::Result<Option<FoundFile>> {
        SystemFiles::find(&**self, path)
    }

    fn real_path(&self, alloc: Global, path: &str) -> io::Result<String> {
        SystemFiles::real_path(&**self, alloc, path)
    }

    fn set_owner(&self, _path: &str, _owner: Option<u32>, _group: Option<u32>) -> io::Result<()> {
        refuse()
    }

    fn set_mode(&self, _path: &str, _mode: u32) -> io::Result<()> {
        refuse()
    }

    fn open_folder(&self, path: &str) -> io::Result<S::File> {
        SystemFiles::open_folder(&**self, path)
    }

    fn open(&self, path: &str) -> io::Result<S::File> {
        SystemFiles::open(&**self, path)
    }

    fn open_to_append(&self, _path: &str) -> io::Result<S::File> {
        refuse()
    }

    fn create(&mut self, _path: &str) -> io::Result<()> {
        refuse()
    }

    fn create_new(&mut self, _path: &str, _mode: u32) -> io::Result<S::File> {
        refuse()
    }

    fn len(&self, file: &S::File) -> io::Result<u64> {
        SystemFiles::len(&**self, file)
    }

    fn write(&mut self, _file: &mut S::File, _bytes: &[u8]) -> io::Result<()> {
        refuse()
    }

    fn cut(&mut self, _file: &S::File, _len: u64) -> io::Result<()> {
        refuse()
    }

    fn sync_file(&mut self, _file: &S::File) -> io::Result<()> {
        refuse()
    }

    fn rename(&mut self, _from: &str, _to: &str) -> io::Result<()> {
        refuse()
    }

    fn remove(&mut self, _path: &str) -> io::Result<()> {
        refuse()
    }

    fn sync_folder(&mut self, _folder: &S::File) -> io::Result<()> {
        refuse()
    }

    fn open_lock(&self, _path: &str) -> io::Result<S::File> {
        refuse()
    }

    fn try_lock(&self, _file: &S::File) -> Result<(), TryLockError> {
        Err(TryLockError::WouldBlock)
    }

    fn has_path(&self, file: &S::File, path: &str) -> io::Result<bool> {
        SystemFiles::has_path(&**self, file, path)
    }

    fn find_mark(
        &self,
        alloc: Global,
        lock: &S::File,
        lock_path: &str,
        folder: &str,
    ) -> io::Result<FoundMark> {
        SystemFiles::find_mark(&**self, alloc, lock, lock_path, folder)
    }

    fn write_mark(
        &mut self,
        _lock: &mut S::File,
        _boot: &[u8],
        _inode: &str,
        _mark: &Mark,
    ) -> io::Result<()> {
        refuse()
    }

    fn names(&self, alloc: Global, path: &str) -> io::Result<Vec<String>> {
        SystemFiles::names(&**self, alloc, path)
    }

    fn open_to_read(&self, path: &str) -> io::Result<S::Reader> {
        SystemFiles::open_to_read(&**self, path)
    }
}

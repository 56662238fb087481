//! Files that are opened when they are read, few at a time.

ghost use Rattle.std.specs.Prelude.{[], false};

use crate::read_at::ReadAt;
use std::alloc::{AllocError, Global};
use std::cell::Cell;
use std::fs::{File, Metadata, OpenFile};
use std::io;
use std::io::ErrorKind;
use std::os::unix::fs::{FileExt, MetadataExt};
use std::rc::Rc;

// How many files are open at most.
const MOST_OPEN: usize = 64;

// Which file it is. One that took its name is another one.
#[derive(Clone, Copy, PartialEq, Eq)]
struct FileId {
    device: u64,
    inode: u64,
    len: u64,
    seconds: i64,
    nanoseconds: i64,
}

impl FileId {
    // Of a file of which the system says this.
    fn of(found: &Metadata) -> FileId {
        FileId {
            device: found.dev(),
            inode: found.ino(),
            len: found.len(),
            seconds: found.mtime(),
            nanoseconds: found.mtime_nsec(),
        }
    }
}

// A file that is open.
#[derive(Drop)]
struct Opened {
    id: FileId,
    file: File,
}

impl Opened {
    // Opens the file of a path.
    fn open(rt: &HostRuntime, path: &str) -> io::Result<Opened> {
        let file = File::open(rt, path)?;
        let id = FileId::of(&file.metadata()?);
        Ok(Opened { id, file })
    }
}

/// The files that are open, the one that was read last at the end.
#[derive(Drop)]
pub(crate) struct FilePool {
    opened: Cell<Option<Vec<Opened>>>,
}

impl FilePool {
    /// None is open.
    pub(crate) fn new() -> FilePool {
        FilePool {
            opened: Cell::new(None),
        }
    }

    // Takes the open file out.
    fn take(&self, id: FileId) -> Option<File> {
        let mut opened = self.opened.take()?;
        let place = opened.iter().position(|one| one.id == id);
        let found = place.map(|place| opened.remove(place).file);
        self.opened.set(Some(opened));
        found
    }

    // Keeps a file open, and closes the one that was not read for longest where there are too many.
    fn keep(&self, alloc: Global, one: Opened) -> Result<(), AllocError> {
        let mut opened = self.opened.take().unwrap_or(Vec::new(alloc));
        if opened.len() >= MOST_OPEN {
            drop(opened.remove(0));
        }
        let kept = opened.push(one).map_err(AllocError::from);
        self.opened.set(Some(opened));
        kept
    }
}

/// A file that is read. It is the one that was there first: where another took its path, or none has it, and it is not
/// open any more, its reads fail as if there were no file.
pub struct PooledFile {
    rt: HostRuntime,
    path: String,
    id: FileId,
    pool: Rc<FilePool, Global>,
}

impl PooledFile {
    /// Opens the file of a path.
    pub(crate) fn open(
        rt: &HostRuntime,
        pool: &Rc<FilePool, Global>,
        path: &str,
    ) -> io::Result<PooledFile> {
        let opened = Opened::open(rt, path)?;
        let id = opened.id;
        let path = String::from_str(rt.alloc(), path)?;
        pool.keep(rt.alloc(), opened)?;
        Ok(PooledFile {
            rt: *rt,
            path,
            id,
            pool: pool.clone()?,
        })
    }

    // The file, which is opened again if it is not open.
    fn opened(&self) -> io::Result<File> {
        if let Some(file) = self.pool.take(self.id) {
            return Ok(file);
        }
        let Opened { id, file } = Opened::open(&self.rt, self.path.as_str())?;
        match id == self.id {
            true => Ok(file),
            false => Err(ErrorKind::NotFound.into()),
        }
    }
}

/// It is closed: a file that has no name any more would take room.
impl Drop for PooledFile {
    fn drop(self) {
        let PooledFile {
            rt: _,
            path: _path,
            id,
            pool,
        } = self;
        drop(pool.take(id));
    }
}

/// Nothing is claimed of what it gives.
impl ReadAt for PooledFile {
    ghost content = { λ _. [] };

    ghost honest = { λ _. false };

    fn size(&self) -> io::Result<u64> {
        Ok(self.id.len)
    }

    fn fill_at(&self, buffer: &mut [u8], offset: u64) -> io::Result<()> {
        let file = self.opened()?;
        let filled = file.read_exact_at(buffer, offset);
        let id = self.id;
        self.pool.keep(self.rt.alloc(), Opened { id, file })?;
        filled
    }
}

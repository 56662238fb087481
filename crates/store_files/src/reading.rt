//! Files of a folder that are read.

ghost use Rattle.std.specs.Prelude.{◌≡◌, ◌≢◌, IsTrue, IfOk, IfErr};
ghost use Rattle.std.specs.IoError.{error_kind};
ghost use Rattle.store_folder.specs.Folder.{bytes_of};

use crate::disk_file::DiskFile;
use crate::disk_folder::DiskFolder;
use crate::read_at::ReadAt;
use crate::system_files::SystemFiles;
use std::alloc::Global;
use std::io;
use std::io::ErrorKind;
use store_folder::ReadableFolder;

// The file, of the length that it has now. An error is never `NotFound`: the file is there.
fn measured<F: ReadAt>(file: F) -> io::Result<DiskFile<F>>
    ensures honest { IfOk result (λ f. f.honest ≡ F.honest file) }
    ensures content { IsTrue (F.honest file) → IfOk result (λ f. f.content ≡ F.content file) }
    ensures failures { IfOk result (λ f. f.failures ≡ 0) }
    ensures reads { IfOk result (λ f. f.reads ≡ 0) }
    ensures asked { IfOk result (λ f. f.asked ≡ 0) }
    ensures kind { IfErr result (λ e. error_kind e ≢ ErrorKind.NotFound) }
{
    match DiskFile::new(file) {
        Ok(file) => Ok(file),
        Err(error) if error.kind() == ErrorKind::NotFound => Err(ErrorKind::Other.into()),
        Err(error) => Err(error),
    }
}

// All bytes of a file.
fn bytes_in<F: ReadAt>(alloc: Global, file: &F) -> io::Result<Vec<u8>>
    ensures { IsTrue (F.honest file.now) → IfOk result (λ bytes. bytes.items ≡ F.content file.now) }
{
    let len = file.size()?;
    let mut bytes = Vec::from_elem(alloc, 0u8, len as usize)?;
    file.fill_at(&mut bytes, 0)?;
    Ok(bytes)
}

impl<S: SystemFiles> ReadableFolder for DiskFolder<S> {
    ghost use Rattle.std.specs.Prelude.{false};

    type File = DiskFile<S::Reader>;

    ghost is_readable = { false };

    /// The name of each plain file, but for the lock.
    fn names(&self, alloc: Global) -> io::Result<Vec<String>> {
        self.system.names(alloc, self.path.as_str())
    }

    fn read(&self, alloc: Global, name: &str) -> io::Result<Option<Vec<u8>>> {
        let path = self.path_of(name)?;
        match self.system.open_to_read(path.as_str()) {
            Ok(file) => Ok(Some(bytes_in(alloc, &file)?)),
            Err(error) if error.kind() == ErrorKind::NotFound => Ok(None),
            Err(error) => Err(error),
        }
    }

    fn open(&self, alloc: Global, name: &str) -> io::Result<DiskFile<S::Reader>> {
        let path = self.path_of(name)?;
        measured(self.system.open_to_read(path.as_str())?)
    }

    fn read_error(file: &DiskFile<S::Reader>) -> io::Error {
        file.read_error().unwrap_or(ErrorKind::Other.into())
    }
}

//! A folder whose files are listed and read.

ghost use Rattle.std.specs.Prelude.{◌≡◌, ◌⊎◌, Bool, IsTrue, IfOk, IfErr, Some, None, map, string_bytes};
ghost use Rattle.std.specs.IoError.{error_kind};
ghost use Rattle.store_folder.specs.Folder.{AreNames, bytes_of};

use crate::folder::Folder;
use std::alloc::Global;
use std::io;
use std::io::ErrorKind;
use store_base::FileHandle;

/// A folder whose files are listed and read. A read that fails leaves the folder as it was, and is not counted among
/// its failures.
pub trait ReadableFolder: Folder {
    /// A file of it that is open. It keeps what it held as it was opened.
    type File: FileHandle;

    /// Whether its names are listed, and its files read and opened, where there is memory. A folder of the system has
    /// false here.
    ghost is_readable: { Bool };

    /// The name of each file, once, in any order.
    fn names(&self, alloc: Global) -> io::Result<Vec<String>>
        ensures names { IsTrue Self.honest
            → IfOk result (λ names. AreNames (Self.seen self.now) (map string_bytes names.items)) }
        ensures failed { IsTrue is_readable → IfErr result (λ e. error_kind e ≡ ErrorKind.OutOfMemory) };

    /// The bytes of the file of this name. None where there is no such file.
    fn read(&self, alloc: Global, name: &str) -> io::Result<Option<Vec<u8>>>
        ensures bytes { IsTrue Self.honest → IfOk result (λ found. bytes_of found ≡ Self.seen self.now name.now) }
        ensures failed { IsTrue is_readable → IfErr result (λ e. error_kind e ≡ ErrorKind.OutOfMemory) };

    /// Opens the file of this name. Where there is no such file the error is `NotFound`.
    fn open(&self, alloc: Global, name: &str) -> io::Result<Self::File>
        ensures content { IsTrue Self.honest
            → IfOk result (λ file. Self.seen self.now name.now ≡ Some (Self.File.content file)) }
        ensures honest { IsTrue Self.honest → IfOk result (λ file. IsTrue (Self.File.honest file)) }
        ensures absent { IsTrue Self.honest → IfErr result (λ e. error_kind e ≡ ErrorKind.NotFound
            → Self.seen self.now name.now ≡ None) }
        ensures failed { IsTrue is_readable
            → IfErr result (λ e. (error_kind e ≡ ErrorKind.NotFound) ⊎ (error_kind e ≡ ErrorKind.OutOfMemory)) }
        ensures failures { IfOk result (λ file. Self.File.failures file ≡ 0) }
        ensures reads { IfOk result (λ file. Self.File.reads file ≡ 0) }
        ensures asked { IfOk result (λ file. Self.File.asked file ≡ 0) };

    /// What the system said at the last read of this file that failed.
    fn read_error(_file: &Self::File) -> io::Error {
        ErrorKind::Other.into()
    }
}

//! The path of a file in a folder.

ghost use Rattle.std.specs.Prelude.{◌≡◌, ◌≢◌, IfOk, IfErr, OnOk, string_bytes};
ghost use Rattle.std.specs.IoError.{error_kind};
ghost use Rattle.store_files.specs.Paths.{IsFileName, IsPath, lock_of};

use std::alloc::Global;
use std::io;
use std::io::ErrorKind;

/// The file by which a writer keeps others out.
pub(crate) const LOCK: &str = "lock";

// Refuses what is no name of a file in a folder, and the name of the lock.
fn check_name(name: &str) -> io::Result<()>
    ensures name { OnOk result (IsFileName name.now) }
    ensures kind { IfErr result (λ e. error_kind e ≢ ErrorKind.NotFound) }
{
    if name.is_empty() || name == "." || name == ".." || name == "lock" {
        return Err(ErrorKind::InvalidInput.into());
    }
    if name.as_bytes().contains(&b'/') || name.as_bytes().contains(&0) {
        return Err(ErrorKind::InvalidInput.into());
    }
    Ok(())
}

/// The path of the file of this name in the folder of that path.
pub(crate) fn path_of(alloc: Global, folder: &str, name: &str) -> io::Result<String>
    ensures path { IfOk result (λ path. IsPath folder.now name.now (string_bytes path)) }
    ensures kind { IfErr result (λ e. error_kind e ≢ ErrorKind.NotFound) }
{
    check_name(name)?;
    Ok(format!(in alloc; "{folder}/{name}")?)
}

/// The path of the lock of a folder.
pub(crate) fn lock_path_of(alloc: Global, folder: &str) -> io::Result<String>
    ensures { IfOk result (λ path. string_bytes path ≡ lock_of folder.now) }
{
    Ok(format!(in alloc; "{folder}/{LOCK}")?)
}

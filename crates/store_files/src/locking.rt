//! The lock by which a writer keeps others out.

ghost use Rattle.std.specs.Prelude.{◌≡◌, ℕ, List, Some, IsTrue, IfOk, OnOk};
ghost use Rattle.store_files.specs.Paths.{lock_of};

use crate::create_error::CreateError;
use crate::system_files::{FileKind, SystemFiles};
use std::alloc::Global;
use std::fs::TryLockError;
use std::io::ErrorKind;

/// The folder that a file of this path is in.
pub(crate) fn folder_of(path: &str) -> &str {
    match path.rsplit_once('/') {
        Some(("", _)) => "/",
        Some((folder, _)) => folder,
        None => ".",
    }
}

/// Opens the folder of this path, in which an entry will be made.
pub(crate) fn open_folder<S: SystemFiles>(system: &S, path: &str) -> Result<S::File, CreateError>
    ensures { IsTrue S.honest → IfOk result (λ folder. S.opened_as folder ≡ path.now) }
{
    match system.open_folder(path) {
        Ok(folder) => Ok(folder),
        Err(error) if error.kind() == ErrorKind::NotFound => Err(CreateError::System(error)),
        Err(error) => Err(CreateError::Folder(error)),
    }
}

/// That the file of this path is being written by another.
pub(crate) fn busy(alloc: Global, path: &str) -> CreateError {
    match String::from_str(alloc, path) {
        Ok(name) => CreateError::Busy(name),
        Err(error) => CreateError::System(error.into()),
    }
}

/// Whether something has this path that is no plain file, or a link.
pub(crate) fn is_blocked<S: SystemFiles>(system: &S, path: &str) -> bool {
    match system.find(path) {
        Ok(Some(found)) => found.kind != FileKind::Plain,
        _ => false,
    }
}

/// That the file of this path can't be locked, since it is not a plain file.
pub(crate) fn blocked(alloc: Global, path: &str) -> CreateError {
    match String::from_str(alloc, path) {
        Ok(name) => CreateError::Blocked(name),
        Err(error) => CreateError::System(error.into()),
    }
}

/// Locks a file that was opened by this path. One that another holds, or that lost its path in the meantime, is busy.
pub(crate) fn lock<S: SystemFiles>(
    alloc: Global,
    system: &S,
    file: &S::File,
    path: &str,
) -> Result<(), CreateError>
    ensures { OnOk result (IsTrue (S.is_locked file.now)) }
{
    match system.try_lock(file) {
        Ok(()) => {}
        Err(TryLockError::WouldBlock) => return Err(busy(alloc, path)),
        Err(TryLockError::Error(error)) => return Err(CreateError::System(error)),
    }
    if system.has_path(file, path)? {
        return Ok(());
    }
    Err(busy(alloc, path))
}

/// Opens the lock of this path, which is made unless it is there, and locks it. What is no plain file is refused before
/// it is opened: a pipe would be waited for.
pub(crate) fn locked<S: SystemFiles>(
    alloc: Global,
    system: &S,
    path: &str,
) -> Result<S::File, CreateError>
    ensures locked { IfOk result (λ file. IsTrue (S.is_locked file)) }
    ensures locks { IsTrue S.honest → (d : List ℕ) → path.now ≡ lock_of d
        → IfOk result (λ file. S.locks file ≡ Some d) }
{
    if is_blocked(system, path) {
        return Err(blocked(alloc, path));
    }
    let file = system.open_lock(path)?;
    lock(alloc, system, &file, path)?;
    Ok(file)
}

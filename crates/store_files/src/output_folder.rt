//! The folder of an output, which goes to a file beside its name until it is whole.

ghost use Rattle.std.specs.Prelude.{◌≡◌, IsTrue, IfOk, OnOk};

use crate::create_error::CreateError;
use crate::disk_folder::DiskFolder;
use crate::lock_mark::LockMark;
use crate::locking::{blocked, busy, folder_of, lock, open_folder};
use crate::paths::LOCK;
use crate::system_files::{FileKind, FoundFile, SystemFiles};
use std::alloc::Global;
use std::io;
use std::io::ErrorKind;

// The mode of a file beside that will replace another, until it has that one's mode: nobody else may open it before.
const PRIVATE: u32 = 0o600;

// The mode of a file beside that replaces none; the process takes its mask from it.
const USUAL: u32 = 0o666;

/// The output of a folder that was opened for one.
#[derive(Drop)]
pub(crate) struct Output {
    // The path of the file beside, which is the folder's lock.
    beside: String,
    /// Whether a file that has the name is replaced.
    pub(crate) replaces: bool,
}

impl Output {
    /// Removes the file beside, unless it was renamed.
    pub(crate) fn remove_beside<S: SystemFiles>(&self, system: &mut S, mark: &LockMark<S>) {
        let Some(lock) = &mark.lock else {
            return;
        };
        let beside = self.beside.as_str();
        if system.has_path(lock, beside).unwrap_or(false) {
            let _ = system.remove(beside);
        }
    }
}

// The path of the file that is to be written, where links lead, and what is there. Only a plain file is replaced.
fn target_of<S: SystemFiles>(
    alloc: Global,
    system: &S,
    path: &str,
) -> Result<(String, Option<FoundFile>), CreateError> {
    let path = match system.find(path)? {
        Some(found) if found.kind == FileKind::Link => system.real_path(alloc, path)?,
        _ => String::from_str(alloc, path).map_err(io::Error::from)?,
    };
    match system.find(path.as_str())? {
        Some(found) if found.kind != FileKind::Plain => Err(CreateError::NotPlainFile),
        found => Ok((path, found)),
    }
}

// Opens the file beside, which is made with this mode unless it is there. A link is removed, so that none is followed.
// A file that came or went in the meantime is another's.
fn open_beside<S: SystemFiles>(
    alloc: Global,
    system: &mut S,
    beside: &str,
    mode: u32,
) -> Result<S::File, CreateError> {
    let opened = match system.find(beside)?.map(|found| found.kind) {
        Some(FileKind::Plain) => system.open_to_append(beside),
        Some(FileKind::Other) => return Err(blocked(alloc, beside)),
        Some(FileKind::Link) => {
            system.remove(beside)?;
            system.create_new(beside, mode)
        }
        None => system.create_new(beside, mode),
    };
    match opened {
        Ok(file) => Ok(file),
        Err(error) => match error.kind() {
            ErrorKind::AlreadyExists | ErrorKind::NotFound => Err(busy(alloc, beside)),
            _ => Err(CreateError::System(error)),
        },
    }
}

// Gives the file beside the mode of the one that it will replace, and its group and owner where the system lets us.
fn copy_access<S: SystemFiles>(system: &S, beside: &str, replaced: FoundFile) -> io::Result<()> {
    let _ = system.set_owner(beside, None, Some(replaced.group));
    let _ = system.set_owner(beside, Some(replaced.owner), None);
    system.set_mode(beside, replaced.mode)
}

// Locks the file beside, and gives it the access that the replaced file has.
fn claim<S: SystemFiles>(
    alloc: Global,
    system: &S,
    file: &S::File,
    beside: &str,
    replaced: Option<FoundFile>,
) -> Result<(), CreateError>
    ensures { OnOk result (IsTrue (S.is_locked file.now)) }
{
    lock(alloc, system, file, beside)?;
    if let Some(replaced) = replaced {
        copy_access(system, beside, replaced)?;
    }
    Ok(())
}

// The file beside: locked, and with the access that the replaced file has. It is private until then. One that a crash
// left is taken over. Where the system refuses a call nothing is left beside.
fn begin<S: SystemFiles>(
    alloc: Global,
    system: &mut S,
    beside: &str,
    replaced: Option<FoundFile>,
) -> Result<S::File, CreateError>
    ensures { IfOk result (λ file. IsTrue (S.is_locked file)) }
{
    let mode = if replaced.is_some() { PRIVATE } else { USUAL };
    let file = open_beside(alloc, system, beside, mode)?;
    match claim(alloc, &*system, &file, beside, replaced) {
        Ok(()) => Ok(file),
        Err(CreateError::System(error)) => {
            let _ = system.remove(beside);
            Err(CreateError::System(error))
        }
        Err(error) => Err(error),
    }
}

// The name of the file of this path in its folder.
fn name_of(path: &str) -> &str {
    match path.rsplit_once('/') {
        Some((_, name)) => name,
        None => path,
    }
}

impl<S: SystemFiles> DiskFolder<S> {
    /// The folder of the file of this path, which is to be replaced in it, and the file's name there; links are
    /// followed. The file beside is opened and locked, so a second writer of it is refused. It has `.part` after the
    /// name: one that a crash left is taken over. It is removed as the folder is dropped, unless it was renamed. Only a
    /// plain file is replaced; its mode is kept, and its owner where the system lets us.
    ///
    /// # Errors
    ///
    /// See `CreateError`. Nothing was changed.
    pub fn of_file(
        alloc: Global,
        system: S,
        path: &str,
    ) -> Result<(DiskFolder<S>, String), CreateError>
        ensures locked { IfOk result (λ r. IsTrue r.0.is_locked) }
        ensures failures { IfOk result (λ r. r.0.failures ≡ 0) }
    {
        DiskFolder::of_output(alloc, system, path, true)
    }

    /// The same for a file that may not replace another. One that has the name is refused, and again if it came before
    /// the file beside is renamed.
    ///
    /// # Errors
    ///
    /// See `CreateError`. Nothing was changed.
    pub fn of_new_file(
        alloc: Global,
        system: S,
        path: &str,
    ) -> Result<(DiskFolder<S>, String), CreateError>
        ensures locked { IfOk result (λ r. IsTrue r.0.is_locked) }
        ensures failures { IfOk result (λ r. r.0.failures ≡ 0) }
    {
        DiskFolder::of_output(alloc, system, path, false)
    }

    // The folder of the file of this path, which may replace one or not.
    fn of_output(
        alloc: Global,
        system: S,
        path: &str,
        replaces: bool,
    ) -> Result<(DiskFolder<S>, String), CreateError>
        ensures locked { IfOk result (λ r. IsTrue r.0.is_locked) }
        ensures failures { IfOk result (λ r. r.0.failures ≡ 0) }
    {
        let (target, replaced) = target_of(alloc, &system, path)?;
        if name_of(target.as_str()) == LOCK {
            return Err(CreateError::Reserved);
        }
        if replaced.is_some() && !replaces {
            return Err(CreateError::Exists);
        }
        let mut system = system;
        let path = String::from_str(alloc, folder_of(target.as_str())).map_err(io::Error::from)?;
        let folder = open_folder(&system, path.as_str())?;
        let name = String::from_str(alloc, name_of(target.as_str())).map_err(io::Error::from)?;
        let beside = format!(in alloc; "{target}.part").map_err(io::Error::from)?;
        let lock = begin(alloc, &mut system, beside.as_str(), replaced)?;
        let folder = DiskFolder {
            system,
            alloc,
            path,
            folder,
            open_file: None,
            mark: LockMark::none(alloc, Some(lock)),
            output: Some(Output { beside, replaces }),
            failures: 0,
        };
        Ok((folder, name))
    }
}

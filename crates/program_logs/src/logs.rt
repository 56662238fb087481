//! The logs in a system, and how they are opened.

ghost use Rattle.std.specs.Prelude.{◌≡◌, ◌+◌, ℕ, List, [], Ok, IfOk, IsTrue, length};
ghost use Rattle.program_logs.specs.Appended.{IsOpened};
ghost use Rattle.segmented_log.specs.Log.{IsLog};
ghost use Rattle.store_files.specs.Disk.{replay, seen};
ghost use Rattle.store_format.specs.Block.{Slot};

use crate::log_refusal::{refused, unread};
use crate::places::{check_log, check_place, tail_bytes};
use framed_logs::ReadLog;
use program_base::failure::FailureCause;
use program_base::log_refusal::LogRefusal;
use segmented_log::{Commit, SegmentedLog};
use std::alloc::{AllocError, Global};
use std::marker::Model;
use std::rc::Rc;
use std::{fs, io};
use store_files::{CreateError, DiskFolder, SystemFiles};
use store_folder::{Folder, ReadableFolder};

/// The logs in a system through which nothing was changed yet.
#[derive(Drop)]
pub struct Logs<'a, S: SystemFiles> {
    pub rt: &'a HostRuntime,
    system: S,
}

/// The logs in a system that is only read, so that any number of them can be open. It may have been changed before.
#[derive(Drop)]
pub struct ReadLogs<'a, S: SystemFiles> {
    pub rt: &'a HostRuntime,
    system: Rc<S, Global>,
}

/// A log that is open to be written, in a box: a function that owns it moves and drops one value, and not all of its
/// parts.
pub type WrittenLog<S> = Box<SegmentedLog<DiskFolder<S>>>;

/// A log that is open to be read, as it was when it was opened first, in a box, too.
pub type OpenLog<S> = Box<ReadLog<DiskFolder<Rc<S, Global>>>>;

/// The number of a log's first record, the one after its last record, and whether the tail is damaged after it.
pub(crate) type Bounds = (u64, u64, Result<(), FailureCause>);

/// How the tail of a log is written: how a sync puts records on the disk, and the size in bytes past which it is
/// sealed.
#[derive(Clone, Copy)]
pub struct TailOptions {
    pub commit: Commit,
    pub seal_size: usize,
}

// The tail of a log to which nothing is appended: it is not sealed for its size.
const NOT_APPENDED: TailOptions = TailOptions {
    commit: Commit::OneSync,
    seal_size: usize::MAX,
};

/// Clauses see the system.
impl<'a, S: SystemFiles> Model for Logs<'a, S> {
    ghost use Rattle.std.specs.Prelude.{◌≡◌, ℕ, List, [], IsTrue};

    ghost Value = { S };

    ghost view = { λ logs. logs.system };

    ghost invariant = { λ logs. IsTrue S.honest → (d : List ℕ) → S.changes logs.system d ≡ [] };
}

/// Clauses see the system.
impl<'a, S: SystemFiles> Model for ReadLogs<'a, S> {
    ghost use Rattle.std.specs.Prelude.{ℕ, List, IsTrue};

    ghost Value = { S };

    ghost view = { λ logs. logs.system.value };

    ghost invariant = { λ logs. IsTrue S.honest → (d : List ℕ) → S.was_so logs.system.value d };
}

// Opens the log of a folder that a writer locked. A batch at the end of its tail that was not finished, which is cut
// off, is reported.
fn open_locked<S: SystemFiles>(
    rt: &HostRuntime,
    path: &str,
    folder: Box<DiskFolder<S>>,
    tail: TailOptions,
) -> Result<WrittenLog<S>, FailureCause>
    ensures { IsTrue S.honest → IfOk result (λ log. IsOpened
        (seen (replay (S.changes folder.value.system folder.value.path) (S.start folder.value.path))) log.value) }
{
    let before = tail_bytes(rt, path)?.unwrap_or(0);
    let folder = Box::into_inner(folder);
    let log = match SegmentedLog::open(rt.alloc(), folder, tail.seal_size, tail.commit) {
        Ok(log) => Box::new(rt.alloc(), log)?,
        Err((error, _)) => return Err(refused(error)),
    };
    let cut = before.saturating_sub(tail_bytes(rt, path)?.unwrap_or(0));
    if cut > 0 {
        let _ = eprintln!(rt;
            "zevkhadun: {path}: {cut} bytes at the end of the tail were no whole batch, as after a crash; \
             they are cut off"
        );
    }
    Ok(log)
}

// The folder that a writer locked, in a box, or why it is not to be had.
fn locked<S: SystemFiles>(
    alloc: Global,
    folder: Result<DiskFolder<S>, CreateError>,
) -> Result<Box<DiskFolder<S>>, FailureCause>
    ensures { IfOk result (λ opened. folder ≡ Ok opened.value) }
{
    match folder {
        Ok(folder) => Ok(Box::new(alloc, folder)?),
        Err(CreateError::Busy(_)) => Err(FailureCause::Log(LogRefusal::Busy)),
        Err(error) => Err(FailureCause::Create(error)),
    }
}

impl<'a, S: SystemFiles> Logs<'a, S> {
    /// Those in this system.
    pub fn new(rt: &'a HostRuntime, system: S) -> Logs<'a, S>
        requires unchanged { IsTrue S.honest → (d : List ℕ) → S.changes system d ≡ [] }
    {
        Logs { rt, system }
    }

    /// The folder of a log that is there, locked to write it.
    pub fn folder(self, path: &str) -> Result<Box<DiskFolder<S>>, FailureCause> {
        let Logs { rt, system } = self;
        check_log(rt, path)?;
        locked(rt.alloc(), DiskFolder::open(rt.alloc(), system, path))
    }

    /// Opens a log that is there, to write it.
    pub fn open(self, path: &str) -> Result<WrittenLog<S>, FailureCause> {
        let rt = self.rt;
        open_locked(rt, path, self.folder(path)?, NOT_APPENDED)
    }

    /// Opens a log to write it, or begins one. It has the records of the log that was there, and none where none was.
    pub fn open_or_begin(self, path: &str, tail: TailOptions) -> Result<WrittenLog<S>, FailureCause>
        ensures { IsTrue S.honest → IfOk result (λ log. IsOpened (seen (S.start path.now)) log.value) }
    {
        let Logs { rt, system } = self;
        check_place(rt, path)?;
        let folder = locked(rt.alloc(), DiskFolder::create(rt.alloc(), system, path))?;
        open_locked(rt, path, folder, tail)
    }
}

impl<'a, S: SystemFiles> ReadLogs<'a, S> {
    /// Those in this system.
    pub fn new(rt: &'a HostRuntime, system: S) -> Result<ReadLogs<'a, S>, AllocError>
        requires so { IsTrue S.honest → (d : List ℕ) → S.was_so system d }
        ensures system { IfOk result (λ logs. logs ≡ system) }
    {
        let system = Rc::new(rt.alloc(), system)?;
        Ok(ReadLogs { rt, system })
    }

    /// Opens a log that is there, to read it. Nothing is changed, and a writer may go on. Of a log whose tail is
    /// damaged it has the records before the damage.
    pub fn open_to_read(&self, path: &str) -> Result<OpenLog<S>, FailureCause>
        ensures system { IfOk result (λ read. read.value.folder.system.value ≡ self.now) }
        ensures path { IfOk result (λ read. read.value.folder.path ≡ path.now) }
    {
        let alloc = self.rt.alloc();
        let folder = DiskFolder::open_to_read(alloc, self.system.clone()?, path)?;
        let read = ReadLog::open(alloc, Box::new(alloc, folder)?).map_err(unread)?;
        Ok(Box::new(alloc, read)?)
    }

    /// The bounds of the log at a path, which is opened for them.
    pub(crate) fn bounds(&self, path: &str) -> Result<Bounds, FailureCause>
        ensures { IsTrue S.honest → (first : ℕ) (all : List Slot)
            → IsLog first all (seen (replay (S.changes self.now path.now) (S.start path.now)))
            → IfOk result (λ bounds. (bounds.0 ≡ first) × (bounds.1 ≡ first + length all)) }
    {
        let opened = self.open_to_read(path)?;
        let read = &*opened;
        Ok((read.first(), read.end(), check_end(read)))
    }

    /// The system itself.
    pub fn system(&self) -> &S
        ensures so { IsTrue S.honest → (d : List ℕ) → S.was_so result.now d }
    {
        &*self.system
    }
}

// Whether a file of this name is one that was being published.
fn is_part(name: &str) -> bool {
    name == "tail.log.part" || name.ends_with(".store.part")
}

// Removes what a call that failed left unpublished.
fn remove_parts<S: SystemFiles>(
    rt: &HostRuntime,
    path: &str,
    folder: &mut DiskFolder<S>,
) -> io::Result<()> {
    for entry in fs::read_dir(rt, path)? {
        let entry = entry?;
        if is_part(entry.file_name()) {
            folder.remove(entry.file_name())?;
        }
    }
    Ok(())
}

/// Closes the log at this path. What a call that failed left unpublished is removed, as it may have filled the device.
pub fn close<S: SystemFiles>(rt: &HostRuntime, path: &str, log: WrittenLog<S>) {
    if log.is_broken() {
        let mut folder = Box::into_inner(log).into_folder();
        let _ = remove_parts(rt, path, &mut folder);
    }
}

/// Fails where the tail is damaged, once what is before the damage was given: the next record would be in it.
pub fn check_end<F: ReadableFolder>(read: &ReadLog<F>) -> Result<(), FailureCause> {
    match read.is_damaged() {
        true => Err(FailureCause::DamagedRecord(read.end())),
        false => Ok(()),
    }
}

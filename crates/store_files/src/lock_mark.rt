//! The mark in a folder's file `lock`: it is read as the folder is opened, and replaced before what it would claim
//! too much of is done.
//!
//! It is never synced. After a restart of the machine it tells nothing, and in a copy of the folder neither.

ghost use Rattle.std.specs.Prelude.{◌≡◌, ◌≢◌, ℕ, List, [], Some, IsTrue, IsSomeAnd, IfOk, OnOk, true, false, is_some};
ghost use Rattle.std.specs.Prelude.{map, option_map, string_bytes, unwrap_or};
ghost use Rattle.store_folder.specs.Folder.{AreNames};
ghost use Rattle.store_files.specs.Disk.{replay, seen, held, trusts};
ghost use Rattle.store_files.specs.Knowledge.{said};
ghost use Rattle.store_files.specs.Known.{Knows, AreSo};
ghost use Rattle.store_files.specs.Mark.{claimed, claims_entries, claims_of, Covers};
ghost use Rattle.store_files.specs.Opened.{IsMarked};

use crate::knowledge::{Doing, Knowledge, Standing};
use crate::loading::read_all;
use crate::locking::is_blocked;
use crate::mark::{Mark, end_mark, mark_before, read_mark};
use crate::paths::lock_path_of;
use crate::system_files::{FoundMark, SystemFiles};
use std::alloc::Global;
use std::fs::{File, Files, OpenFile};
use std::io;
use std::io::{ErrorKind, Seek, SeekFrom, Write};
use std::os::unix::fs::MetadataExt;

// Where Linux has the number of its start: it is another after each restart.
const BOOT_ID: &str = "/proc/sys/kernel/random/boot_id";

/// The lock of a folder with its mark, and what the folder's writer knows.
#[derive(Drop)]
pub(crate) struct LockMark<S: SystemFiles> {
    alloc: Global,
    /// The lock. None where the folder is only read.
    pub(crate) lock: Option<S::File>,
    pub(crate) boot: Vec<u8>,
    pub(crate) inode: String,
    /// None where a write of it failed.
    pub(crate) mark: Option<Mark>,
    pub(crate) knowledge: Knowledge,
    /// Whether there is a file for it.
    pub(crate) is_kept: bool,
    has_changed: bool,
}

// The number of the machine's start. Empty where the system has none.
fn boot_id<R: Files>(rt: &R, alloc: Global) -> io::Result<Vec<u8>> {
    match File::open(rt, BOOT_ID) {
        Ok(mut file) => {
            let mut bytes = read_all(alloc, &mut file)?;
            bytes.retain(|byte| byte.is_ascii_graphic());
            Ok(bytes)
        }
        Err(error) if error.kind() == ErrorKind::NotFound => Ok(Vec::new(alloc)),
        Err(error) => Err(error),
    }
}

/// The mark in the file of this path, which is open.
pub(crate) fn found_mark<R: Files, F: OpenFile>(
    rt: &R,
    alloc: Global,
    lock: &F,
    path: &str,
) -> io::Result<FoundMark> {
    let boot = boot_id(rt, alloc)?;
    let number = lock.metadata()?.ino();
    let inode = format!(in alloc; "{number}")?;
    let bytes = read_all(alloc, &mut File::open(rt, path)?)?;
    let mark = read_mark(alloc, &bytes, &boot, inode.as_bytes())?;
    Ok(FoundMark { mark, boot, inode })
}

/// Replaces the bytes of a file.
pub(crate) fn replace_bytes<F: Write + Seek + OpenFile>(
    file: &mut F,
    bytes: &[u8],
) -> io::Result<()> {
    file.seek(SeekFrom::Start(0))?;
    file.write_all(bytes)?;
    file.set_len(bytes.len() as u64)
}

impl<S: SystemFiles> LockMark<S> {
    /// The mark that was found in a folder.
    pub(crate) fn of(
        alloc: Global,
        lock: Option<S::File>,
        found: FoundMark,
    ) -> io::Result<LockMark<S>>
        ensures lock { IfOk result (λ m. m.lock ≡ lock) }
        ensures files { IfOk result (λ m. (n : List ℕ) → said m.knowledge n ≡ claimed found.mark n) }
        ensures entries { IfOk result (λ m. m.knowledge.has_kept_entries ≡ claims_entries found.mark.kind) }
        ensures mark { IfOk result (λ m. m.mark ≡ Some found.mark) }
        ensures place { IfOk result (λ m. (m.boot ≡ found.boot) × (m.inode ≡ found.inode)) }
        ensures kept { IfOk result (λ m. IsTrue m.is_kept) }
    {
        let FoundMark { mark, boot, inode } = found;
        let knowledge = Knowledge::after(alloc, &mark)?;
        Ok(LockMark {
            alloc,
            lock,
            boot,
            inode,
            mark: Some(mark),
            knowledge,
            is_kept: true,
            has_changed: false,
        })
    }

    /// None: nothing is known of the files that are there, and nothing is left for the next writer.
    pub(crate) fn none(alloc: Global, lock: Option<S::File>) -> LockMark<S>
        ensures lock { result.lock ≡ lock }
        ensures files { (n : List ℕ) → said result.knowledge n ≡ Standing.Failed }
        ensures entries { result.knowledge.has_kept_entries ≡ false }
        ensures unkept { result.is_kept ≡ false }
    {
        LockMark {
            alloc,
            lock,
            boot: Vec::new(alloc),
            inode: String::new(alloc),
            mark: None,
            knowledge: Knowledge::none(alloc),
            is_kept: false,
            has_changed: false,
        }
    }

    // Replaces the mark.
    fn replace(&mut self, system: &mut S, mark: Mark) -> io::Result<()>
        requires { IsTrue S.honest → (d : List ℕ) → option_map S.locks self.old.lock ≡ Some (Some d)
            → AreSo (claims_of mark) (replay (S.changes system.old d) (S.start d)) }
        ensures marked { IsTrue S.honest → (d : List ℕ) → IsMarked
            (option_map S.locks self.old.lock) (option_map S.place self.old.lock) (S.was_so system.old d)
            (S.claims system.old d) (replay (S.changes system.old d) (S.start d)) d self.old.boot.items
            (string_bytes self.old.inode) self.old.mark
            → IsMarked (option_map S.locks self.new.lock) (option_map S.place self.new.lock) (S.was_so system.new d)
            (S.claims system.new d) (replay (S.changes system.new d) (S.start d)) d self.new.boot.items
            (string_bytes self.new.inode) self.new.mark }
        ensures written { OnOk result (self.new.mark ≡ Some mark) }
        ensures knowledge { self.new.knowledge ≡ self.old.knowledge }
        ensures kept { self.new.is_kept ≡ self.old.is_kept }
        ensures held { is_some self.new.lock ≡ is_some self.old.lock }
        ensures lock { unwrap_or (option_map S.is_locked self.new.lock) false
            ≡ unwrap_or (option_map S.is_locked self.old.lock) false }
        ensures changes { S.changes system.new ≡ S.changes system.old }
        ensures so { IsTrue S.honest → (d : List ℕ) → S.was_so system.old d → S.was_so system.new d }
    {
        let Some(lock) = &mut self.lock else {
            return Err(ErrorKind::PermissionDenied.into());
        };
        self.mark = None;
        system.write_mark(lock, &self.boot, self.inode.as_str(), &mark)?;
        self.mark = Some(mark);
        Ok(())
    }

    /// Fails where the folder is only read.
    pub(crate) fn check_lock(&self) -> io::Result<()>
        ensures { OnOk result (IsTrue (is_some self.now.lock)) }
    {
        match &self.lock {
            Some(_) => Ok(()),
            None => Err(ErrorKind::PermissionDenied.into()),
        }
    }

    // Whether this may be done under the mark.
    fn is_enough(&self, doing: &Doing<'_>) -> bool
        ensures { IsTrue result → IsSomeAnd self.now.mark (λ m. Covers m (said self.now.knowledge) doing.now) }
    {
        match &self.mark {
            Some(mark) => mark.is_enough(&self.knowledge, doing),
            None => false,
        }
    }

    /// Replaces the mark, unless this may be done under it, and returns whether it did. It is called before the system
    /// is.
    pub(crate) fn begin(&mut self, system: &mut S, doing: &Doing<'_>) -> io::Result<bool>
        requires { IsTrue S.honest → self.old.is_kept ≡ true → (d : List ℕ)
            → option_map S.locks self.old.lock ≡ Some (Some d)
            → Knows (said self.old.knowledge) self.old.knowledge.has_kept_entries
            (replay (S.changes system.old d) (S.start d)) }
        ensures marked { IsTrue S.honest → self.old.is_kept ≡ true → (d : List ℕ) → IsMarked
            (option_map S.locks self.old.lock) (option_map S.place self.old.lock) (S.was_so system.old d)
            (S.claims system.old d) (replay (S.changes system.old d) (S.start d)) d self.old.boot.items
            (string_bytes self.old.inode) self.old.mark
            → IsMarked (option_map S.locks self.new.lock) (option_map S.place self.new.lock) (S.was_so system.new d)
            (S.claims system.new d) (replay (S.changes system.new d) (S.start d)) d self.new.boot.items
            (string_bytes self.new.inode) self.new.mark }
        ensures covered { self.old.is_kept ≡ true
            → OnOk result (IsSomeAnd self.new.mark (λ m. Covers m (said self.old.knowledge) doing.now)) }
        ensures knowledge { self.new.knowledge ≡ self.old.knowledge }
        ensures kept { self.new.is_kept ≡ self.old.is_kept }
        ensures held { OnOk result (IsTrue (is_some self.new.lock)) }
        ensures same { is_some self.new.lock ≡ is_some self.old.lock }
        ensures lock { unwrap_or (option_map S.is_locked self.new.lock) false
            ≡ unwrap_or (option_map S.is_locked self.old.lock) false }
        ensures changes { S.changes system.new ≡ S.changes system.old }
        ensures so { IsTrue S.honest → (d : List ℕ) → S.was_so system.old d → S.was_so system.new d }
    {
        self.check_lock()?;
        if !self.is_kept {
            return Ok(false);
        }
        self.has_changed = true;
        if self.is_enough(doing) {
            return Ok(false);
        }
        if self.knowledge.others() == Standing::Failed {
            return Err(ErrorKind::OutOfMemory.into());
        }
        let mark = mark_before(self.alloc, &self.knowledge, doing)?;
        self.replace(system, mark)?;
        Ok(true)
    }

    /// Replaces the mark by one of what is known now: a file that was synced is not named any more, or the next writer
    /// would refuse it if this one is killed.
    pub(crate) fn renew(&mut self, system: &mut S) -> io::Result<()>
        requires { IsTrue S.honest → self.old.is_kept ≡ true → (d : List ℕ)
            → option_map S.locks self.old.lock ≡ Some (Some d)
            → Knows (said self.old.knowledge) self.old.knowledge.has_kept_entries
            (replay (S.changes system.old d) (S.start d)) }
        ensures marked { IsTrue S.honest → (d : List ℕ) → IsMarked
            (option_map S.locks self.old.lock) (option_map S.place self.old.lock) (S.was_so system.old d)
            (S.claims system.old d) (replay (S.changes system.old d) (S.start d)) d self.old.boot.items
            (string_bytes self.old.inode) self.old.mark
            → IsMarked (option_map S.locks self.new.lock) (option_map S.place self.new.lock) (S.was_so system.new d)
            (S.claims system.new d) (replay (S.changes system.new d) (S.start d)) d self.new.boot.items
            (string_bytes self.new.inode) self.new.mark }
        ensures knowledge { self.new.knowledge ≡ self.old.knowledge }
        ensures kept { self.new.is_kept ≡ self.old.is_kept }
        ensures held { is_some self.new.lock ≡ is_some self.old.lock }
        ensures lock { unwrap_or (option_map S.is_locked self.new.lock) false
            ≡ unwrap_or (option_map S.is_locked self.old.lock) false }
        ensures changes { S.changes system.new ≡ S.changes system.old }
        ensures so { IsTrue S.honest → (d : List ℕ) → S.was_so system.old d → S.was_so system.new d }
    {
        if !self.is_kept || self.knowledge.others() == Standing::Failed {
            return Ok(());
        }
        let mark = mark_before(self.alloc, &self.knowledge, &Doing::FolderSynced)?;
        self.replace(system, mark)
    }

    /// Whether the writer changed the folder, and knows of what it did.
    pub(crate) fn has_end(&self) -> bool
        ensures kept { IsTrue result → self.now.is_kept ≡ true }
        ensures known { IsTrue result → self.now.knowledge.others ≢ Standing.Failed }
    {
        self.is_kept && self.has_changed && self.knowledge.others() != Standing::Failed
    }

    /// Leaves the mark for the next writer, in a folder of these files.
    pub(crate) fn end(&mut self, system: &mut S, names: &[String]) -> io::Result<()>
        requires kept { self.old.is_kept ≡ true }
        requires known { self.old.knowledge.others ≢ Standing.Failed }
        requires so { IsTrue S.honest → (d : List ℕ) → option_map S.locks self.old.lock ≡ Some (Some d)
            → Knows (said self.old.knowledge) self.old.knowledge.has_kept_entries
            (replay (S.changes system.old d) (S.start d))
            × AreNames (seen (replay (S.changes system.old d) (S.start d))) (map string_bytes names.now) }
    {
        let mark = end_mark(self.alloc, &self.knowledge, names)?;
        self.replace(system, mark)
    }
}

/// Whether the writer that had the folder of this path last has ended well, and left the file of this name on the disk.
/// This takes no lock: a writer may begin right after.
pub fn is_left_synced<S: SystemFiles>(
    system: &S,
    alloc: Global,
    folder: &str,
    name: &str,
) -> io::Result<bool>
    requires so { IsTrue S.honest → S.was_so system.now folder.now }
    ensures trusted { IsTrue S.honest → IfOk result (λ is. IsTrue is
        → trusts (replay (S.changes system.now folder.now) (S.start folder.now)) name.now) }
    ensures durable { IsTrue S.honest → IfOk result (λ is. IsTrue is → (bytes : List ℕ)
        → held (replay (S.changes system.now folder.now) (S.start folder.now)) name.now bytes
        → seen (replay (S.changes system.now folder.now) (S.start folder.now)) name.now ≡ Some bytes) }
{
    let path = lock_path_of(alloc, folder)?;
    if is_blocked(system, path.as_str()) {
        return Err(ErrorKind::InvalidInput.into());
    }
    let lock = system.open(path.as_str())?;
    let found = system.find_mark(alloc, &lock, path.as_str(), folder)?;
    let mark = LockMark::<S>::of(alloc, None, found)?;
    if !mark.knowledge.has_kept_entries() {
        return Ok(false);
    }
    Ok(mark.knowledge.is_synced(name))
}

//! A file of a folder that is open, and the bytes that are written at its end.

ghost use Rattle.std.specs.Prelude.{◌≡◌, ℕ, List, Some, IsTrue, true, is_ok, option_map, string_bytes};
ghost use Rattle.store_files.specs.Disk.{replay};
ghost use Rattle.store_files.specs.Steps.{Appends};
ghost use Rattle.store_files.specs.Opened.{IsTracked, IsMarked};
ghost use Rattle.store_files.specs.Known.{Knows, AreSo, KeepsMark};
ghost use Rattle.store_files.specs.Knowledge.{said};

use crate::knowledge::{Doing, Standing};
use crate::lock_mark::LockMark;
use crate::system_files::SystemFiles;
use std::alloc::Global;
use std::io;

/// A file that is open.
#[derive(Drop)]
pub(crate) struct KeptFile<F> {
    pub(crate) name: String,
    pub(crate) file: F,
    /// Whether a write goes to its end. Otherwise it is open to be synced alone.
    pub(crate) can_append: bool,
    /// Whether a write failed, and what it wrote was cut off.
    pub(crate) is_cut: bool,
}

/// Writes bytes at the end. What was written of them is cut off where a write fails: on a full device a torn end would
/// take room, and the next opening of a log would need more, to write the whole tail without it.
pub(crate) fn append<S: SystemFiles>(
    system: &mut S,
    open: &mut KeptFile<S::File>,
    bytes: &[u8],
) -> io::Result<()>
    ensures appended { IsTrue S.honest → (d n : List ℕ) → IsTracked (replay (S.changes system.old d) (S.start d)) d n
        (S.opened_as open.old.file) (S.number open.old.file) → Appends n bytes.now (is_ok result)
        (replay (S.changes system.old d) (S.start d)) (replay (S.changes system.new d) (S.start d)) }
    ensures name { string_bytes open.new.name ≡ string_bytes open.old.name }
    ensures opened { S.opened_as open.new.file ≡ S.opened_as open.old.file }
    ensures number { S.number open.new.file ≡ S.number open.old.file }
    ensures mark { IsTrue S.honest → (d n : List ℕ) → IsTracked (replay (S.changes system.old d) (S.start d)) d n
        (S.opened_as open.old.file) (S.number open.old.file) → (S.claims system.old d).files n ≡ Standing.Failed
        → AreSo (S.claims system.old d) (replay (S.changes system.old d) (S.start d))
        → KeepsMark (S.claims system.old d) (S.claims system.new d) (S.was_so system.old d) (S.was_so system.new d)
        (replay (S.changes system.new d) (S.start d)) }
{
    let len = system.len(&open.file)?;
    match system.write(&mut open.file, bytes) {
        Ok(()) => Ok(()),
        Err(error) => {
            open.is_cut = system.cut(&open.file, len).is_ok();
            Err(error)
        }
    }
}

/// Syncs a file of which what a failed write wrote was cut off, and that was not synced since.
pub(crate) fn sync_cut<S: SystemFiles>(
    alloc: Global,
    system: &mut S,
    mark: &mut LockMark<S>,
    open: &KeptFile<S::File>,
)
    requires { IsTrue S.honest → mark.old.is_kept ≡ true → (d : List ℕ)
        → option_map S.locks mark.old.lock ≡ Some (Some d)
        → Knows (said mark.old.knowledge) mark.old.knowledge.has_kept_entries
        (replay (S.changes system.old d) (S.start d)) }
    ensures known { IsTrue S.honest → (d : List ℕ) → IsTracked (replay (S.changes system.old d) (S.start d)) d
        (string_bytes open.now.name) (S.opened_as open.now.file) (S.number open.now.file)
        → Knows (said mark.old.knowledge) mark.old.knowledge.has_kept_entries
        (replay (S.changes system.old d) (S.start d))
        → Knows (said mark.new.knowledge) mark.new.knowledge.has_kept_entries
        (replay (S.changes system.new d) (S.start d)) }
    ensures marked { IsTrue S.honest → mark.old.is_kept ≡ true → (d : List ℕ) → IsTracked
        (replay (S.changes system.old d) (S.start d)) d (string_bytes open.now.name) (S.opened_as open.now.file)
        (S.number open.now.file) → Knows (said mark.old.knowledge) mark.old.knowledge.has_kept_entries
        (replay (S.changes system.old d) (S.start d)) → IsMarked
        (option_map S.locks mark.old.lock) (option_map S.place mark.old.lock) (S.was_so system.old d)
        (S.claims system.old d) (replay (S.changes system.old d) (S.start d)) d mark.old.boot.items
        (string_bytes mark.old.inode) mark.old.mark
        → IsMarked (option_map S.locks mark.new.lock) (option_map S.place mark.new.lock) (S.was_so system.new d)
        (S.claims system.new d) (replay (S.changes system.new d) (S.start d)) d mark.new.boot.items
        (string_bytes mark.new.inode) mark.new.mark }
    ensures kept { mark.new.is_kept ≡ mark.old.is_kept }
{
    let name = open.name.as_str();
    if !open.is_cut || mark.knowledge.standing(name) != Standing::Unsynced {
        return;
    }
    let Ok(_) = mark.begin(system, &Doing::SyncFailed(name)) else {
        return;
    };
    match system.sync_file(&open.file) {
        Ok(()) => mark.knowledge.note(alloc, &Doing::FileSynced(name)),
        Err(_) => mark.knowledge.note(alloc, &Doing::SyncFailed(name)),
    }
}

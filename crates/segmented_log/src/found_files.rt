//! The files that an opening finds are put on the disk.

ghost use Rattle.std.specs.Prelude.{◌≡◌, ◌⊎◌, ◌≤◌, ℕ, List, Some, map, string_bytes, IsTrue, IsSome, IfOk, IfErr, OnOk};
ghost use Rattle.std.specs.Prelude.{OnErr, IsErrOf};
ghost use Rattle.std.specs.Result.{IsErrAnd};
ghost use Rattle.store_base.specs.Counts.{HasRisen};
ghost use Rattle.store_folder.specs.Moments.{LeavesOnly, NoMore};
ghost use Rattle.store_folder.specs.Folder.{AreNames, EntriesAreKept, EntriesStay};
ghost use Rattle.segmented_log.specs.Names.{tail_name};
ghost use Rattle.segmented_log.specs.Opening.{IsOfLog, IsSyncedButTail, HasSegments, KeepsButFailed, CanSyncTail};
ghost use Rattle.segmented_log.specs.Settled.{TailIsKept};
ghost use Rattle.segmented_log.specs.Causes.{IsFault, IsFailure};

use crate::error::LogError;
use crate::names::TAIL;
use crate::numbers::segment_number;
use std::io;
use store_folder::Folder;

// Whether a file of this name is one of a log's.
fn is_of_log(name: &str) -> bool
    ensures yes { IsOfLog name.now → IsTrue result }
    ensures no { IsTrue result → IsOfLog name.now }
{
    name == TAIL || segment_number(name).is_some()
}

// Whether a sync of a file is asked for, and puts it on the disk.
fn can_sync<F: Folder>(folder: &F, name: &str, syncs_tail: bool) -> bool
    ensures { IsTrue F.honest → IsTrue result → F.trusted folder.now name.now }
{
    folder.is_trusted(name) && (syncs_tail || name != TAIL)
}

// Syncs a file, if it is one of a log's and needs a sync, and the tail only if that is asked for. Returns whether it is
// on the disk then: a tail is not of which a sync has failed.
fn sync_found_file<F: Folder>(
    folder: &mut F,
    name: &str,
    syncs_tail: bool,
) -> Result<bool, LogError>
    requires { IsTrue F.honest → IsSome (F.seen folder.old name.now) }
    ensures durable { IsTrue F.honest → IfOk result (λ done. IsOfLog name.now → (name.now ≡ tail_name → IsTrue done)
        → (bytes : List ℕ) → F.may_hold folder.new name.now bytes → F.seen folder.old name.now ≡ Some bytes) }
    ensures trusted { IsTrue F.honest → IfOk result (λ done. name.now ≡ tail_name → IsTrue done
        → F.trusted folder.new name.now) }
    ensures seen { IsTrue F.honest → OnOk result ((n : List ℕ) → F.seen folder.new n ≡ F.seen folder.old n) }
    ensures seen_err { IsTrue F.honest → OnErr result (KeepsButFailed
        (F.failures folder.old) (F.failures folder.new) (F.seen folder.old) (F.seen folder.new)) }
    ensures files { IsTrue F.honest
        → (n bytes : List ℕ) → F.may_hold folder.new n bytes → F.may_hold folder.old n bytes }
    ensures crash { IsTrue F.honest → NoMore (F.may_leave folder.old) (F.may_leave folder.new) }
    ensures trust { IsTrue F.honest → OnOk result (EntriesStay (F.trusted folder.old) (F.trusted folder.new)) }
    ensures any_moment { IsTrue F.honest
        → LeavesOnly F.moment F.left_since folder.old folder.new (F.may_leave folder.old) }
    ensures failures { F.failures folder.old ≤ F.failures folder.new }
    ensures failed { IsTrue F.honest → IsErrAnd result IsFailure
        → HasRisen (F.failures folder.old) (F.failures folder.new) ⊎ HasSegments (F.seen folder.old) }
    ensures kind { IfErr result IsFault }
{
    if !is_of_log(name) || folder.is_synced(name) {
        return Ok(true);
    }
    if can_sync(folder, name, syncs_tail) {
        folder.sync_file(name)?;
        return Ok(true);
    }
    if name == TAIL {
        return Ok(false);
    }
    Err(LogError::Unsynced)
}

// Syncs the folder, if it needs that.
fn sync_entries<F: Folder>(folder: &mut F) -> io::Result<()>
    ensures durable { IsTrue F.honest → OnOk result
        (EntriesAreKept (F.seen folder.old) (F.may_hold folder.old) (F.may_leave folder.new)) }
    ensures kept { IsTrue F.honest → OnOk result ((n : List ℕ) → F.entry_kept folder.new n) }
    ensures seen { IsTrue F.honest → (n : List ℕ) → F.seen folder.new n ≡ F.seen folder.old n }
    ensures files { IsTrue F.honest
        → (n bytes : List ℕ) → F.may_hold folder.new n bytes → F.may_hold folder.old n bytes }
    ensures crash { IsTrue F.honest → NoMore (F.may_leave folder.old) (F.may_leave folder.new) }
    ensures trust { IsTrue F.honest → EntriesStay (F.trusted folder.old) (F.trusted folder.new) }
    ensures any_moment { IsTrue F.honest
        → LeavesOnly F.moment F.left_since folder.old folder.new (F.may_leave folder.old) }
    ensures failures { F.failures folder.old ≤ F.failures folder.new }
    ensures fault { OnErr result (HasRisen (F.failures folder.old) (F.failures folder.new)) }
{
    if folder.has_kept_entries() {
        return Ok(());
    }
    folder.sync()
}

/// Puts on the disk what a look sees of a log's files, which are among the files of these names: all that there are.
/// The process before this one may have written them without a sync, and ended. The tail is synced only if that is
/// asked for, which it can be where it is not torn. Returns whether it is on the disk then, if there is one: it is not
/// if a sync of it has failed. A segment of which a sync has failed is refused.
///
/// A crash at any moment leaves what it could leave before the call. A look sees the same as before, but for a file
/// whose sync failed.
pub(crate) fn sync_found_files<F: Folder>(
    folder: &mut F,
    names: &[String],
    syncs_tail: bool,
) -> Result<bool, LogError>
    requires names { IsTrue F.honest → AreNames (F.seen folder.old) (map string_bytes names.now) }
    requires whole { IsTrue F.honest → IsTrue syncs_tail → CanSyncTail (F.seen folder.old) (F.may_hold folder.old) }
    ensures synced { IsTrue F.honest → OnOk result (IsSyncedButTail (F.seen folder.new) (F.may_leave folder.new)) }
    ensures tail { IsTrue F.honest → IfOk result (λ done. IsTrue done → (bytes : List ℕ)
        → F.seen folder.new tail_name ≡ Some bytes → TailIsKept (F.may_hold folder.new) (F.may_leave folder.new)
        (F.entry_kept folder.new) (F.trusted folder.new) bytes) }
    ensures seen { IsTrue F.honest → OnOk result ((n : List ℕ) → F.seen folder.new n ≡ F.seen folder.old n) }
    ensures seen_err { IsTrue F.honest → OnErr result (KeepsButFailed
        (F.failures folder.old) (F.failures folder.new) (F.seen folder.old) (F.seen folder.new)) }
    ensures crash { IsTrue F.honest → NoMore (F.may_leave folder.old) (F.may_leave folder.new) }
    ensures any_moment { IsTrue F.honest
        → LeavesOnly F.moment F.left_since folder.old folder.new (F.may_leave folder.old) }
    ensures failures { F.failures folder.old ≤ F.failures folder.new }
    ensures failed { IsTrue F.honest → IsErrAnd result IsFailure
        → HasRisen (F.failures folder.old) (F.failures folder.new) ⊎ HasSegments (F.seen folder.old) }
    ensures kind { IfErr result IsFault }
{
    let mut all = true;
    for name in names {
        let done = sync_found_file(folder, name.as_str(), syncs_tail)?;
        all = all && done;
    }
    sync_entries(folder)?;
    Ok(all)
}

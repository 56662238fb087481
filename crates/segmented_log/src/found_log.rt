//! What an opening finds of a log is put on the disk.

ghost use Rattle.std.specs.Prelude.{◌≡◌, ◌≢◌, ◌⊎◌, ◌≤◌, ℕ, List, Some, map, string_bytes, IsTrue, IfOk, IfErr, OnOk};
ghost use Rattle.std.specs.Prelude.{OnErr, IsErrOf};
ghost use Rattle.std.specs.Result.{IsErrAnd};
ghost use Rattle.store_base.specs.Counts.{HasRisen};
ghost use Rattle.store_folder.specs.Moments.{LeavesOnly, NoMore};
ghost use Rattle.store_folder.specs.Folder.{AreNames, bytes_of};
ghost use Rattle.segmented_log.specs.Names.{tail_name};
ghost use Rattle.segmented_log.specs.Opening.{IsSyncedButTail, HasSegments, KeepsButFailed};
ghost use Rattle.segmented_log.specs.Settled.{TailIsKept};
ghost use Rattle.segmented_log.specs.Causes.{IsFault, IsFailure};

use crate::error::LogError;
use crate::found_files::sync_found_files;
use crate::found_tail::can_sync_tail;
use crate::names::TAIL;
use crate::tail::Cut;
use std::alloc::Global;
use store_folder::{Folder, ReadableFolder};

/// What is found of a log's folder: the names of its files, and the tail's bytes. It is on the disk, but maybe for the
/// tail.
#[derive(Drop)]
pub(crate) struct FoundLog {
    pub(crate) names: Vec<String>,
    pub(crate) tail: Option<Vec<u8>>,
    /// Whether the tail is on the disk.
    pub(crate) is_kept: bool,
    /// What may be cut off the tail.
    pub(crate) cut: Cut,
}

/// What may be cut off the tail of a folder that is opened.
pub(crate) fn found_cut<F: Folder>(folder: &F) -> Cut
    ensures { result ≢ Cut.Damage }
{
    if folder.is_synced(TAIL) {
        Cut::Nothing
    } else {
        Cut::Unfinished
    }
}

/// Puts on the disk what a look sees of a log's folder, but for a torn tail.
pub(crate) fn find_log<F: ReadableFolder>(
    alloc: Global,
    folder: &mut F,
) -> Result<FoundLog, LogError>
    ensures names { IsTrue F.honest
        → IfOk result (λ found. AreNames (F.seen folder.new) (map string_bytes found.names.items)) }
    ensures tail { IsTrue F.honest → IfOk result (λ found. bytes_of found.tail ≡ F.seen folder.new tail_name) }
    ensures kept { IsTrue F.honest → IfOk result (λ found. IsTrue found.is_kept → (bytes : List ℕ)
        → F.seen folder.new tail_name ≡ Some bytes → TailIsKept (F.may_hold folder.new) (F.may_leave folder.new)
        (F.entry_kept folder.new) (F.trusted folder.new) bytes) }
    ensures cut { IfOk result (λ found. found.cut ≢ Cut.Damage) }
    ensures synced { IsTrue F.honest → OnOk result (IsSyncedButTail (F.seen folder.new) (F.may_leave folder.new)) }
    ensures seen { IsTrue F.honest → OnOk result (F.seen folder.new ≡ F.seen folder.old) }
    ensures seen_err { IsTrue F.honest → OnErr result (KeepsButFailed
        (F.failures folder.old) (F.failures folder.new) (F.seen folder.old) (F.seen folder.new)) }
    ensures crash { IsTrue F.honest → NoMore (F.may_leave folder.old) (F.may_leave folder.new) }
    ensures any_moment { IsTrue F.honest
        → LeavesOnly F.moment F.left_since folder.old folder.new (F.may_leave folder.old) }
    ensures failures { F.failures folder.old ≤ F.failures folder.new }
    ensures failed { IsTrue F.honest → IsTrue F.is_readable → IsErrAnd result IsFailure
        → HasRisen (F.failures folder.old) (F.failures folder.new) ⊎ HasSegments (F.seen folder.old) }
    ensures kind { IfErr result IsFault }
{
    let names = folder.names(alloc)?;
    let cut = found_cut(folder);
    let tail = folder.read(alloc, TAIL)?;
    let syncs_tail = can_sync_tail(alloc, folder, &tail)?;
    let is_kept = sync_found_files(folder, &names, syncs_tail)?;
    Ok(FoundLog {
        names,
        tail,
        is_kept,
        cut,
    })
}

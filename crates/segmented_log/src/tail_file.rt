//! The tail of a log, as a file of its folder.

ghost use Rattle.std.specs.Prelude.{◌≡◌, ◌≤◌, ◌++◌, ℕ, List, length, take, drop, IsTrue, IfErr, OnOk, OnErr, IsErrOf};
ghost use Rattle.std.specs.Prelude.{All, Some, map};
ghost use Rattle.std.specs.Result.{IsErrAnd};
ghost use Rattle.store_base.specs.Counts.{HasRisen};
ghost use Rattle.store_folder.specs.Moments.{ComesFrom, LeavesOnly};
ghost use Rattle.store_folder.specs.Folder.{Elsewhere, ElsewhereOfBoth};
ghost use Rattle.store_folder.specs.Publishing.{part, IsOldOrWhole};
ghost use Rattle.segmented_log.specs.Names.{tail_name};
ghost use Rattle.segmented_log.specs.Settled.{TailIsKept, GrowsTail, PutsBatch};
ghost use Rattle.segmented_log.specs.Causes.{IsFault, IsFailure};
ghost use Rattle.store_folder.specs.Calls.{doing_of, IsApart};
ghost use Rattle.segmented_log.specs.CallLists.{appending};

use crate::commit::Commit;
use crate::error::LogError;
use crate::names::{TAIL, TAIL_PART};
use store_folder::{Folder, FolderCall, carry_out, replace};

// The calls that put a batch after the tail's bytes, with one sync. They lend its bytes.
fn append_calls(batch: &[u8]) -> [FolderCall<'_>; 2]
    ensures calls { map doing_of result ≡ appending batch.now }
    ensures apart { All (λ call. IsApart (doing_of call)) result }
{
    [FolderCall::Append(TAIL, batch), FolderCall::SyncFile(TAIL)]
}

// Appends a batch to the tail, with one sync.
fn append_batch<F: Folder>(folder: &mut F, batch: &[u8]) -> Result<(), LogError>
    requires { IsTrue F.honest → (tail : List ℕ)
        × TailIsKept (F.may_hold folder.old) (F.may_leave folder.old) (F.entry_kept folder.old)
        (F.trusted folder.old) tail }
    ensures kept { IsTrue F.honest → OnOk result ((tail : List ℕ)
        → TailIsKept (F.may_hold folder.old) (F.may_leave folder.old) (F.entry_kept folder.old)
        (F.trusted folder.old) tail
        → TailIsKept (F.may_hold folder.new) (F.may_leave folder.new) (F.entry_kept folder.new)
        (F.trusted folder.new) (tail ++ batch.now)) }
    ensures elsewhere { IsTrue F.honest → Elsewhere tail_name (F.seen folder.old) (F.seen folder.new) }
    ensures crash { IsTrue F.honest
        → ComesFrom (Elsewhere tail_name) (F.may_leave folder.old) (F.may_leave folder.new) }

    // A crash at any moment leaves what was there, and maybe any bytes after the tail, no more than the batch has.
    ensures any_moment { IsTrue F.honest → (tail : List ℕ)
        → TailIsKept (F.may_hold folder.old) (F.may_leave folder.old) (F.entry_kept folder.old)
        (F.trusted folder.old) tail
        → LeavesOnly F.moment F.left_since folder.old folder.new
        (GrowsTail (F.may_leave folder.old) tail (length batch.now)) }
    ensures failures { F.failures folder.old ≤ F.failures folder.new }
    ensures failed { OnErr result (HasRisen (F.failures folder.old) (F.failures folder.new)) }
    ensures kind { IfErr result IsFault }
{
    carry_out(folder, &append_calls(batch))?;
    Ok(())
}

/// Puts on the disk the batch that this tail has at its end, after the bytes that are on the disk: with one sync, after
/// them; with two, as a new tail, with a sync of the new file and one of the folder.
pub(crate) fn write_batch<F: Folder>(
    folder: &mut F,
    commit: Commit,
    tail: &[u8],
    end: usize,
) -> Result<(), LogError>
    requires within { end ≤ length tail.now }
    requires kept { IsTrue F.honest
        → TailIsKept (F.may_hold folder.old) (F.may_leave folder.old) (F.entry_kept folder.old)
        (F.trusted folder.old) (take end tail.now) }
    ensures kept { IsTrue F.honest → OnOk result (TailIsKept (F.may_hold folder.new) (F.may_leave folder.new)
        (F.entry_kept folder.new) (F.trusted folder.new) tail.now) }
    ensures elsewhere { IsTrue F.honest
        → ElsewhereOfBoth (tail_name ++ part) tail_name (F.seen folder.old) (F.seen folder.new) }
    ensures crash { IsTrue F.honest → ComesFrom (ElsewhereOfBoth (tail_name ++ part) tail_name)
        (F.may_leave folder.old) (F.may_leave folder.new) }
    ensures any_moment { IsTrue F.honest → LeavesOnly F.moment F.left_since folder.old folder.new
        (PutsBatch commit (F.may_leave folder.old) (take end tail.now) (drop end tail.now)) }
    ensures failures { F.failures folder.old ≤ F.failures folder.new }
    ensures failed { IsErrAnd result IsFailure → HasRisen (F.failures folder.old) (F.failures folder.new) }
    ensures kind { IfErr result IsFault }
{
    match commit {
        Commit::OneSync => append_batch(folder, &tail[end..]),
        Commit::TwoSyncs => replace_tail(folder, tail),
    }
}

/// Replaces the tail by a file of these bytes, or makes it.
pub(crate) fn replace_tail<F: Folder>(folder: &mut F, bytes: &[u8]) -> Result<(), LogError>
    ensures kept { IsTrue F.honest → OnOk result
        (TailIsKept (F.may_hold folder.new) (F.may_leave folder.new) (F.entry_kept folder.new)
        (F.trusted folder.new) bytes.now) }
    ensures elsewhere { IsTrue F.honest
        → ElsewhereOfBoth (tail_name ++ part) tail_name (F.seen folder.old) (F.seen folder.new) }
    ensures crash { IsTrue F.honest → ComesFrom (ElsewhereOfBoth (tail_name ++ part) tail_name)
        (F.may_leave folder.old) (F.may_leave folder.new) }

    // A crash at any moment leaves the old tail or the new one.
    ensures any_moment { IsTrue F.honest → LeavesOnly F.moment F.left_since folder.old folder.new
        (IsOldOrWhole (F.may_leave folder.old) (tail_name ++ part) tail_name (Some bytes.now)) }
    ensures failures { F.failures folder.old ≤ F.failures folder.new }
    ensures failed { IsErrAnd result IsFailure → HasRisen (F.failures folder.old) (F.failures folder.new) }
    ensures kind { IfErr result IsFault }
{
    replace(folder, TAIL_PART, TAIL, bytes)?;
    Ok(())
}

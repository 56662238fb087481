//! Whole lists of calls.

ghost use Rattle.std.specs.Prelude.{◌≡◌, ◌⊎◌, ◌↔◌, false, ◌≤◌, ◌+◌, max, ◌∷◌, [], ℕ, List, length};
ghost use Rattle.std.specs.Prelude.{OnOk, OnErr, IfOk, IfErr, IsErrOf, IsTrue};
ghost use Rattle.store_folder.specs.Moments.{LeavesOnly};
ghost use Rattle.store_format.specs.Block.{Slot};
ghost use Rattle.segmented_log.specs.Log.{IsLog, IsBlank};
ghost use Rattle.segmented_log.specs.Runs.{IsOldOrCalled};
ghost use Rattle.segmented_log.specs.Opening.{IsNoLog, HasDamagedTail};
ghost use Rattle.segmented_log.specs.Causes.{IsOfOpenings};
ghost use Rattle.segmented_log.specs.Runs.{pending_by, dropped_by, Drops, Makes, HasBeginning, KeepsAndAdds};
ghost use Rattle.segmented_log.specs.Runs.{HasMadeFirst, IsOfCalls};

use crate::commit::Commit;
use crate::error::LogError;
use crate::log::SegmentedLog;
use std::alloc::Global;
use store_folder::ReadableFolder;

/// A call that writes to a log.
#[derive(Debug, Drop)]
pub enum Call {
    Append(Vec<u8>),
    Sync,
    Seal,
    Compact(u64),
    DropBefore(u64),
}

// Makes one call.
fn make_call<F: ReadableFolder>(log: &mut SegmentedLog<F>, call: &Call) -> Result<(), LogError>
    requires { log.old.is_broken ≡ false }

    ensures works { OnOk result (log.new.is_broken ≡ false) }
    ensures commit { log.new.commit ≡ log.old.commit }
    ensures first { (Drops (call.now ∷ []) → ⊥) → log.new.first ≡ log.old.first }
    ensures grows { IsTrue F.honest → log.old.first ≤ log.new.first }
    ensures reaches { IsTrue F.honest → log.new.first ≤ max log.old.first
        (dropped_by (log.old.first + length log.old.slots) log.old.pending (call.now ∷ [])) }
    ensures slots { IsTrue F.honest → OnOk result
        (Makes (call.now ∷ []) log.old.pending log.old.first log.old.slots log.new.first log.new.slots) }
    ensures pending { OnOk result (log.new.pending ≡ pending_by log.old.pending (call.now ∷ [])) }
    ensures any_moment { IsTrue F.honest → LeavesOnly F.moment F.left_since log.old.folder log.new.folder
        (HasBeginning log.old.commit log.old.first log.old.slots log.old.pending (call.now ∷ [])) }
    ensures broken { IsErrOf result LogError.Broken → ⊥ }
    ensures err { OnErr result (IsTrue log.new.is_broken ⊎ (log.new ≡ log.old)) }
    ensures failures { F.failures log.old.folder ≤ F.failures log.new.folder }
    ensures kind { IfErr result (IsOfCalls (call.now ∷ [])) }
{
    // A log that works has on the disk what it has acknowledged.
    if log.is_broken() {
        return Err(LogError::Broken);
    }
    match call {
        Call::Append(bytes) => {
            log.append(bytes)?;
            Ok(())
        }
        Call::Sync => log.sync(),
        Call::Seal => log.seal(),
        Call::Compact(size) => log.compact(*size),
        Call::DropBefore(number) => log.drop_before(*number),
    }
}

/// Makes calls, in order, up to the first that fails. What was acknowledged before stays, but the first records that
/// these calls drop: a crash at any moment leaves it, followed by the first batches of these calls, none skipped and
/// none in part. Seals and compactions change nothing of it, and no drop takes a record that is synced after it.
///
/// Errors: `Broken`, and those of the call that failed. The log is then broken, or has what the calls before that one
/// made of it.
pub fn call_all<F: ReadableFolder>(
    log: &mut SegmentedLog<F>,
    calls: &[Call],
) -> Result<(), LogError>
    ensures works { OnOk result (log.new.is_broken ≡ false) }
    ensures commit { log.new.commit ≡ log.old.commit }
    ensures acknowledged { IsTrue F.honest → OnOk result
        (Makes calls.now log.old.pending log.old.first log.old.slots log.new.first log.new.slots) }
    ensures pending { OnOk result (log.new.pending ≡ pending_by log.old.pending calls.now) }

    // The first number, also if a call fails.
    ensures first { (Drops calls.now → ⊥) → log.new.first ≡ log.old.first }
    ensures grows { IsTrue F.honest → log.old.first ≤ log.new.first }
    ensures reaches { IsTrue F.honest → log.new.first ≤ max log.old.first
        (dropped_by (log.old.first + length log.old.slots) log.old.pending calls.now) }

    // A crash at any moment, also if a call fails.
    ensures any_moment { IsTrue F.honest → log.old.is_broken ≡ false
        → LeavesOnly F.moment F.left_since log.old.folder log.new.folder
        (HasBeginning log.old.commit log.old.first log.old.slots log.old.pending calls.now) }
    ensures broken { IsErrOf result LogError.Broken ↔ IsTrue log.old.is_broken }
    ensures err { IsTrue F.honest → OnErr result (IsTrue log.new.is_broken
        ⊎ HasMadeFirst calls.now log.old log.new) }
    ensures same { IsTrue log.old.is_broken → log.new ≡ log.old }
    ensures failures { F.failures log.old.folder ≤ F.failures log.new.folder }
    ensures kind { IfErr result (IsOfCalls calls.now) }
{
    if log.is_broken() {
        return Err(LogError::Broken);
    }
    for next in calls {
        make_call(log, next)?;
    }
    Ok(())
}

/// Opens the log that a crash may have left, and makes calls: what a process does between two crashes. A crash at any
/// moment of it, while it opens too, leaves the log's records, but those that these calls drop, and after them the
/// first batches of these calls.
///
/// So over any number of crashes no acknowledged record is lost that no call drops: what one process leaves is what the
/// next one opens.
pub fn open_and_call<F: ReadableFolder>(
    alloc: Global,
    folder: F,
    seal_size: usize,
    commit: Commit,
    calls: &[Call],
) -> Result<SegmentedLog<F>, (LogError, F)>
    ensures works { IfOk result (λ log. log.is_broken ≡ false) }
    ensures commit { IfOk result (λ log. log.commit ≡ commit) }
    ensures acknowledged { IsTrue F.honest → IfOk result (λ log. (first : ℕ) (kept : List Slot)
        → IsLog first kept (F.seen folder) → Makes calls.now [] first kept log.first log.slots) }
    ensures begun { IsTrue F.honest → IfOk result (λ log. IsBlank (F.seen folder)
        → Makes calls.now [] 0 [] log.first log.slots) }
    ensures pending { IfOk result (λ log. log.pending ≡ pending_by [] calls.now) }
    ensures any_moment { IsTrue F.honest → IfOk result (λ log. LeavesOnly F.moment F.left_since folder log.folder
        (IsOldOrCalled commit calls.now (F.may_leave folder) (F.seen folder))) }
    ensures any_moment_err { IsTrue F.honest → IfErr result (λ e. LeavesOnly F.moment F.left_since folder e.1
        (IsOldOrCalled commit calls.now (F.may_leave folder) (F.seen folder))) }

    // What `open` refuses for the folder's files, it refuses.
    ensures no_log { IsTrue F.honest → IfErr result (λ e. e.0 ≡ LogError.NoLog → IsNoLog (F.seen folder)) }
    ensures damaged { IsTrue F.honest → IfErr result (λ e. e.0 ≡ LogError.DamagedTail
        → HasDamagedTail (F.seen folder)) }
    ensures broken { IfErr result (λ e. e.0 ≡ LogError.Broken → ⊥) }
    ensures kind { IfErr result (λ e. IsOfOpenings e.0 ⊎ IsOfCalls calls.now e.0) }
{
    let mut log = match SegmentedLog::open(alloc, folder, seal_size, commit) {
        Ok(log) => log,
        Err(refusal) => return Err(refusal),
    };
    match call_all(&mut log, calls) {
        Ok(()) => Ok(log),
        Err(error) => Err((error, log.into_folder())),
    }
}

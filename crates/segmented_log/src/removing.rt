//! Old segments are removed from a folder whose log is not opened.

ghost use Rattle.std.specs.Prelude.{◌≡◌, ◌⊎◌, ◌≤◌, ◌<◌, false, ℕ, List, Some, map, string_bytes, IsTrue};
ghost use Rattle.std.specs.Prelude.{IfOk, IfErr, OnOk, IsErrOf};
ghost use Rattle.std.specs.Result.{IsErrAnd};
ghost use Rattle.store_base.specs.Counts.{HasRisen};
ghost use Rattle.store_folder.specs.Moments.{LeavesOnly};
ghost use Rattle.store_folder.specs.Folder.{AreNames, Keeps};
ghost use Rattle.store_format.specs.Block.{Slot};
ghost use Rattle.log_tail.specs.Tail.{first_of, IsTail};
ghost use Rattle.segmented_log.specs.Names.{tail_name};
ghost use Rattle.segmented_log.specs.Parts.{part_of, first_in};
ghost use Rattle.segmented_log.specs.Log.{IsLog};
ghost use Rattle.segmented_log.specs.Opening.{IsSyncedButTail, IsNoLog, HasSegments, HasDamagedTail};
ghost use Rattle.segmented_log.specs.Dropping.{DropsTo, RemovesOnly, LosesOld, IsOldWithout, BeginsAt, TailBeginsAt};
ghost use Rattle.segmented_log.specs.Dropping.{AreOfOneLog, HasOnly, HasNoOld};
ghost use Rattle.segmented_log.specs.Causes.{IsFault, IsOfFiles, IsFailure};

use crate::dropping::{end_of_first, remove_segment};
use crate::error::LogError;
use crate::found_files::sync_found_files;
use crate::found_tail::{FoundTail, find_tail};
use crate::opening::open_all;
use crate::segment::{Segment, first_number};
use docstore::laws;
use std::alloc::Global;
use std::ops::Range;
use store_folder::ReadableFolder;

// Removes the first of these segments, each that can be removed, where the tail begins at this number or it is 0.
// Returns the number of the first record that is left.
fn remove_old<F: ReadableFolder>(
    alloc: Global,
    folder: &mut F,
    segments: &[Segment<F::File>],
    from: u64,
    tail_first: u64,
    number: u64,
) -> Result<u64, LogError>
    requires are { AreOfOneLog (map (λ s. part_of s.first s.reader) segments.now) }
    requires first { from ≡ first_in (map (λ s. part_of s.first s.reader) segments.now) from }
    requires begins { IsTrue F.honest → BeginsAt from (F.seen folder.old) }
    requires left { IsTrue F.honest → (c : List ℕ → _) → F.may_leave folder.old c
        → HasOnly (map (λ s. part_of s.first s.reader) segments.now) c × TailBeginsAt tail_first c }
    requires synced { IsTrue F.honest → IsSyncedButTail (F.seen folder.old) (F.may_leave folder.old) }
    ensures loses { IsTrue F.honest → OnOk result (LosesOld number (F.seen folder.old) (F.seen folder.new)) }
    ensures begins { IsTrue F.honest → IfOk result (λ last. BeginsAt last (F.seen folder.new)) }
    ensures stays { IsTrue F.honest → OnOk result (HasNoOld number (F.seen folder.new)) }
    ensures last { IsTrue F.honest → tail_first ≡ 0
        → OnOk result (HasSegments (F.seen folder.old) → HasSegments (F.seen folder.new)) }
    ensures synced { IsTrue F.honest → OnOk result (IsSyncedButTail (F.seen folder.new) (F.may_leave folder.new)) }
    ensures any_moment { IsTrue F.honest → LeavesOnly F.moment F.left_since folder.old folder.new
        (IsOldWithout number (F.may_leave folder.old)) }
    ensures failures { F.failures folder.old ≤ F.failures folder.new }
    ensures failed { IsErrAnd result IsFailure → HasRisen (F.failures folder.old) (F.failures folder.new) }
    ensures kind { IfErr result IsFault }
{
    laws::stores_are_apart();
    let mut first = from;
    let mut rest = segments;
    while let Some(next) = end_of_first(rest, first, tail_first, number) {
        remove_segment(alloc, folder, first)?;
        rest = &rest[1..];
        first = next;
    }
    Ok(first)
}

// The number of the tail's first record, or 0 where the tail is not whole, or not known to be on the disk.
fn known_first(tail: FoundTail, is_kept: bool) -> u64
    ensures known { 0 < result → IsTrue is_kept × IsTrue tail.is_whole × (result ≡ tail.first) }
    ensures none { tail.is_whole ≡ false → result ≡ 0 }
{
    if is_kept && tail.is_whole {
        tail.first
    } else {
        0
    }
}

// Removes old segments of a folder that has these names and this tail, as `drop_segments` does.
fn drop_found<F: ReadableFolder>(
    alloc: Global,
    folder: &mut F,
    names: &[String],
    tail: FoundTail,
    is_kept: bool,
    number: u64,
) -> Result<Range<u64>, LogError>
    requires names { IsTrue F.honest → AreNames (F.seen folder.old) (map string_bytes names.now) }
    requires synced { IsTrue F.honest → IsSyncedButTail (F.seen folder.old) (F.may_leave folder.old) }
    requires tail_first { IsTrue F.honest → (bytes : List ℕ) → F.seen folder.old tail_name ≡ Some bytes → IsTail bytes
        → tail.first ≡ first_of bytes }
    requires tail { IsTrue F.honest → IsTrue is_kept → IsTrue tail.is_whole → (bytes : List ℕ)
        × Keeps tail_name (Some bytes) (F.may_leave folder.old) × (first_of bytes ≡ tail.first) }
    ensures loses { IsTrue F.honest → OnOk result (LosesOld number (F.seen folder.old) (F.seen folder.new)) }
    ensures numbers { IsTrue F.honest → IfOk result (λ gone. BeginsAt gone.start (F.seen folder.old)
        × BeginsAt gone.end (F.seen folder.new)) }
    ensures stays { IsTrue F.honest → OnOk result (HasNoOld number (F.seen folder.new)) }
    ensures last { IsTrue F.honest → tail.is_whole ≡ false
        → OnOk result (HasSegments (F.seen folder.old) → HasSegments (F.seen folder.new)) }
    ensures synced { IsTrue F.honest → OnOk result (IsSyncedButTail (F.seen folder.new) (F.may_leave folder.new)) }
    ensures any_moment { IsTrue F.honest → LeavesOnly F.moment F.left_since folder.old folder.new
        (IsOldWithout number (F.may_leave folder.old)) }
    ensures no_log { IsTrue F.honest → IsErrOf result LogError.NoLog → IsNoLog (F.seen folder.old) }
    ensures refused { IsErrOf result LogError.NoLog → folder.new ≡ folder.old }
    ensures failures { F.failures folder.old ≤ F.failures folder.new }
    ensures failed { IsTrue F.honest → IsErrAnd result IsFailure
        → HasRisen (F.failures folder.old) (F.failures folder.new) ⊎ HasSegments (F.seen folder.old) }
    ensures kind { IfErr result IsOfFiles }
{
    laws::stores_are_apart();
    let segments = open_all(alloc, folder, names)?;
    let first = first_number(&segments, tail.first);
    let tail_first = known_first(tail, is_kept);
    let end = remove_old(alloc, folder, &segments, first, tail_first, number)?;
    Ok(first..end)
}

/// Removes the segments whose records all have smaller numbers than this one, the oldest first, of a log that is not
/// opened. Returns the numbers of the records that went. It needs no room on the device, as it writes nothing: what a
/// look sees of the segments is synced, and then each is gone from the disk before the next one is removed. The tail
/// stays as it is, and may be torn or damaged.
///
/// A segment stays if the next one or the tail repeats some of its records, as a crash may leave them until the next
/// seal. So does the last one where the tail is torn, damaged, missing or not known to be on the disk: once the log was
/// opened and its tail is whole, it can be removed.
///
/// Errors: `NoLog` where the segments are not those of one log, and then nothing is removed; `Memory` and `Failed`,
/// after which some of the first may be gone.
pub fn drop_segments<F: ReadableFolder>(
    alloc: Global,
    folder: &mut F,
    number: u64,
) -> Result<Range<u64>, LogError>
    // Of the folder's files just such segments are gone, and of the log some of its first records.
    ensures files { IsTrue F.honest → OnOk result (RemovesOnly number (F.seen folder.old) (F.seen folder.new)) }
    ensures log { IsTrue F.honest → OnOk result ((first : ℕ) (all : List Slot) → IsLog first all (F.seen folder.old)
        → DropsTo first all number (F.seen folder.new)) }
    ensures numbers { IsTrue F.honest → IfOk result (λ gone. BeginsAt gone.start (F.seen folder.old)
        × BeginsAt gone.end (F.seen folder.new)) }

    // What is left stays: no segment that another one follows could be removed, nor the last one before damage.
    ensures stays { IsTrue F.honest → OnOk result (HasNoOld number (F.seen folder.new)) }
    ensures last { IsTrue F.honest → OnOk result (HasDamagedTail (F.seen folder.old) → HasSegments (F.seen folder.old)
        → HasSegments (F.seen folder.new)) }

    // A crash at any moment leaves what it could leave before, maybe without some of these segments; after an Ok,
    // without those that are gone.
    ensures any_moment { IsTrue F.honest → LeavesOnly F.moment F.left_since folder.old folder.new
        (IsOldWithout number (F.may_leave folder.old)) }
    ensures after { IsTrue F.honest → (c : List ℕ → _) → F.may_leave folder.new c
        → IsOldWithout number (F.may_leave folder.old) c }
    ensures synced { IsTrue F.honest → OnOk result (IsSyncedButTail (F.seen folder.new) (F.may_leave folder.new)) }

    // A log is not refused, nor a folder where one can begin; where one is refused, nothing is removed.
    ensures no_log { IsTrue F.honest → IsErrOf result LogError.NoLog → IsNoLog (F.seen folder.old) }
    ensures refused { IsTrue F.honest → IsErrOf result LogError.NoLog
        → (n : List ℕ) → F.seen folder.new n ≡ F.seen folder.old n }
    ensures failures { F.failures folder.old ≤ F.failures folder.new }
    ensures failed { IsTrue F.honest → IsTrue F.is_readable → IsErrAnd result IsFailure
        → HasRisen (F.failures folder.old) (F.failures folder.new) ⊎ HasSegments (F.seen folder.old) }
    ensures kind { IfErr result IsOfFiles }
{
    let names = folder.names(alloc)?;
    let tail = find_tail(alloc, folder)?;
    let is_kept = sync_found_files(folder, &names, tail.is_whole)?;
    drop_found(alloc, folder, &names, tail, is_kept, number)
}

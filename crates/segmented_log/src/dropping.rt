//! Old segments that are removed.

ghost use Rattle.std.specs.Prelude.{◌≡◌, ◌⊎◌, ◌↔◌, false, ◌≤◌, ◌<◌, ◌^◌, ℕ, List, None, map, All, IsTrue};
ghost use Rattle.std.specs.Prelude.{IfOk, IfErr, IfSome, IfNone, OnOk, OnErr, IsErrOf};
ghost use Rattle.std.specs.Result.{IsErrAnd};
ghost use Rattle.store_base.specs.Counts.{HasRisen};
ghost use Rattle.store_folder.specs.Moments.{ComesFrom, LeavesOnly};
ghost use Rattle.store_folder.specs.Folder.{Elsewhere, EntriesStayElsewhere, FilesElsewhere, LosesFile, Keeps};
ghost use Rattle.segmented_log.specs.Names.{segment_name};
ghost use Rattle.segmented_log.specs.Parts.{part_of};
ghost use Rattle.segmented_log.specs.Dropping.{CanGo, IsRest, DropsTo, LosesSegment, RemovesOnly, IsDropped};
ghost use Rattle.segmented_log.specs.Causes.{IsFault, IsFailure};
ghost use Rattle.store_folder.specs.Calls.{doing_of, IsApart};
ghost use Rattle.segmented_log.specs.CallLists.{removing};

use crate::error::LogError;
use crate::log::SegmentedLog;
use crate::names::segment_file;
use crate::segment::{Segment, first_number};
use docstore::FileHandle;
use std::alloc::Global;
use store_folder::{Folder, FolderCall, ReadableFolder, carry_out};

/// Where the first of these segments ends, if it can be removed.
pub(crate) fn end_of_first<H: FileHandle>(
    segments: &[Segment<H>],
    first: u64,
    tail_first: u64,
    number: u64,
) -> Option<u64>
    ensures some { IfSome result (λ next. CanGo first number (map (λ s. part_of s.first s.reader) segments.now)
        tail_first next) }
    ensures none { IfNone result ((next : ℕ)
        → CanGo first number (map (λ s. part_of s.first s.reader) segments.now) tail_first next → ⊥) }
{
    let (segment, others) = segments.split_first()?;
    let next = first_number(others, tail_first);
    let count = u64::from(segment.reader.num_docs());
    if first < next && next <= number && next - first == count {
        Some(next)
    } else {
        None
    }
}

// The calls that remove the segment of this name.
fn remove_calls(name: &str) -> [FolderCall<'_>; 2]
    ensures calls { (first : ℕ) → name.now ≡ segment_name first → map doing_of result ≡ removing first }
    ensures apart { All (λ call. IsApart (doing_of call)) result }
{
    [FolderCall::Remove(name), FolderCall::Sync]
}

/// Removes the segment whose first record has this number, and syncs the folder.
pub(crate) fn remove_segment<F: Folder>(
    alloc: Global,
    folder: &mut F,
    first: u64,
) -> Result<(), LogError>
    ensures gone { IsTrue F.honest → OnOk result (Keeps (segment_name first) None (F.may_leave folder.new)) }
    ensures seen { IsTrue F.honest → OnOk result (F.seen folder.new (segment_name first) ≡ None) }
    ensures elsewhere { IsTrue F.honest → Elsewhere (segment_name first) (F.seen folder.old) (F.seen folder.new) }
    ensures files { IsTrue F.honest
        → FilesElsewhere (segment_name first) (F.may_hold folder.old) (F.may_hold folder.new) }
    ensures crash { IsTrue F.honest
        → ComesFrom (LosesFile (segment_name first)) (F.may_leave folder.old) (F.may_leave folder.new) }
    ensures kept { IsTrue F.honest → OnOk result ((n : List ℕ) → F.entry_kept folder.new n) }
    ensures trust { IsTrue F.honest
        → EntriesStayElsewhere (segment_name first) (F.trusted folder.old) (F.trusted folder.new) }

    // A crash at any moment leaves what was there, with the segment or without.
    ensures any_moment { IsTrue F.honest → LeavesOnly F.moment F.left_since folder.old folder.new
        (LosesSegment (F.may_leave folder.old) first) }
    ensures failures { F.failures folder.old ≤ F.failures folder.new }
    ensures failed { IsErrAnd result IsFailure → HasRisen (F.failures folder.old) (F.failures folder.new) }
    ensures kind { IfErr result IsFault }
{
    let name = segment_file(alloc, first)?;
    carry_out(folder, &remove_calls(name.as_str()))?;
    Ok(())
}

impl<F: ReadableFolder> SegmentedLog<F> {
    // Removes the first segment, if it can be removed. Returns whether it was.
    fn drop_first(&mut self, number: u64) -> Result<bool, LogError>
        requires works { self.old.is_broken ≡ false }
        ensures rest { IsTrue F.honest
            → IsRest self.old.first self.old.slots number self.new.first self.new.slots }
        ensures commit { self.new.commit ≡ self.old.commit }
        ensures tail { self.new.tail_bytes ≡ self.old.tail_bytes }
        ensures seal_size { self.new.seal_size ≡ self.old.seal_size }
        ensures pending { self.new.pending ≡ self.old.pending }
        ensures works { OnOk result (self.new.is_broken ≡ false) }
        ensures broken { OnErr result (IsTrue self.new.is_broken) }
        ensures any_moment { IsTrue F.honest → LeavesOnly F.moment F.left_since self.old.folder self.new.folder
            (DropsTo self.old.first self.old.slots number) }
        ensures files { IsTrue F.honest
            → OnOk result (RemovesOnly number (F.seen self.old.folder) (F.seen self.new.folder)) }
        ensures more { IfOk result (λ removed. IsTrue removed → self.old.first < self.new.first) }
        ensures fits { IfOk result (λ removed. IsTrue removed → self.new.first < 2 ^ 64) }
        ensures stays { IsTrue F.honest → IfOk result (λ removed. removed ≡ false
            → IsDropped self.new.first number (F.seen self.new.folder)) }
        ensures failures { F.failures self.old.folder ≤ F.failures self.new.folder }
        ensures failed { IsErrAnd result IsFailure
            → HasRisen (F.failures self.old.folder) (F.failures self.new.folder) }
        ensures kind { IfErr result IsFault }
    {
        let Some(next) = end_of_first(&self.segments, self.first, self.tail_first, number) else {
            return Ok(false);
        };
        // A call that fails leaves the log so.
        self.is_broken = true;
        remove_segment(self.alloc, &mut self.folder, self.first)?;
        drop(self.segments.remove(0));
        self.first = next;
        self.is_broken = false;
        Ok(true)
    }

    /// Removes the segments whose records all have smaller numbers than this one, the oldest first. Each is gone from
    /// the disk before the next one is removed. Numbers stay. No record of the tail is removed; nor is a segment some
    /// of whose records the next segment or the tail repeats, as a crash may leave them until the next seal.
    ///
    /// Errors: `Broken`; `Memory` and `Failed`, after which the log is broken.
    pub fn drop_before(&mut self, number: u64) -> Result<(), LogError>
        ensures rest { IsTrue F.honest
            → IsRest self.old.first self.old.slots number self.new.first self.new.slots }
        ensures commit { self.new.commit ≡ self.old.commit }
        ensures tail { self.new.tail_bytes ≡ self.old.tail_bytes }
        ensures seal_size { self.new.seal_size ≡ self.old.seal_size }
        ensures pending { self.new.pending ≡ self.old.pending }
        ensures works { OnOk result (self.new.is_broken ≡ false) }

        // Of the folder's files just those segments are gone, and the first that is left stays.
        ensures files { IsTrue F.honest
            → OnOk result (RemovesOnly number (F.seen self.old.folder) (F.seen self.new.folder)) }
        ensures stays { IsTrue F.honest → OnOk result (IsDropped self.new.first number (F.seen self.new.folder)) }

        // A crash at any moment leaves the log without some of the first of these segments.
        ensures any_moment { IsTrue F.honest → self.old.is_broken ≡ false
            → LeavesOnly F.moment F.left_since self.old.folder self.new.folder
            (DropsTo self.old.first self.old.slots number) }
        ensures broken { IsErrOf result LogError.Broken ↔ IsTrue self.old.is_broken }
        ensures err { OnErr result (IsTrue self.new.is_broken) }
        ensures same { IsTrue self.old.is_broken → self.new ≡ self.old }
        ensures failures { F.failures self.old.folder ≤ F.failures self.new.folder }
        ensures failed { IsErrAnd result IsFailure
            → HasRisen (F.failures self.old.folder) (F.failures self.new.folder) }
        ensures kind { IfErr result (λ e. (e ≡ LogError.Broken) ⊎ IsFault e) }
    {
        if self.is_broken() {
            return Err(LogError::Broken);
        }
        while self.drop_first(number)? {}
        Ok(())
    }
}

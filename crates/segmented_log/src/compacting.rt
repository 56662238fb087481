//! Neighbouring segments that become one.

ghost use Rattle.std.specs.Prelude.{◌≡◌, ◌≢◌, ◌⊎◌, ◌↔◌, false, ◌≤◌, ◌<◌, ◌+◌, ◌*◌, ◌^◌, min, ℕ};
ghost use Rattle.std.specs.Prelude.{List, [], ◌∷◌, length, map, take, drop};
ghost use Rattle.std.specs.Prelude.{IsTrue, IfOk, IfErr, IfSome, IfNone, OnSome, OnOk, OnErr, IsErrOf};
ghost use Rattle.std.specs.List.{Contains, remove};
ghost use Rattle.std.specs.Result.{IsErrAnd};
ghost use Rattle.store_base.specs.Counts.{HasRisen};
ghost use Rattle.store_folder.specs.Moments.{LeavesOnly};
ghost use Rattle.store_format.specs.Block.{damaged};
ghost use Rattle.segmented_log.specs.Parts.{part_of, sealed_of, parts_of, end_of};
ghost use Rattle.segmented_log.specs.Log.{IsLog};
ghost use Rattle.segmented_log.specs.Compacting.{slots_in, bytes_in, AreNext, IsRun, BecomesOne, IsCovered};
ghost use Rattle.segmented_log.specs.Compacting.{CanFollow, CoversFirst, IsPassedByFirst, CanJoinFirst, AreApart};
ghost use Rattle.segmented_log.specs.Compacting.{IsStep, Compacts, IsCompacted, ChangesSegments};
ghost use Rattle.segmented_log.specs.Joining.{JoinsSome, AreJoinedFrom};
ghost use Rattle.segmented_log.specs.Opening.{HasSegments};
ghost use Rattle.segmented_log.specs.Causes.{IsOfJoins, HasTooLong, IsFault, IsFailure};

use crate::dropping::remove_segment;
use crate::error::LogError;
use crate::joining::join_segments;
use crate::log::SegmentedLog;
use crate::reading::may_overlap;
use crate::segment::{Segment, end_of_segment};
use docstore::{DocStoreVersion, FileHandle};
use std::mem;
use store_folder::ReadableFolder;

/// How many segments `compact` joins at once, at most. Each of them is opened once more for that.
pub const MAX_JOINED: usize = 100;

// Neighbours that can be joined: the number where they end, the bytes of their data, and how many records they have.
#[derive(Clone, Copy)]
struct Run {
    end: u64,
    bytes: u64,
    records: u32,
}

// Neighbours that become one: the first of them, and how many follow it. Where none does, it covers the next one.
#[derive(Clone, Copy)]
struct Step {
    first: usize,
    count: usize,
}

// One segment as a run. None where it can't be joined with others.
fn run_of<H: FileHandle>(segment: &Segment<H>) -> Option<Run>
    ensures end { IfSome result (λ run. run.end ≡ end_of (part_of segment.now.first segment.now.reader)) }
    ensures bytes { IfSome result (λ run. run.bytes ≡ length segment.now.reader.file.content) }
    ensures records { IfSome result
        (λ run. run.records ≡ length (part_of segment.now.first segment.now.reader).slots) }
    ensures newer { IfSome result (λ run. segment.now.reader.version ≢ DocStoreVersion.V1) }
    ensures none { IfNone result ((segment.now.reader.version ≡ DocStoreVersion.V1)
        ⊎ (2 ^ 64 ≤ end_of (part_of segment.now.first segment.now.reader))) }
{
    if segment.reader.version() == DocStoreVersion::V1 {
        return None;
    }
    let records = segment.reader.num_docs();
    Some(Run {
        end: segment.first.checked_add(u64::from(records))?,
        bytes: segment.reader.space_usage().data_usage(),
        records,
    })
}

// The run with this segment after it, if they can be joined.
fn with_next<H: FileHandle>(run: Run, segment: &Segment<H>, size: u64) -> Option<Run>
    ensures some { OnSome result (CanFollow size run.end run.bytes run.records
        (sealed_of segment.now.first segment.now.reader)) }
    ensures end { IfSome result (λ more. more.end ≡ end_of (part_of segment.now.first segment.now.reader)) }
    ensures bytes { IfSome result (λ more. more.bytes ≡ run.bytes + length segment.now.reader.file.content) }
    ensures records { IfSome result (λ more. more.records
        ≡ run.records + length (part_of segment.now.first segment.now.reader).slots) }
    ensures none { IfNone result (CanFollow size run.end run.bytes run.records
        (sealed_of segment.now.first segment.now.reader) → ⊥) }
{
    let next = run_of(segment)?;
    let bytes = run.bytes.checked_add(next.bytes)?;
    let records = run.records.checked_add(next.records)?;
    if segment.first != run.end || bytes > size {
        return None;
    }
    Some(Run {
        end: next.end,
        bytes,
        records,
    })
}

// How many of these segments can be joined with the one before them at once.
fn count_next<H: FileHandle>(segment: &Segment<H>, others: &[Segment<H>], size: u64) -> usize
    ensures within { result ≤ length others.now }
    ensures many { result < 100 }
    ensures next { AreNext (end_of (part_of segment.now.first segment.now.reader))
        (map (λ s. part_of s.first s.reader) (take result others.now)) }
    ensures few { 0 < result → length (part_of segment.now.first segment.now.reader).slots
        + length (slots_in (map (λ s. part_of s.first s.reader) (take result others.now))) < 2 ^ 32 }
    ensures small { 0 < result → length segment.now.reader.file.content
        + bytes_in (map (λ s. sealed_of s.first s.reader) (take result others.now)) ≤ size }
    ensures none { result ≡ 0 → CanJoinFirst size (sealed_of segment.now.first segment.now.reader)
        (map (λ s. sealed_of s.first s.reader) others.now) → ⊥ }
{
    let Some(mut run) = run_of(segment) else {
        return 0;
    };
    let most = others.len().min(MAX_JOINED - 1);
    for i in 0..most {
        match with_next(run, &others[i], size) {
            Some(more) => run = more,
            None => return i,
        }
    }
    most
}

// Whether a segment has all records of the first of those after it.
fn covers_next<H: FileHandle>(segment: &Segment<H>, others: &[Segment<H>]) -> bool
    ensures yes { IsTrue result → CoversFirst (part_of segment.now.first segment.now.reader)
        (map (λ s. part_of s.first s.reader) others.now) }
    ensures no { result ≡ false → IsPassedByFirst (part_of segment.now.first segment.now.reader)
        (map (λ s. part_of s.first s.reader) others.now) }
{
    match others.first() {
        Some(next) => end_of_segment(next) <= end_of_segment(segment),
        None => false,
    }
}

// The first neighbours that can become one, from this place on. The segment before it may cover the one there.
fn find_step<H: FileHandle>(segments: &[Segment<H>], size: u64, from: usize) -> Option<Step>
    ensures some { IfSome result (λ step. IsStep size (map (λ s. sealed_of s.first s.reader) segments.now)
        step.first step.count) }
    ensures none { from ≡ 0 → IfNone result (AreApart size (map (λ s. sealed_of s.first s.reader) segments.now)) }
{
    for first in from.saturating_sub(1)..segments.len() {
        let segment = &segments[first];
        let others = &segments[first + 1..];
        if covers_next(segment, others) {
            return Some(Step { first, count: 0 });
        }
        if first < from {
            continue;
        }
        let count = count_next(segment, others, size);
        if count > 0 {
            return Some(Step { first, count });
        }
    }
    None
}

impl<F: ReadableFolder> SegmentedLog<F> {
    // Publishes the segment at this place and those that follow it as one, under the name of the first. The others, all
    // of whose records it has, stay.
    fn join(&mut self, place: usize, count: usize) -> Result<(), LogError>
        requires works { self.old.is_broken ≡ false }
        requires run { IsRun (parts_of self.old.segments) place count }
        requires few { length (slots_in (take (count + 1) (drop place (parts_of self.old.segments)))) < 2 ^ 32 }
        ensures first { self.new.first ≡ self.old.first }
        ensures commit { self.new.commit ≡ self.old.commit }
        ensures tail { self.new.tail_bytes ≡ self.old.tail_bytes }
        ensures seal_size { self.new.seal_size ≡ self.old.seal_size }
        ensures slots { IsTrue F.honest → self.new.slots ≡ self.old.slots }
        ensures pending { self.new.pending ≡ self.old.pending }
        ensures joined { IsTrue F.honest → OnOk result ((r : IsRun (parts_of self.old.segments) place count)
            → BecomesOne self.old.segments r self.new.segments) }
        ensures packed { IsTrue F.honest
            → OnOk result (JoinsSome (F.seen self.old.folder) (F.seen self.new.folder)) }
        ensures same { OnErr result (self.new.segments ≡ self.old.segments) }
        ensures many { length self.new.segments ≡ length self.old.segments }
        ensures works { OnOk result (self.new.is_broken ≡ false) }
        ensures broken { OnErr result (IsTrue self.new.is_broken) }
        ensures any_moment { IsTrue F.honest → LeavesOnly F.moment F.left_since self.old.folder self.new.folder
            (IsLog self.old.first self.old.slots) }
        ensures files { IsTrue F.honest → ChangesSegments (F.seen self.old.folder) (F.seen self.new.folder) }
        ensures failures { F.failures self.old.folder ≤ F.failures self.new.folder }
        ensures there { IsTrue F.honest → HasSegments (F.seen self.old.folder) }
        ensures damaged { IsTrue F.honest → IsErrOf result LogError.Damaged
            → Contains (slots_in (parts_of self.old.segments)) damaged }
        ensures full { IsTrue F.honest → IsErrOf result LogError.Full
            → HasTooLong (slots_in (parts_of self.old.segments)) }
        ensures kind { IfErr result IsOfJoins }
    {
        // A call that fails leaves the log so.
        self.is_broken = true;
        self.may_overlap = true;
        let end = place + count + 1;
        let first = self.segments[place].first;
        let joined = join_segments(
            self.alloc,
            &mut self.folder,
            first,
            &self.segments[place..end],
        )?;
        drop(mem::replace(&mut self.segments[place], joined));
        self.is_broken = false;
        Ok(())
    }

    // Removes the segment at this place, all of whose records those before it have.
    fn remove_covered(&mut self, place: usize) -> Result<(), LogError>
        requires works { self.old.is_broken ≡ false }
        requires within { place < length self.old.segments }
        requires covered { IsTrue F.honest → IsCovered self.old.first (parts_of self.old.segments) place }
        ensures first { self.new.first ≡ self.old.first }
        ensures commit { self.new.commit ≡ self.old.commit }
        ensures tail { self.new.tail_bytes ≡ self.old.tail_bytes }
        ensures seal_size { self.new.seal_size ≡ self.old.seal_size }
        ensures slots { IsTrue F.honest → self.new.slots ≡ self.old.slots }
        ensures pending { self.new.pending ≡ self.old.pending }
        ensures left { OnOk result (self.new.segments ≡ remove self.old.segments place) }
        ensures packed { IsTrue F.honest
            → OnOk result (JoinsSome (F.seen self.old.folder) (F.seen self.new.folder)) }
        ensures same { OnErr result (self.new.segments ≡ self.old.segments) }
        ensures works { OnOk result (self.new.is_broken ≡ false) }
        ensures broken { OnErr result (IsTrue self.new.is_broken) }
        ensures any_moment { IsTrue F.honest → LeavesOnly F.moment F.left_since self.old.folder self.new.folder
            (IsLog self.old.first self.old.slots) }
        ensures files { IsTrue F.honest → ChangesSegments (F.seen self.old.folder) (F.seen self.new.folder) }
        ensures failures { F.failures self.old.folder ≤ F.failures self.new.folder }
        ensures failed { IsErrAnd result IsFailure
            → HasRisen (F.failures self.old.folder) (F.failures self.new.folder) }
        ensures kind { IfErr result IsFault }
    {
        self.is_broken = true;
        let first = self.segments[place].first;
        remove_segment(self.alloc, &mut self.folder, first)?;
        drop(self.segments.remove(place));
        self.may_overlap = may_overlap(&self.segments, self.first);
        self.is_broken = false;
        Ok(())
    }

    // Makes one of the first neighbours from this place on that can be joined, and removes the next one, which the
    // first then covers. Returns from which place to go on: after what was joined, or at the first segment once there
    // were no more; None if there were none at all. So no record is copied again before all others were.
    fn compact_next(&mut self, size: u64, from: usize) -> Result<Option<usize>, LogError>
        requires works { self.old.is_broken ≡ false }
        ensures first { self.new.first ≡ self.old.first }
        ensures commit { self.new.commit ≡ self.old.commit }
        ensures tail { self.new.tail_bytes ≡ self.old.tail_bytes }
        ensures seal_size { self.new.seal_size ≡ self.old.seal_size }
        ensures slots { IsTrue F.honest → self.new.slots ≡ self.old.slots }
        ensures pending { self.new.pending ≡ self.old.pending }
        ensures fewer { IfOk result (λ more. IfSome more (λ next.
            2 * length self.new.segments + min next 1 < 2 * length self.old.segments + min from 1)) }
        ensures joins { IsTrue F.honest → Compacts size self.old.segments self.new.segments }
        ensures packed { IsTrue F.honest
            → OnOk result (AreJoinedFrom (F.seen self.old.folder) (F.seen self.new.folder)) }
        ensures compacted { IsTrue F.honest → IfOk result (λ more. IfNone more
            (IsCompacted self.new.first size self.new.segments (F.seen self.new.folder))) }
        ensures works { OnOk result (self.new.is_broken ≡ false) }
        ensures broken { OnErr result (IsTrue self.new.is_broken) }
        ensures any_moment { IsTrue F.honest → LeavesOnly F.moment F.left_since self.old.folder self.new.folder
            (IsLog self.old.first self.old.slots) }
        ensures files { IsTrue F.honest → ChangesSegments (F.seen self.old.folder) (F.seen self.new.folder) }
        ensures failures { F.failures self.old.folder ≤ F.failures self.new.folder }
        ensures failed { IsTrue F.honest → IsErrAnd result IsFailure
            → HasRisen (F.failures self.old.folder) (F.failures self.new.folder)
            ⊎ HasSegments (F.seen self.old.folder) }
        ensures damaged { IsTrue F.honest → IsErrOf result LogError.Damaged
            → Contains (slots_in (parts_of self.old.segments)) damaged }
        ensures full { IsTrue F.honest → IsErrOf result LogError.Full
            → HasTooLong (slots_in (parts_of self.old.segments)) }
        ensures kind { IfErr result IsOfJoins }
    {
        let Some(step) = find_step(&self.segments, size, from) else {
            if from == 0 {
                return Ok(None);
            }
            return Ok(Some(0));
        };
        if step.count == 0 {
            self.remove_covered(step.first + 1)?;
            return Ok(Some(from));
        }
        self.join(step.first, step.count)?;
        self.remove_covered(step.first + 1)?;
        Ok(Some(step.first + 1))
    }

    /// Joins neighbouring segments whose data together has at most this many bytes, at most `MAX_JOINED` at once; what
    /// was joined is joined with the next ones, too. Numbers and records stay. A segment is joined with the next one
    /// only if that one begins at the number where it ends, and a store has numbers for the records of both. A segment
    /// all of whose records the one before it has is removed.
    ///
    /// The joined segment takes the name of its first one, and then the others are removed. So at any moment the log is
    /// the same. What waits for a sync goes on waiting. The joined segment is written as it is made: memory has one of
    /// its blocks, a part of the segment that is read, and the index.
    ///
    /// Errors: `Broken`; `Memory`; `Failed` where a call of the folder or a read of a segment failed; `Damaged` where a
    /// segment of fewer than six blocks has a damaged record; and `Full` where a record of a segment is too long for a
    /// block of the joined one. After these the log is broken.
    pub fn compact(&mut self, size: u64) -> Result<(), LogError>
        ensures first { self.new.first ≡ self.old.first }
        ensures commit { self.new.commit ≡ self.old.commit }
        ensures tail { self.new.tail_bytes ≡ self.old.tail_bytes }
        ensures seal_size { self.new.seal_size ≡ self.old.seal_size }
        ensures slots { IsTrue F.honest → self.new.slots ≡ self.old.slots }
        ensures pending { self.new.pending ≡ self.old.pending }
        ensures works { OnOk result (self.new.is_broken ≡ false) }

        // It goes by steps. What a step joins has at most this many bytes of data together. So it is after an error.
        ensures joins { IsTrue F.honest → Compacts size self.old.segments self.new.segments }

        // The file of each joined segment is exact: its period is 8, and its blocks are those of the segments that
        // have at least six, and of the other ones' documents, cut at 16384 bytes.
        ensures packed { IsTrue F.honest
            → OnOk result (AreJoinedFrom (F.seen self.old.folder) (F.seen self.new.folder)) }

        // No neighbours are left that can be joined.
        ensures compacted { IsTrue F.honest → OnOk result
            (IsCompacted self.new.first size self.new.segments (F.seen self.new.folder)) }

        // A crash at any moment leaves the same log.
        ensures any_moment { IsTrue F.honest → self.old.is_broken ≡ false
            → LeavesOnly F.moment F.left_since self.old.folder self.new.folder (IsLog self.old.first self.old.slots) }

        // Of the folder's files only segments change, and files beside them.
        ensures files { IsTrue F.honest → ChangesSegments (F.seen self.old.folder) (F.seen self.new.folder) }
        ensures broken { IsErrOf result LogError.Broken ↔ IsTrue self.old.is_broken }
        ensures err { OnErr result (IsTrue self.new.is_broken) }
        ensures same { IsTrue self.old.is_broken → self.new ≡ self.old }
        ensures failures { F.failures self.old.folder ≤ F.failures self.new.folder }

        // Where no call of the folder failed, there is a segment, whose file was not opened or read.
        ensures failed { IsTrue F.honest → IsErrAnd result IsFailure
            → HasRisen (F.failures self.old.folder) (F.failures self.new.folder)
            ⊎ HasSegments (F.seen self.old.folder) }
        ensures damaged { IsTrue F.honest → IsErrOf result LogError.Damaged
            → Contains (slots_in (parts_of self.old.segments)) damaged }
        ensures full { IsTrue F.honest → IsErrOf result LogError.Full
            → HasTooLong (slots_in (parts_of self.old.segments)) }
        ensures kind { IfErr result (λ e. (e ≡ LogError.Broken) ⊎ IsOfJoins e) }
    {
        if self.is_broken() {
            return Err(LogError::Broken);
        }
        let mut from = 0;
        while let Some(next) = self.compact_next(size, from)? {
            from = next;
        }
        Ok(())
    }
}

//! A log of records in a folder.

ghost use Rattle.std.specs.Prelude.{◌≡◌, ◌⊎◌, ◌↔◌, false, ◌≤◌, ◌<◌, ◌+◌, ◌^◌, ◌++◌, ◌∷◌, [], ℕ, List, length, map};
ghost use Rattle.std.specs.Prelude.{IfOk, IfErr, OnOk, OnErr, IsErrOf, IsTrue};
ghost use Rattle.std.specs.Result.{IsErrAnd};
ghost use Rattle.store_base.specs.Counts.{HasRisen};
ghost use Rattle.store_folder.specs.Folder.{Look};
ghost use Rattle.segmented_log.specs.Parts.{end_from, parts_of};
ghost use Rattle.segmented_log.specs.Log.{IsLog, slot_at, Gives, IsOnlyRead};
ghost use Rattle.segmented_log.specs.Causes.{IsOfReads, IsOfAppends, IsFailure};

use crate::commit::Commit;
use crate::error::LogError;
use crate::reading::{Bounds, get_record};
use crate::sealing::BLOCK_SIZE;
use crate::segment::Segment;
use crate::tail_buffer::TailBuffer;
use log_tail::batches::{MAX_BODY, Place};
use std::alloc::Global;
use std::marker::Model;
use store_folder::ReadableFolder;

/// How long a record can be, so that a segment's block takes it.
pub const MAX_RECORD: usize = MAX_BODY - BLOCK_SIZE - 16;

/// A log of records in a folder. A record can be read once it is synced.
///
/// After a call that the folder failed, every call reports `Broken`, and the log must be opened again.
#[derive(Drop)]
pub struct SegmentedLog<F: ReadableFolder> {
    pub(crate) alloc: Global,
    pub(crate) folder: F,
    // How a sync puts a batch on the disk, and the length in bytes past which a tail is sealed.
    pub(crate) commit: Commit,
    pub(crate) seal_size: usize,
    // The numbers of the log's first record, of the first that no segment has, and of the tail's first.
    pub(crate) first: u64,
    pub(crate) sealed: u64,
    pub(crate) tail_first: u64,
    // The segments, and whether some may not begin just where the one before it ends.
    pub(crate) segments: Vec<Segment<F::File>>,
    pub(crate) may_overlap: bool,
    // The tail, with the batch that the next sync writes, and where its records lie.
    pub(crate) tail: TailBuffer,
    pub(crate) places: Vec<Place>,
    // The number of the next record that is appended.
    pub(crate) next: u64,
    pub(crate) is_broken: bool,
}

/// Clauses see the folder, the records, the segments, how it commits, how long its tail is and may be, what waits for a
/// sync, and whether a call on the folder failed.
impl<F: ReadableFolder> Model for SegmentedLog<F> {
    ghost use Rattle.std.specs.Prelude.{◌+◌, ◌-◌, length, map, All, IsTrue};
    ghost use Rattle.std.specs.Bool.{OnFalse};
    ghost use Rattle.std.specs.List.{sum_by};
    ghost use Rattle.log_tail.specs.Tail.{records_in};
    ghost use Rattle.segmented_log.specs.Parts.{part_of, sealed_of, log_slots};
    ghost use Rattle.segmented_log.specs.Log.{LogView};
    ghost use Rattle.segmented_log.specs.Settled.{IsSettledTail, IsSettledFolder};
    ghost use Rattle.segmented_log.specs.Compacting.{AreNext};

    ghost Value = { LogView F };

    ghost view = { λ l. record {
      folder = l.folder;
      first = l.first;
      slots = log_slots l.first (map (λ s. part_of s.first s.reader) l.segments.items) l.tail.bytes;
      segments = map (λ s. sealed_of s.first s.reader) l.segments.items;
      read_failures = sum_by (λ s. s.reader.file.failures) l.segments.items;
      commit = l.commit;
      seal_size = l.seal_size;
      tail_bytes = length l.tail.bytes;
      unsealed = l.tail_first + length l.places.items - l.sealed;
      pending = records_in l.tail.pending;
      batch_bytes = length l.tail.pending;
      is_broken = l.is_broken;
    } };

    ghost invariant = { λ l. OnFalse l.is_broken (IsSettledTail l.sealed l.tail_first l.next l.tail.bytes l.places.items
        l.tail.pending × (IsTrue F.honest → IsSettledFolder (F.may_hold l.folder) (F.may_leave l.folder)
        (F.entry_kept l.folder)
        (F.trusted l.folder) l.first l.sealed (map (λ s. part_of s.first s.reader) l.segments.items) l.tail.bytes
        × All (λ s. IsTrue s.reader.file.honest) l.segments.items
        × OnFalse l.may_overlap (AreNext l.first (map (λ s. part_of s.first s.reader) l.segments.items)))) };
}

impl<F: ReadableFolder> SegmentedLog<F> {
    /// Puts a record after the others, and returns its number. It is on the disk once `sync` returns Ok.
    ///
    /// Errors: `Broken`; `Full` where no number is left; `TooLong`; `BatchFull` where the records that wait leave no
    /// room for it; `Memory`. The log is then as it was.
    pub fn append(&mut self, bytes: &[u8]) -> Result<u64, LogError>
        ensures folder { self.new.folder ≡ self.old.folder }
        ensures first { self.new.first ≡ self.old.first }
        ensures slots { self.new.slots ≡ self.old.slots }
        ensures pending { OnOk result (self.new.pending ≡ self.old.pending ++ bytes.now ∷ []) }
        ensures number { IsTrue F.honest → IfOk result (λ n. n ≡ self.old.first + length self.old.slots
            + length self.old.pending) }
        ensures commit { self.new.commit ≡ self.old.commit }
        ensures tail { self.new.tail_bytes ≡ self.old.tail_bytes }
        ensures seal_size { self.new.seal_size ≡ self.old.seal_size }
        ensures works { self.new.is_broken ≡ self.old.is_broken }

        ensures broken { IsErrOf result LogError.Broken ↔ IsTrue self.old.is_broken }
        ensures full { IsTrue F.honest → IsErrOf result LogError.Full
            → self.old.first + length self.old.slots + length self.old.pending + 1 ≡ 2 ^ 64 }
        ensures too_long { IsErrOf result LogError.TooLong → 2 ^ 32 ≤ 16409 + length bytes.now }
        ensures taken { OnOk result (16409 + length bytes.now ≤ 2 ^ 32) }
        ensures batch_full { IsErrOf result LogError.BatchFull
            → 2 ^ 32 ≤ self.old.batch_bytes + 12 + length bytes.now }
        ensures kind { IfErr result IsOfAppends }
        ensures err { OnErr result (self.new ≡ self.old) }
    {
        if self.is_broken {
            return Err(LogError::Broken);
        }
        let number = self.next;
        if number == u64::MAX {
            return Err(LogError::Full);
        }
        if bytes.len() > MAX_RECORD {
            return Err(LogError::TooLong);
        }
        if bytes.len() + 4 > MAX_BODY - self.tail.pending().len() {
            return Err(LogError::BatchFull);
        }
        self.tail.add_record(bytes)?;
        self.next = number + 1;
        Ok(number)
    }

    /// Whether a call on the folder failed: then the log must be opened again.
    pub fn is_broken(&self) -> bool
        ensures value { result ≡ self.now.is_broken }

        // Else each crash leaves all that the log has acknowledged.
        ensures durable { IsTrue F.honest → result ≡ false → (c : List ℕ → _) → F.may_leave self.now.folder c
            → IsLog self.now.first self.now.slots c }
    {
        self.is_broken
    }

    /// The number of the first record.
    pub fn first(&self) -> u64
        ensures { result ≡ self.now.first }
    {
        self.first
    }

    /// The number after the last record that is on the disk.
    pub fn end(&self) -> u64
        ensures { IsTrue F.honest → self.now.is_broken ≡ false → result ≡ self.now.first + length self.now.slots }
    {
        self.tail_first.wrapping_add(self.places.len() as u64)
    }

    /// How many records are on the disk.
    pub fn len(&self) -> u64
        ensures { IsTrue F.honest → self.now.is_broken ≡ false → result ≡ length self.now.slots }
    {
        self.end().wrapping_sub(self.first)
    }

    /// How many records wait for a sync.
    pub fn pending(&self) -> u64
        ensures { self.now.is_broken ≡ false → result ≡ length self.now.pending }
    {
        self.next
            .wrapping_sub(self.tail_first)
            .wrapping_sub(self.places.len() as u64)
    }

    /// The record of this number, if it was synced.
    ///
    /// Errors: `Broken`; `Memory`; `Failed` where a read of a segment failed; `Damaged` where the segment's block does
    /// not say where the record lies. The log is as it was, but for the count of failed reads.
    pub fn get(&mut self, number: u64) -> Result<Option<Vec<u8>>, LogError>
        ensures found { IsTrue F.honest → Gives (slot_at self.old.first self.old.slots number) result }
        ensures same { IsOnlyRead self.old self.new }
        ensures broken { IsErrOf result LogError.Broken ↔ IsTrue self.old.is_broken }

        // A read of a segment failed, and the segments have the number.
        ensures failed { IsTrue F.honest → IsErrAnd result IsFailure
            → HasRisen self.old.read_failures self.new.read_failures }
        ensures sealed { IsTrue F.honest → IsErrAnd result IsFailure
            → number < end_from self.old.first (parts_of self.old.segments) }
        ensures steady { IsErrAnd result IsFailure ⊎ (self.new.read_failures ≡ self.old.read_failures) }
        ensures kind { IfErr result (λ e. (e ≡ LogError.Broken) ⊎ IsOfReads e) }
    {
        if self.is_broken {
            return Err(LogError::Broken);
        }
        let bounds = Bounds {
            first: self.first,
            sealed: self.sealed,
            tail_first: self.tail_first,
            may_overlap: self.may_overlap,
        };
        get_record::<F>(
            self.alloc,
            &mut self.segments,
            self.tail.bytes(),
            &self.places,
            bounds,
            number,
        )
    }

    /// Hands the folder back. What waits for a sync is lost.
    pub fn into_folder(self) -> F
        ensures { result ≡ self.folder }
    {
        let SegmentedLog { folder, .. } = self;
        folder
    }
}

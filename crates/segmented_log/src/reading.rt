//! Records that are read from segments.

ghost use Rattle.std.specs.Prelude.{◌≡◌, ◌≢◌, ◌⊎◌, ◌≤◌, ◌<◌, ◌-◌, ◌↔◌, ℕ, List, length, map, take, All, IsTrue, IfErr};
ghost use Rattle.std.specs.Prelude.{IfOk, HoldsAt, IsErrOf, slice_get};
ghost use Rattle.std.specs.Bool.{OnFalse};
ghost use Rattle.std.specs.List.{sum_by};
ghost use Rattle.std.specs.Result.{IsErrAnd};
ghost use Rattle.store_base.specs.Counts.{HasRisen};
ghost use Rattle.store_format.specs.Slots.{slots};
ghost use Rattle.store_reader.specs.GetAnswer.{AnswersTruly};
ghost use Rattle.store_reader.specs.Reading.{IsSameStore, num_docs, store_of};
ghost use Rattle.segmented_log.specs.Parts.{part_of, sealed_of, end_of, end_from, joined, log_slots, AreInLine};
ghost use Rattle.segmented_log.specs.Log.{slot_at, Gives};
ghost use Rattle.segmented_log.specs.Settled.{IsSettledTail};
ghost use Rattle.segmented_log.specs.Bounds.{AreBounds};
ghost use Rattle.segmented_log.specs.Compacting.{AreNext};
ghost use Rattle.segmented_log.specs.Causes.{IsOfReads, IsDamaged, IsFailure};
ghost use Rattle.log_tail.specs.Place.{content};

use crate::error::LogError;
use crate::segment::{Segment, end_of_segment};
use docstore::{DocId, FileHandle, OwnedBytes, StoreError, StoreReader};
use log_tail::Place;
use std::alloc::{AllocError, Global};
use std::io;
use std::io::ErrorKind;
use store_folder::ReadableFolder;

// Whether a segment ends after this number.
fn ends_after<H: FileHandle>(segment: &Segment<H>, number: u64) -> bool
    ensures { IsTrue result ↔ (number < end_of (part_of segment.now.first segment.now.reader)) }
{
    number < segment.first || number - segment.first < u64::from(segment.reader.num_docs())
}

/// Whether the first of these segments may not begin at this number, or another one where the one before it ends.
pub(crate) fn may_overlap<H: FileHandle>(segments: &[Segment<H>], first: u64) -> bool
    ensures { OnFalse result (AreNext first (map (λ s. part_of s.first s.reader) segments.now)) }
{
    let mut end = u128::from(first);
    for segment in segments {
        if u128::from(segment.first) != end {
            return true;
        }
        end = end_of_segment(segment);
    }
    false
}

// The place of the first segment that ends after this number, or how many there are, where none overlap.
fn find_by_halves<H: FileHandle>(segments: &[Segment<H>], number: u64) -> usize
    ensures within { result ≤ length segments.now }
    ensures before { (n : ℕ) → AreNext n (map (λ s. part_of s.first s.reader) segments.now)
        → All (λ s. end_of (part_of s.first s.reader) ≤ number) (take result segments.now) }
    ensures found { result < length segments.now
        → HoldsAt (λ s. number < end_of (part_of s.first s.reader)) segments.now result }
{
    let mut low = 0;
    let mut high = segments.len();
    while low < high {
        let middle = low + (high - low) / 2;
        if ends_after(&segments[middle], number) {
            high = middle;
        } else {
            low = middle + 1;
        }
    }
    low
}

// The place of the first segment that ends after this number, or how many there are. Where segments overlap, as a crash
// of `compact` leaves them, one may end before the one before it ends, so halves could pass over the first.
fn find_segment<H: FileHandle>(segments: &[Segment<H>], number: u64) -> usize
    ensures within { result ≤ length segments.now }
    ensures before { All (λ s. end_of (part_of s.first s.reader) ≤ number) (take result segments.now) }
    ensures found { result < length segments.now
        → HoldsAt (λ s. number < end_of (part_of s.first s.reader)) segments.now result }
{
    for i in 0..segments.len() {
        if ends_after(&segments[i], number) {
            return i;
        }
    }
    segments.len()
}

// The same, by halves where no segments overlap.
fn place_of<H: FileHandle>(segments: &[Segment<H>], may_overlap: bool, number: u64) -> usize
    ensures within { result ≤ length segments.now }
    ensures before { (n : ℕ) → OnFalse may_overlap (AreNext n (map (λ s. part_of s.first s.reader) segments.now))
        → All (λ s. end_of (part_of s.first s.reader) ≤ number) (take result segments.now) }
    ensures found { result < length segments.now
        → HoldsAt (λ s. number < end_of (part_of s.first s.reader)) segments.now result }
{
    if may_overlap {
        find_segment(segments, number)
    } else {
        find_by_halves(segments, number)
    }
}

// Why a record of a segment could not be read, of whose file the system said this.
fn get_error(error: StoreError, reason: io::Error) -> LogError
    ensures damaged { result ≡ LogError.Damaged → IsDamaged error }
    ensures failed { IsFailure result → (error ≢ StoreError.Memory) × (IsDamaged error → ⊥) }
    ensures read { error ≡ StoreError.Read → result ≡ LogError.Failed reason }
    ensures memory { result ≡ LogError.Memory → error ≡ StoreError.Memory }
    ensures kind { IsOfReads result }
{
    match error {
        StoreError::Memory => LogError::Memory,
        StoreError::DamagedDocument(_) => LogError::Damaged,
        _ => LogError::Failed(reason),
    }
}

// The bytes of a record of a segment. Its block is read and kept if it is the next after the record before: more of the
// block will be read then. Otherwise only the record is read.
fn read_record<H: FileHandle>(
    alloc: Global,
    reader: &mut StoreReader<H>,
    id: DocId,
    is_next: bool,
) -> Result<OwnedBytes, StoreError>
    ensures no_document { IsErrOf result (StoreError.InvalidArgument id) ↔ (num_docs reader.old ≤ id) }
    ensures honest { IsTrue reader.old.file.honest
        → AnswersTruly id (slice_get (slots (store_of reader.old)) id) result }
    ensures failed { IsErrOf result StoreError.Read → HasRisen reader.old.file.failures reader.new.file.failures }
    ensures steady { IsErrOf result StoreError.Read ⊎ (reader.new.file.failures ≡ reader.old.file.failures) }
    ensures same_store { IsSameStore reader.old reader.new }
{
    if is_next {
        reader.get_document_bytes(alloc, id)
    } else {
        reader.read_document_bytes(alloc, id)
    }
}

// The record of this number of a segment that has it.
fn get_in<F: ReadableFolder>(
    alloc: Global,
    segment: &mut Segment<F::File>,
    number: u64,
) -> Result<Option<Vec<u8>>, LogError>
    ensures part { part_of segment.new.first segment.new.reader ≡ part_of segment.old.first segment.old.reader }
    ensures sealed { sealed_of segment.new.first segment.new.reader ≡ sealed_of segment.old.first segment.old.reader }
    ensures honest { segment.new.reader.file.honest ≡ segment.old.reader.file.honest }
    ensures found { IsTrue segment.old.reader.file.honest → segment.old.first ≤ number
        → number < end_of (part_of segment.old.first segment.old.reader)
        → Gives (slice_get (part_of segment.old.first segment.old.reader).slots (number - segment.old.first)) result }
    ensures count { segment.old.reader.file.failures ≤ segment.new.reader.file.failures }
    ensures failed { IsTrue segment.old.reader.file.honest → segment.old.first ≤ number
        → number < end_of (part_of segment.old.first segment.old.reader) → IsErrAnd result IsFailure
        → HasRisen segment.old.reader.file.failures segment.new.reader.file.failures }
    ensures steady { IsErrAnd result IsFailure
        ⊎ (segment.new.reader.file.failures ≡ segment.old.reader.file.failures) }
    ensures kind { IfErr result IsOfReads }
{
    if number < segment.first || number - segment.first >= u64::from(segment.reader.num_docs()) {
        return Err(LogError::Failed(ErrorKind::InvalidInput.into()));
    }
    let id = (number - segment.first) as u32;
    let is_next = id == segment.next;
    segment.next = id + 1;
    match read_record(alloc, &mut segment.reader, id, is_next) {
        Ok(bytes) => Ok(Some(bytes.as_slice().to_vec(alloc)?)),
        Err(error) => Err(get_error(error, F::read_error(segment.reader.file()))),
    }
}

// The record of this number, of the first of these segments that has it.
fn get_from<F: ReadableFolder>(
    alloc: Global,
    segments: &mut Vec<Segment<F::File>>,
    may_overlap: bool,
    number: u64,
) -> Result<Option<Vec<u8>>, LogError>
    ensures parts { map (λ s. part_of s.first s.reader) segments.new.items
        ≡ map (λ s. part_of s.first s.reader) segments.old.items }
    ensures sealed { map (λ s. sealed_of s.first s.reader) segments.new.items
        ≡ map (λ s. sealed_of s.first s.reader) segments.old.items }
    ensures honest { All (λ s. IsTrue s.reader.file.honest) segments.old.items
        → All (λ s. IsTrue s.reader.file.honest) segments.new.items }
    ensures found { (n : ℕ) → All (λ s. IsTrue s.reader.file.honest) segments.old.items
        → AreInLine n (map (λ s. part_of s.first s.reader) segments.old.items)
        → OnFalse may_overlap (AreNext n (map (λ s. part_of s.first s.reader) segments.old.items)) → n ≤ number
        → number < end_from n (map (λ s. part_of s.first s.reader) segments.old.items)
        → Gives (slice_get (joined n (map (λ s. part_of s.first s.reader) segments.old.items)) (number - n)) result }
    ensures count { sum_by (λ s. s.reader.file.failures) segments.old.items
        ≤ sum_by (λ s. s.reader.file.failures) segments.new.items }
    ensures failed { (n : ℕ) → All (λ s. IsTrue s.reader.file.honest) segments.old.items
        → AreInLine n (map (λ s. part_of s.first s.reader) segments.old.items)
        → OnFalse may_overlap (AreNext n (map (λ s. part_of s.first s.reader) segments.old.items)) → n ≤ number
        → number < end_from n (map (λ s. part_of s.first s.reader) segments.old.items)
        → IsErrAnd result IsFailure → HasRisen (sum_by (λ s. s.reader.file.failures) segments.old.items)
        (sum_by (λ s. s.reader.file.failures) segments.new.items) }
    ensures steady { IsErrAnd result IsFailure ⊎ (sum_by (λ s. s.reader.file.failures) segments.new.items
        ≡ sum_by (λ s. s.reader.file.failures) segments.old.items) }
    ensures kind { IfErr result IsOfReads }
{
    let i = place_of(segments, may_overlap, number);
    if i >= segments.len() {
        return Err(LogError::Failed(ErrorKind::InvalidInput.into()));
    }
    let segment = &mut segments[i];
    get_in::<F>(alloc, segment, number)
}

// The record at a place of a tail.
fn copy_record(alloc: Global, tail: &[u8], place: Place) -> Result<Vec<u8>, AllocError>
    requires order { place.start ≤ place.end }
    requires within { place.end ≤ length tail.now }
    ensures { IfOk result (λ bytes. bytes.items ≡ content tail.now place) }
{
    tail[place.start..place.end].to_vec(alloc)
}

/// Where the records of a log lie.
#[derive(Clone, Copy)]
pub(crate) struct Bounds {
    /// The numbers of the log's first record, of the first that no segment has, and of the tail's first.
    pub(crate) first: u64,
    pub(crate) sealed: u64,
    pub(crate) tail_first: u64,
    /// Whether some segment may not begin just where the one before it ends.
    pub(crate) may_overlap: bool,
}

/// The record of this number of a log of these segments, and this tail, whose records lie at these places.
pub(crate) fn get_record<F: ReadableFolder>(
    alloc: Global,
    segments: &mut Vec<Segment<F::File>>,
    tail: &[u8],
    places: &[Place],
    bounds: Bounds,
    number: u64,
) -> Result<Option<Vec<u8>>, LogError>
    requires { (next : ℕ) × (pending : List ℕ)
        × IsSettledTail bounds.sealed bounds.tail_first next tail.now places.now pending }
    ensures parts { map (λ s. part_of s.first s.reader) segments.new.items
        ≡ map (λ s. part_of s.first s.reader) segments.old.items }
    ensures sealed { map (λ s. sealed_of s.first s.reader) segments.new.items
        ≡ map (λ s. sealed_of s.first s.reader) segments.old.items }
    ensures honest { All (λ s. IsTrue s.reader.file.honest) segments.old.items
        → All (λ s. IsTrue s.reader.file.honest) segments.new.items }
    ensures found { All (λ s. IsTrue s.reader.file.honest) segments.old.items
        → AreBounds bounds (map (λ s. part_of s.first s.reader) segments.old.items) tail.now
        → Gives (slot_at bounds.first (log_slots bounds.first (map (λ s. part_of s.first s.reader) segments.old.items)
        tail.now) number) result }
    ensures count { sum_by (λ s. s.reader.file.failures) segments.old.items
        ≤ sum_by (λ s. s.reader.file.failures) segments.new.items }

    // A read of a segment failed, and the segments have the number.
    ensures failed { All (λ s. IsTrue s.reader.file.honest) segments.old.items
        → AreBounds bounds (map (λ s. part_of s.first s.reader) segments.old.items) tail.now
        → IsErrAnd result IsFailure → HasRisen (sum_by (λ s. s.reader.file.failures) segments.old.items)
        (sum_by (λ s. s.reader.file.failures) segments.new.items) }
    ensures below { IsErrAnd result IsFailure → number < bounds.sealed }
    ensures steady { IsErrAnd result IsFailure ⊎ (sum_by (λ s. s.reader.file.failures) segments.new.items
        ≡ sum_by (λ s. s.reader.file.failures) segments.old.items) }
    ensures kind { IfErr result IsOfReads }
{
    if number < bounds.first {
        return Ok(None);
    }
    if number < bounds.sealed {
        return get_from::<F>(alloc, segments, bounds.may_overlap, number);
    }
    let index = (number - bounds.tail_first) as usize;
    if index >= places.len() {
        return Ok(None);
    }
    Ok(Some(copy_record(alloc, tail, places[index])?))
}

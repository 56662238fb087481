//! Segments: the stores of a log's folder.

ghost use Rattle.std.specs.Prelude.{◌≡◌, ◌≢◌, ◌⊎◌, ◌≤◌, ◌++◌, ℕ, List, length, All, IsTrue, IsSome, IfOk, IfErr, OnOk};
ghost use Rattle.std.specs.Prelude.{IsErrOf, map};
ghost use Rattle.std.specs.Result.{IsErrAnd};
ghost use Rattle.store_base.specs.Counts.{HasRisen};
ghost use Rattle.store_folder.specs.Moments.{ComesFrom, LeavesOnly};
ghost use Rattle.store_folder.specs.Folder.{ElsewhereOfBoth, EntriesStayElsewhereOfBoth, FilesElsewhereOfBoth};
ghost use Rattle.store_folder.specs.Publishing.{part};
ghost use Rattle.log_tail.specs.Place.{contents, EndsBy};
ghost use Rattle.store_reader.specs.Reading.{store_of, IsSeen};
ghost use Rattle.segmented_log.specs.Names.{segment_name};
ghost use Rattle.segmented_log.specs.Parts.{part_of, end_of, first_in};
ghost use Rattle.segmented_log.specs.Log.{HasSegment};
ghost use Rattle.segmented_log.specs.Settled.{part_at, AddsSegment};
ghost use Rattle.segmented_log.specs.Sealing.{HasPacked};
ghost use Rattle.segmented_log.specs.Joining.{HasBlocks};
ghost use Rattle.segmented_log.specs.Opening.{IsNoSegment};
ghost use Rattle.segmented_log.specs.Causes.{IsOfFiles, IsOfSeals, HasNoRoom, IsFault, IsFailure};

use crate::error::LogError;
use crate::names::segment_file;
use crate::sealing::{BLOCK_SIZE, TailRecords, fill_error};
use docstore::{DocId, FileHandle, FileSlice, StoreError, StoreReader, USUAL_PERIOD, laws};
use log_tail::Place;
use std::alloc::Global;
use std::io;
use std::io::ErrorKind;
use store_folder::{Folder, ReadableFolder};
use store_published::publish_store;

/// How many blocks of each segment are kept in memory.
const CACHED_BLOCKS: usize = 4;

/// A segment that is open.
#[derive(Drop)]
pub(crate) struct Segment<H: FileHandle> {
    pub(crate) first: u64,
    pub(crate) reader: StoreReader<H>,
    // The id after that of the record that was got last, or 0 before any.
    pub(crate) next: DocId,
}

/// The number where a segment ends.
pub(crate) fn end_of_segment<H: FileHandle>(segment: &Segment<H>) -> u128
    ensures { result ≡ end_of (part_of segment.now.first segment.now.reader) }
{
    u128::from(segment.first) + u128::from(segment.reader.num_docs())
}

/// The first number of these segments, or that of the tail where there are none.
pub(crate) fn first_number<H: FileHandle>(segments: &[Segment<H>], tail_first: u64) -> u64
    ensures { result ≡ first_in (map (λ s. part_of s.first s.reader) segments.now) tail_first }
{
    match segments.first() {
        Some(segment) => segment.first,
        None => tail_first,
    }
}

// Why a segment could not be opened, of whose file the system said this.
fn open_error(error: StoreError, reason: io::Error) -> LogError
    ensures no_log { result ≡ LogError.NoLog → (error ≢ StoreError.Memory) × (error ≢ StoreError.Read) }
    ensures kind { IsOfFiles result }
{
    match error {
        StoreError::Memory => LogError::Memory,
        StoreError::Read => LogError::Failed(reason),
        _ => LogError::NoLog,
    }
}

/// Opens the segment whose first record has this number.
pub(crate) fn open_segment<F: ReadableFolder>(
    alloc: Global,
    folder: &F,
    first: u64,
) -> Result<Segment<F::File>, LogError>
    ensures first { IfOk result (λ s. s.first ≡ first) }
    ensures found { IsTrue F.honest → IfOk result (λ s. HasSegment (F.seen folder.now) (part_of s.first s.reader)) }
    ensures blocks { IsTrue F.honest
        → IfOk result (λ s. HasBlocks (F.seen folder.now) first (store_of s.reader)) }
    ensures honest { IsTrue F.honest → IfOk result (λ s. IsTrue s.reader.file.honest) }
    ensures seen { IfOk result (λ s. IsSeen s.reader) }
    ensures no_log { IsTrue F.honest → IsErrOf result LogError.NoLog → IsNoSegment (F.seen folder.now) first }
    ensures kind { IfErr result IsOfFiles }
{
    let name = segment_file(alloc, first)?;
    let file = folder.open(alloc, name.as_str())?;
    match StoreReader::open(alloc, FileSlice::new(file), CACHED_BLOCKS) {
        Ok(reader) => Ok(Segment {
            first,
            reader,
            next: 0,
        }),
        Err(refusal) => Err(open_error(refusal.error, F::read_error(refusal.file.handle()))),
    }
}

/// Publishes a segment of the records at these places of a tail.
pub(crate) fn publish_segment<F: Folder>(
    alloc: Global,
    folder: &mut F,
    first: u64,
    tail: &[u8],
    places: &[Place],
) -> Result<(), LogError>
    requires within { All (EndsBy (length tail.now)) places.now }

    // After an Ok, each crash leaves the segment.
    ensures published { IsTrue F.honest → OnOk result ((c : List ℕ → _) → F.may_leave folder.new c
        → HasSegment c (part_at first tail.now places.now)) }
    ensures packed { IsTrue F.honest → OnOk result (HasPacked (F.seen folder.new) first) }
    ensures kept { IsTrue F.honest → OnOk result ((n : List ℕ) → F.entry_kept folder.new n) }
    ensures trust { IsTrue F.honest → EntriesStayElsewhereOfBoth (segment_name first ++ part) (segment_name first)
        (F.trusted folder.old) (F.trusted folder.new) }
    ensures elsewhere { IsTrue F.honest → ElsewhereOfBoth (segment_name first ++ part) (segment_name first)
        (F.seen folder.old) (F.seen folder.new) }
    ensures files { IsTrue F.honest → FilesElsewhereOfBoth (segment_name first ++ part) (segment_name first)
        (F.may_hold folder.old) (F.may_hold folder.new) }
    ensures crash { IsTrue F.honest → ComesFrom (ElsewhereOfBoth (segment_name first ++ part) (segment_name first))
        (F.may_leave folder.old) (F.may_leave folder.new) }

    // A crash at any moment leaves what was there, or the segment.
    ensures any_moment { IsTrue F.honest → LeavesOnly F.moment F.left_since folder.old folder.new
        (AddsSegment (F.may_leave folder.old) (part_at first tail.now places.now)) }
    ensures failures { F.failures folder.old ≤ F.failures folder.new }
    ensures failed { IsErrAnd result IsFailure → HasRisen (F.failures folder.old) (F.failures folder.new) }
    ensures full { IsErrOf result LogError.Full → HasNoRoom (contents tail.now places.now) }
    ensures kind { IfErr result IsOfSeals }
{
    let name = segment_file(alloc, first)?;
    let mut records = TailRecords { tail, places };
    match publish_store(
        alloc,
        folder,
        name.as_str(),
        BLOCK_SIZE,
        USUAL_PERIOD,
        &mut records,
    ) {
        Ok(_) => Ok(()),
        Err(error) => Err(fill_error(error)),
    }
}

/// Why a segment that the folder has could not be opened.
pub(crate) fn reopen_error(error: LogError) -> LogError
    ensures full { result ≡ LogError.Full → ⊥ }
    ensures kind { IsFault result }
{
    match error {
        LogError::Memory | LogError::Failed(_) => error,
        _ => LogError::Failed(ErrorKind::InvalidData.into()),
    }
}

/// Publishes a segment of the records at these places of a tail, and opens it.
pub(crate) fn add_segment<F: ReadableFolder>(
    alloc: Global,
    folder: &mut F,
    first: u64,
    tail: &[u8],
    places: &[Place],
) -> Result<Segment<F::File>, LogError>
    requires within { All (EndsBy (length tail.now)) places.now }
    ensures segment { IsTrue F.honest
        → IfOk result (λ s. part_of s.first s.reader ≡ part_at first tail.now places.now) }
    ensures honest { IsTrue F.honest → IfOk result (λ s. IsTrue s.reader.file.honest) }
    ensures published { IsTrue F.honest → OnOk result ((c : List ℕ → _) → F.may_leave folder.new c
        → HasSegment c (part_at first tail.now places.now)) }
    ensures packed { IsTrue F.honest → OnOk result (HasPacked (F.seen folder.new) first) }
    ensures kept { IsTrue F.honest → OnOk result ((n : List ℕ) → F.entry_kept folder.new n) }
    ensures trust { IsTrue F.honest → EntriesStayElsewhereOfBoth (segment_name first ++ part) (segment_name first)
        (F.trusted folder.old) (F.trusted folder.new) }
    ensures elsewhere { IsTrue F.honest → ElsewhereOfBoth (segment_name first ++ part) (segment_name first)
        (F.seen folder.old) (F.seen folder.new) }
    ensures files { IsTrue F.honest → FilesElsewhereOfBoth (segment_name first ++ part) (segment_name first)
        (F.may_hold folder.old) (F.may_hold folder.new) }
    ensures crash { IsTrue F.honest → ComesFrom (ElsewhereOfBoth (segment_name first ++ part) (segment_name first))
        (F.may_leave folder.old) (F.may_leave folder.new) }
    ensures any_moment { IsTrue F.honest → LeavesOnly F.moment F.left_since folder.old folder.new
        (AddsSegment (F.may_leave folder.old) (part_at first tail.now places.now)) }
    ensures failures { F.failures folder.old ≤ F.failures folder.new }

    // Where no call of the folder failed, the segment's file was published, and was not opened or read.
    ensures failed { IsTrue F.honest → IsErrAnd result IsFailure → HasRisen (F.failures folder.old)
        (F.failures folder.new) ⊎ IsSome (F.seen folder.new (segment_name first)) }
    ensures full { IsErrOf result LogError.Full → HasNoRoom (contents tail.now places.now) }
    ensures kind { IfErr result IsOfSeals }
{
    laws::stores_are_apart();
    publish_segment(alloc, folder, first, tail, places)?;
    match open_segment(alloc, folder, first) {
        Ok(segment) => Ok(segment),
        Err(error) => Err(reopen_error(error)),
    }
}

//! The store of a segment, made of others.

ghost use Rattle.std.specs.Prelude.{◌≡◌, ◌⊎◌, ◌≤◌, ◌<◌, ◌^◌, ◌++◌, [], ℕ};
ghost use Rattle.std.specs.Prelude.{List, All, IsTrue, IfOk, IfErr, OnOk, IsErrOf, map};
ghost use Rattle.std.specs.Prelude.{length, is_none};
ghost use Rattle.std.specs.List.{AllByRecursion, Contains, flat_map};
ghost use Rattle.store_folder.specs.Moments.{ComesFrom, LeavesOnly};
ghost use Rattle.store_folder.specs.Folder.{ElsewhereOfBoth, EntriesStayElsewhereOfBoth, FilesElsewhereOfBoth};
ghost use Rattle.store_folder.specs.Publishing.{part};
ghost use Rattle.store_format.specs.Block.{Slot, damaged};
ghost use Rattle.store_reader.specs.Reading.{store_of, IsSeen};
ghost use Rattle.docstore.specs.Laws.{taken};
ghost use Rattle.docstore.specs.Writer.{blocks_in, IsSameFile};
ghost use Rattle.store_merge.specs.Choice.{alive_slots};
ghost use Rattle.store_merge.specs.Inputs.{HasWholeSet};
ghost use Rattle.store_merge.specs.Merge.{IsHonest};
ghost use Rattle.segmented_log.specs.Names.{segment_name};
ghost use Rattle.segmented_log.specs.Parts.{part_of};
ghost use Rattle.segmented_log.specs.Log.{HasSegment};
ghost use Rattle.segmented_log.specs.Settled.{AddsSegment};
ghost use Rattle.segmented_log.specs.Compacting.{slots_in, IsWhole};
ghost use Rattle.segmented_log.specs.Joining.{HasBlocks, HaveBlocks, AreMerged, HasMerged, HasJoined, RefusesJoin};
ghost use Rattle.segmented_log.specs.Causes.{IsOfJoins, IsDamaged, IsFillingOf, HasTooLong, IsFault};

use crate::error::LogError;
use crate::names::segment_file;
use crate::sealing::BLOCK_SIZE;
use crate::segment::{Segment, open_segment, reopen_error};
use docstore::{StoreError, StoreWriter, TerminatingWrite, USUAL_PERIOD, laws};
use std::alloc::Global;
use std::io::ErrorKind;
use std::{io, mem};
use store_folder::ReadableFolder;
use store_merge::{MergeInput, merge_in_parts};
use store_published::{FillError, Filling, publish_store};

/// How many bytes of a segment are read at a time.
const PART_BYTES: usize = 1 << 20;

// Why segments could not be joined, and what the system said of the file of the one that was being read.
#[derive(Drop)]
struct JoinError {
    error: StoreError,
    reason: io::Error,
}

// Why segments could not be joined.
fn join_error(refusal: JoinError) -> LogError
    ensures full { result ≡ LogError.Full
        → (refusal.error ≡ StoreError.TooManyDocs) ⊎ (refusal.error ≡ StoreError.BlockTooLarge) }
    ensures damaged { result ≡ LogError.Damaged → IsDamaged refusal.error }
    ensures kind { IsOfJoins result }
{
    match refusal.error {
        StoreError::Memory | StoreError::Failed(_) => LogError::Memory,
        StoreError::TooManyDocs | StoreError::BlockTooLarge => LogError::Full,
        StoreError::DamagedDocument(_) => LogError::Damaged,
        _ => LogError::Failed(refusal.reason),
    }
}

// Why the store of a segment that joins others was not published.
fn joining_error(error: FillError<JoinError>) -> LogError
    ensures full { result ≡ LogError.Full → IsFillingOf (λ e.
        (e.error ≡ StoreError.TooManyDocs) ⊎ (e.error ≡ StoreError.BlockTooLarge)) error }
    ensures damaged { result ≡ LogError.Damaged → IsFillingOf (λ e. IsDamaged e.error) error }
    ensures kind { IsOfJoins result }
{
    match error {
        FillError::Filling(error) => join_error(error),
        FillError::Folder(error) => LogError::from(error),
        // An output that no call of the folder failed fails for lack of memory alone.
        FillError::Store(_) => LogError::Memory,
    }
}

// The segment whose first record has this number, as an input of a merge.
fn open_input<F: ReadableFolder>(
    alloc: Global,
    folder: &F,
    first: u64,
) -> Result<MergeInput<F::File>, LogError>
    ensures blocks { IsTrue F.honest
        → IfOk result (λ input. HasBlocks (F.seen folder.now) first (store_of input.reader)) }
    ensures slots { IsTrue F.honest → (all : List Slot)
        → HasSegment (F.seen folder.now) (record { first = first; slots = all })
        → IfOk result (λ input. alive_slots input ≡ all) }
    ensures honest { IsTrue F.honest → IfOk result IsHonest }
    ensures whole { IfOk result IsWhole }
    ensures kind { IfErr result IsFault }
{
    laws::stores_are_apart();
    match open_segment(alloc, folder, first) {
        Ok(segment) => {
            // By its clause there is a slot for each document.
            segment.reader.num_docs();
            Ok(MergeInput {
                reader: segment.reader,
                alive: None,
            })
        }
        Err(error) => Err(reopen_error(error)),
    }
}

// These segments, opened once more as the inputs of a merge.
fn open_inputs<F: ReadableFolder>(
    alloc: Global,
    folder: &F,
    segments: &[Segment<F::File>],
) -> Result<Vec<MergeInput<F::File>>, LogError>
    ensures slots { IsTrue F.honest
        → All (λ s. HasSegment (F.seen folder.now) (part_of s.first s.reader)) segments.now
        → IfOk result (λ inputs. flat_map alive_slots inputs.items
        ≡ slots_in (map (λ s. part_of s.first s.reader) segments.now)) }
    ensures blocks { IsTrue F.honest → IfOk result (λ inputs.
        HaveBlocks (F.seen folder.now) (map (λ s. s.first) segments.now) inputs.items) }
    ensures honest { IsTrue F.honest → IfOk result (λ inputs. AllByRecursion IsHonest inputs.items) }
    ensures whole { IfOk result (λ inputs. AllByRecursion IsWhole inputs.items) }
    ensures kind { IfErr result IsFault }
{
    let mut inputs = Vec::new(alloc);
    for segment in segments {
        inputs.push(open_input(alloc, folder, segment.first)?)?;
    }
    Ok(inputs)
}

// What the system said of the file of an input that was being read.
fn read_error<F: ReadableFolder>(inputs: &[MergeInput<F::File>], input: usize) -> io::Error {
    match inputs.get(input) {
        Some(input) => F::read_error(input.reader.file()),
        None => ErrorKind::Other.into(),
    }
}

// Puts the records of these inputs into a new store.
fn merge_all<W: TerminatingWrite, F: ReadableFolder>(
    alloc: Global,
    writer: &mut StoreWriter<W>,
    inputs: &mut [MergeInput<F::File>],
) -> Result<(), JoinError>
    requires new { taken writer.old ≡ [] }
    requires no_blocks { writer.old.output.finished ≡ [] }
    requires sets { AllByRecursion HasWholeSet inputs.old }
    ensures brought { OnOk result (AllByRecursion IsHonest inputs.old
        → taken writer.new ≡ flat_map alive_slots inputs.old) }
    ensures cut { OnOk result (AreMerged writer.old.block_size inputs.old (blocks_in writer.new)) }
    ensures file { OnOk result (IsSameFile writer.old writer.new) }
    ensures refused { IfErr result (λ e. AllByRecursion IsHonest inputs.old → AllByRecursion IsWhole inputs.old
        → RefusesJoin writer.old.block_size (flat_map alive_slots inputs.old) e.error) }
{
    laws::ids_are_given_in_order();
    laws::stacked_slots_are_counted();
    match merge_in_parts(alloc, writer, inputs, PART_BYTES) {
        Ok(()) => Ok(()),
        Err(refusal) => Err(JoinError {
            error: refusal.error,
            reason: read_error::<F>(inputs, refusal.input),
        }),
    }
}

// Segments, opened once more, as what fills the store of one that has all their records.
#[derive(Drop)]
struct JoinedSegments<F: ReadableFolder> {
    alloc: Global,
    inputs: Vec<MergeInput<F::File>>,
    ghost none: { All (λ x. IsTrue (is_none x.alive)) inputs.items },
}

impl<F: ReadableFolder> Filling for JoinedSegments<F> {
    ghost use Rattle.std.specs.Prelude.{◌≡◌};
    ghost use Rattle.std.specs.List.{AllByRecursion, flat_map};
    ghost use Rattle.store_merge.specs.Choice.{alive_slots};
    ghost use Rattle.store_merge.specs.Merge.{IsHonest};
    ghost use Rattle.segmented_log.specs.Compacting.{IsWhole};
    ghost use Rattle.segmented_log.specs.Joining.{AreMerged, RefusesJoin};

    type Error = JoinError;

    ghost brings = { λ old new slots. AllByRecursion IsHonest old.inputs.items
        → slots ≡ flat_map alive_slots old.inputs.items };

    ghost cuts = { λ old size blocks. AreMerged size old.inputs.items blocks };

    ghost refuses = { λ old new block_size e. AllByRecursion IsHonest old.inputs.items
        → AllByRecursion IsWhole old.inputs.items
        → RefusesJoin block_size (flat_map alive_slots old.inputs.items) e.error };

    fn fill<W: TerminatingWrite>(&mut self, writer: &mut StoreWriter<W>) -> Result<(), JoinError> {
        let mut inputs = mem::replace(&mut self.inputs, Vec::new(self.alloc));
        merge_all::<W, F>(self.alloc, writer, &mut inputs)
    }
}

// Publishes a segment of the records of these inputs, under this number.
fn publish_joined<F: ReadableFolder>(
    alloc: Global,
    folder: &mut F,
    first: u64,
    inputs: Vec<MergeInput<F::File>>,
) -> Result<(), LogError>
    requires whole { AllByRecursion IsWhole inputs.items }
    ensures published { IsTrue F.honest → AllByRecursion IsHonest inputs.items
        → OnOk result ((c : List ℕ → _) → F.may_leave folder.new c
        → HasSegment c (record { first = first; slots = flat_map alive_slots inputs.items })) }
    ensures cut { IsTrue F.honest → OnOk result (HasMerged inputs.items first (F.seen folder.new)) }
    ensures kept { IsTrue F.honest → OnOk result ((n : List ℕ) → F.entry_kept folder.new n) }
    ensures trust { IsTrue F.honest → EntriesStayElsewhereOfBoth (segment_name first ++ part) (segment_name first)
        (F.trusted folder.old) (F.trusted folder.new) }
    ensures elsewhere { IsTrue F.honest → ElsewhereOfBoth (segment_name first ++ part) (segment_name first)
        (F.seen folder.old) (F.seen folder.new) }
    ensures files { IsTrue F.honest → FilesElsewhereOfBoth (segment_name first ++ part) (segment_name first)
        (F.may_hold folder.old) (F.may_hold folder.new) }
    ensures crash { IsTrue F.honest → ComesFrom (ElsewhereOfBoth (segment_name first ++ part) (segment_name first))
        (F.may_leave folder.old) (F.may_leave folder.new) }
    ensures any_moment { IsTrue F.honest → AllByRecursion IsHonest inputs.items
        → LeavesOnly F.moment F.left_since folder.old folder.new (AddsSegment (F.may_leave folder.old)
        (record { first = first; slots = flat_map alive_slots inputs.items })) }
    ensures failures { F.failures folder.old ≤ F.failures folder.new }
    ensures damaged { AllByRecursion IsHonest inputs.items → IsErrOf result LogError.Damaged
        → Contains (flat_map alive_slots inputs.items) damaged }
    ensures full { AllByRecursion IsHonest inputs.items → length (flat_map alive_slots inputs.items) < 2 ^ 32
        → IsErrOf result LogError.Full → HasTooLong (flat_map alive_slots inputs.items) }
    ensures kind { IfErr result IsOfJoins }
{
    let name = segment_file(alloc, first)?;
    let mut joined: JoinedSegments<F> = JoinedSegments { alloc, inputs };
    match publish_store(
        alloc,
        folder,
        name.as_str(),
        BLOCK_SIZE,
        USUAL_PERIOD,
        &mut joined,
    ) {
        Ok(_) => Ok(()),
        Err(error) => Err(joining_error(error)),
    }
}

/// Publishes a segment of all records of these, under this number, and opens it.
pub(crate) fn join_segments<F: ReadableFolder>(
    alloc: Global,
    folder: &mut F,
    first: u64,
    segments: &[Segment<F::File>],
) -> Result<Segment<F::File>, LogError>
    ensures segment { IsTrue F.honest
        → All (λ s. HasSegment (F.seen folder.old) (part_of s.first s.reader)) segments.now
        → IfOk result (λ s. part_of s.first s.reader
        ≡ record { first = first; slots = slots_in (map (λ s. part_of s.first s.reader) segments.now) }) }
    ensures honest { IsTrue F.honest → IfOk result (λ s. IsTrue s.reader.file.honest) }
    ensures seen { IfOk result (λ s. IsSeen s.reader) }
    ensures published { IsTrue F.honest
        → All (λ s. HasSegment (F.seen folder.old) (part_of s.first s.reader)) segments.now
        → OnOk result ((c : List ℕ → _) → F.may_leave folder.new c → HasSegment c
        (record { first = first; slots = slots_in (map (λ s. part_of s.first s.reader) segments.now) })) }
    ensures joined { IsTrue F.honest → OnOk result (HasJoined (F.seen folder.old) (F.seen folder.new) first
        (map (λ s. s.first) segments.now)) }
    ensures kept { IsTrue F.honest → OnOk result ((n : List ℕ) → F.entry_kept folder.new n) }
    ensures trust { IsTrue F.honest → EntriesStayElsewhereOfBoth (segment_name first ++ part) (segment_name first)
        (F.trusted folder.old) (F.trusted folder.new) }
    ensures elsewhere { IsTrue F.honest → ElsewhereOfBoth (segment_name first ++ part) (segment_name first)
        (F.seen folder.old) (F.seen folder.new) }
    ensures files { IsTrue F.honest → FilesElsewhereOfBoth (segment_name first ++ part) (segment_name first)
        (F.may_hold folder.old) (F.may_hold folder.new) }
    ensures crash { IsTrue F.honest → ComesFrom (ElsewhereOfBoth (segment_name first ++ part) (segment_name first))
        (F.may_leave folder.old) (F.may_leave folder.new) }

    // A crash at any moment leaves under the name what was there, or the segment of them all.
    ensures any_moment { IsTrue F.honest
        → All (λ s. HasSegment (F.seen folder.old) (part_of s.first s.reader)) segments.now
        → LeavesOnly F.moment F.left_since folder.old folder.new (AddsSegment (F.may_leave folder.old)
        (record { first = first; slots = slots_in (map (λ s. part_of s.first s.reader) segments.now) })) }
    ensures failures { F.failures folder.old ≤ F.failures folder.new }

    // A record of these segments is damaged, or no block takes it.
    ensures damaged { IsTrue F.honest
        → All (λ s. HasSegment (F.seen folder.old) (part_of s.first s.reader)) segments.now
        → IsErrOf result LogError.Damaged
        → Contains (slots_in (map (λ s. part_of s.first s.reader) segments.now)) damaged }
    ensures full { IsTrue F.honest
        → All (λ s. HasSegment (F.seen folder.old) (part_of s.first s.reader)) segments.now
        → length (slots_in (map (λ s. part_of s.first s.reader) segments.now)) < 2 ^ 32
        → IsErrOf result LogError.Full → HasTooLong (slots_in (map (λ s. part_of s.first s.reader) segments.now)) }
    ensures kind { IfErr result IsOfJoins }
{
    laws::stores_are_apart();
    let inputs = open_inputs(alloc, folder, segments)?;
    publish_joined(alloc, folder, first, inputs)?;
    match open_segment(alloc, folder, first) {
        Ok(segment) => Ok(segment),
        Err(error) => Err(reopen_error(error)),
    }
}

//! A log that is only read.

ghost use Rattle.std.specs.Prelude.{◌≡◌, ◌⊎◌, false, ◌≤◌, ◌+◌, ℕ, List, [], Some, None, length, map, string_bytes, All};
ghost use Rattle.std.specs.Prelude.{IsTrue, IfOk, IfErr, OnOk, OnErr, IsErrOf};
ghost use Rattle.std.specs.Result.{IsErrAnd};
ghost use Rattle.store_base.specs.Counts.{HasRisen};
ghost use Rattle.store_folder.specs.Folder.{AreNames};
ghost use Rattle.store_format.specs.Block.{Slot};
ghost use Rattle.segmented_log.specs.Names.{tail_name};
ghost use Rattle.segmented_log.specs.Parts.{part_of, end_from, log_slots, AreParts};
ghost use Rattle.segmented_log.specs.Log.{IsLog, slot_at, Gives};
ghost use Rattle.segmented_log.specs.Opening.{HasFullTail, HasSegments, HasDamagedTail, HasSoundTail};
ghost use Rattle.segmented_log.specs.Settled.{IsSettledTail};
ghost use Rattle.segmented_log.specs.Causes.{IsOfFiles, IsOfReads, IsOfReaders, IsFailure};

use crate::error::LogError;
use crate::found_log::found_cut;
use crate::loading::{Parts, assemble};
use crate::names::TAIL;
use crate::opening::{have_same_segments, open_all};
use crate::reading::{Bounds, get_record, may_overlap};
use crate::segment::Segment;
use crate::tail::{Tail, WholeTail, whole_tail};
use docstore::{FileHandle, laws};
use log_tail::Place;
use std::alloc::Global;
use std::marker::Model;
use store_folder::ReadableFolder;

/// A log that is only read: nothing is written, and a writer may go on beside it. It has the records that were there
/// when it was opened, or read again.
#[derive(Drop)]
pub struct LogReader<F: ReadableFolder> {
    alloc: Global,
    bounds: Bounds,
    segments: Vec<Segment<F::File>>,
    tail: Vec<u8>,
    places: Vec<Place>,
    is_damaged: bool,
}

/// Clauses see the records, how often reads of segments failed, and whether the tail is damaged.
impl<F: ReadableFolder> Model for LogReader<F> {
    ghost use Rattle.std.specs.Prelude.{ℕ, [], map, All, IsTrue};
    ghost use Rattle.std.specs.List.{sum_by};
    ghost use Rattle.segmented_log.specs.Parts.{part_of, log_slots};
    ghost use Rattle.segmented_log.specs.Settled.{IsSettledTail};
    ghost use Rattle.segmented_log.specs.Bounds.{AreBounds, ReaderView};

    ghost Value = { ReaderView };

    ghost view = { λ r. record {
      first = r.bounds.first;
      slots = log_slots r.bounds.first (map (λ s. part_of s.first s.reader) r.segments.items) r.tail.items;
      read_failures = sum_by (λ s. s.reader.file.failures) r.segments.items;
      is_damaged = r.is_damaged;
    } };

    ghost invariant = { λ r. ((next : ℕ)
        × IsSettledTail r.bounds.sealed r.bounds.tail_first next r.tail.items r.places.items [])
        × (IsTrue F.honest → All (λ s. IsTrue s.reader.file.honest) r.segments.items
        × AreBounds r.bounds (map (λ s. part_of s.first s.reader) r.segments.items) r.tail.items) };
}

// The parts of a folder's log, of which nothing is changed, and whether the tail is damaged after its whole batches.
#[derive(Drop)]
struct ReadParts<H: FileHandle> {
    parts: Parts<H>,
    is_damaged: bool,
}

// The bytes of a folder's tail, which was there between two listings of the same segments, and the names of the first.
fn read_at_once<F: ReadableFolder>(
    alloc: Global,
    folder: &F,
) -> Result<(Vec<String>, Vec<u8>), LogError>
    ensures names { IsTrue F.honest → IfOk result (λ r. AreNames (F.seen folder.now) (map string_bytes r.0.items)) }
    ensures tail { IsTrue F.honest → IfOk result (λ r. F.seen folder.now tail_name ≡ Some r.1.items) }
    ensures no_log { IsTrue F.honest → IsErrOf result LogError.NoLog → F.seen folder.now tail_name ≡ None }
    ensures changed { IsTrue F.honest → IsErrOf result LogError.Changed → ⊥ }
    ensures failed { IsTrue F.is_readable → IsErrAnd result IsFailure → ⊥ }
    ensures kind { IfErr result (λ e. (e ≡ LogError.Changed) ⊎ IsOfFiles e) }
{
    let names = folder.names(alloc)?;
    let Some(tail) = folder.read(alloc, TAIL)? else {
        return Err(LogError::NoLog);
    };
    let again = folder.names(alloc)?;
    if !have_same_segments(alloc, &names, &again)? {
        return Err(LogError::Changed);
    }
    Ok((names, tail))
}

// Reads a folder's log.
fn read_parts<F: ReadableFolder>(alloc: Global, folder: &F) -> Result<ReadParts<F::File>, LogError>
    ensures settled { IfOk result (λ r. IsSettledTail r.parts.sealed r.parts.tail.first r.parts.next
        r.parts.tail.bytes.items r.parts.tail.places.items []) }
    ensures honest { IsTrue F.honest
        → IfOk result (λ r. All (λ s. IsTrue s.reader.file.honest) r.parts.segments.items) }
    ensures sealed { IfOk result (λ r. r.parts.sealed
        ≡ end_from r.parts.first (map (λ s. part_of s.first s.reader) r.parts.segments.items)) }
    ensures are { IfOk result (λ r. AreParts r.parts.first
        (map (λ s. part_of s.first s.reader) r.parts.segments.items) r.parts.tail.bytes.items) }
    ensures log { IsTrue F.honest → IfOk result (λ r. IsLog r.parts.first (log_slots r.parts.first
        (map (λ s. part_of s.first s.reader) r.parts.segments.items) r.parts.tail.bytes.items)
        (F.seen folder.now)) }
    ensures damaged { IsTrue F.honest → IfOk result (λ r. IsTrue r.is_damaged → HasDamagedTail (F.seen folder.now)) }
    ensures sound { IsTrue F.honest → IfOk result (λ r. r.is_damaged ≡ false → HasSoundTail (F.seen folder.now)) }
    ensures damaged_err { IsTrue F.honest → IsErrOf result LogError.DamagedTail → HasDamagedTail (F.seen folder.now) }
    ensures no_log { IsTrue F.honest → IsErrOf result LogError.NoLog → (first : ℕ) (all : List Slot)
        → IsLog first all (F.seen folder.now) → ⊥ }
    ensures full { IsTrue F.honest → IsErrOf result LogError.Full → HasFullTail (F.seen folder.now) }
    ensures changed { IsTrue F.honest → IsErrOf result LogError.Changed → ⊥ }
    ensures failed { IsTrue F.honest → IsTrue F.is_readable → IsErrAnd result IsFailure
        → HasSegments (F.seen folder.now) }
    ensures kind { IfErr result IsOfReaders }
{
    laws::stores_are_apart();
    let (names, bytes) = read_at_once(alloc, folder)?;
    let segments = open_all(alloc, folder, &names)?;
    let len = bytes.len();
    // What is known of the tail is asked for after it was read: it is known of what was read, or of a later tail.
    let WholeTail { tail, is_damaged } = whole_tail(alloc, bytes, found_cut(folder))?;
    if is_damaged && tail.bytes.len() == len {
        return Err(LogError::DamagedTail);
    }
    let parts = assemble(segments, tail)?;
    Ok(ReadParts { parts, is_damaged })
}

impl<F: ReadableFolder> LogReader<F> {
    /// Opens the log of a folder to read it: as it was when its tail was read, between two listings that had the same
    /// segments. Bytes at the end of the tail that are no whole batch are left out.
    ///
    /// Errors: `NoLog`; `DamagedTail` where the tail is whole batches and its first head names another first number, so
    /// its records may have other numbers; `Full` where the numbers of its records pass the greatest u64; `Changed`
    /// where a writer changed the segments meanwhile; `Memory` and `Failed`.
    pub fn open(alloc: Global, folder: &F) -> Result<LogReader<F>, LogError>
        // It is the log that a look sees.
        ensures found { IsTrue F.honest → IfOk result (λ log. IsLog log.first log.slots (F.seen folder.now)) }

        // Where it is not damaged, what was left out is one batch that was not finished.
        ensures damaged { IsTrue F.honest → IfOk result (λ log. IsTrue log.is_damaged
            → HasDamagedTail (F.seen folder.now)) }
        ensures sound { IsTrue F.honest → IfOk result (λ log. log.is_damaged ≡ false
            → HasSoundTail (F.seen folder.now)) }
        ensures damaged_err { IsTrue F.honest → IsErrOf result LogError.DamagedTail
            → HasDamagedTail (F.seen folder.now) }
        ensures no_log { IsTrue F.honest → IsErrOf result LogError.NoLog → (first : ℕ) (all : List Slot)
            → IsLog first all (F.seen folder.now) → ⊥ }
        ensures full { IsTrue F.honest → IsErrOf result LogError.Full → HasFullTail (F.seen folder.now) }

        // A folder that nothing changes is never taken for one that changes. Where it is read, and its log is not, the
        // file of a segment was not.
        ensures changed { IsTrue F.honest → IsErrOf result LogError.Changed → ⊥ }
        ensures failed { IsTrue F.honest → IsTrue F.is_readable → IsErrAnd result IsFailure
            → HasSegments (F.seen folder.now) }
        ensures kind { IfErr result IsOfReaders }
    {
        let ReadParts { parts, is_damaged } = read_parts(alloc, folder)?;
        let Parts {
            first,
            sealed,
            next: _,
            segments,
            tail,
        } = parts;
        let may_overlap = may_overlap(&segments, first);
        let Tail {
            bytes,
            first: tail_first,
            places,
        } = tail;
        Ok(LogReader {
            alloc,
            bounds: Bounds {
                first,
                sealed,
                tail_first,
                may_overlap,
            },
            segments,
            tail: bytes,
            places,
            is_damaged,
        })
    }

    /// Reads the folder again: then it is the log that there is now.
    ///
    /// Errors: those of `open`, after which it is as it was.
    pub fn refresh(&mut self, folder: &F) -> Result<(), LogError>
        ensures found { IsTrue F.honest → OnOk result (IsLog self.new.first self.new.slots (F.seen folder.now)) }
        ensures same { OnErr result (self.new ≡ self.old) }
        ensures kind { IfErr result IsOfReaders }
    {
        *self = LogReader::open(self.alloc, folder)?;
        Ok(())
    }

    /// The number of the first record.
    pub fn first(&self) -> u64
        ensures { result ≡ self.now.first }
    {
        self.bounds.first
    }

    /// The number after the last record.
    pub fn end(&self) -> u64
        ensures { IsTrue F.honest → result ≡ self.now.first + length self.now.slots }
    {
        self.bounds.tail_first + self.places.len() as u64
    }

    /// Whether the tail has bytes after its last record that were written whole and are no whole batch.
    pub fn is_damaged(&self) -> bool
        ensures { result ≡ self.now.is_damaged }
    {
        self.is_damaged
    }

    /// The record of this number.
    ///
    /// Errors: `Memory`; `Failed` where a read of a segment failed; `Damaged` where the segment's block does not say
    /// where the record lies.
    pub fn get(&mut self, number: u64) -> Result<Option<Vec<u8>>, LogError>
        ensures found { IsTrue F.honest → Gives (slot_at self.old.first self.old.slots number) result }
        ensures same { self.new ≡ record self.old { read_failures = self.new.read_failures } }
        ensures count { self.old.read_failures ≤ self.new.read_failures }
        ensures failed { IsTrue F.honest → IsErrAnd result IsFailure
            → HasRisen self.old.read_failures self.new.read_failures }
        ensures steady { IsErrAnd result IsFailure ⊎ (self.new.read_failures ≡ self.old.read_failures) }
        ensures kind { IfErr result IsOfReads }
    {
        get_record::<F>(
            self.alloc,
            &mut self.segments,
            &self.tail,
            &self.places,
            self.bounds,
            number,
        )
    }
}

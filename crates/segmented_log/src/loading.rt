//! A log that is opened.

ghost use Rattle.std.specs.Prelude.{◌≡◌, ◌≢◌, false, ◌≤◌, ◌<◌, ◌^◌, ◌+◌, ◌++◌, ℕ, List, [], Some, None, length, map};
ghost use Rattle.std.specs.Prelude.{◌⊎◌, All, string_bytes, IsTrue, IfOk, IfErr, OnOk, OnErr, IsErrOf};
ghost use Rattle.std.specs.Result.{IsErrAnd};
ghost use Rattle.store_base.specs.Counts.{HasRisen};
ghost use Rattle.store_folder.specs.Moments.{ComesFrom, LeavesOnly};
ghost use Rattle.store_folder.specs.Folder.{ElsewhereOfBoth, AreNames, bytes_of};
ghost use Rattle.store_folder.specs.Publishing.{part};
ghost use Rattle.store_format.specs.Block.{Slot};
ghost use Rattle.segmented_log.specs.Names.{tail_name};
ghost use Rattle.segmented_log.specs.Parts.{part_of, tail_end, end_from, AreParts};
ghost use Rattle.segmented_log.specs.Log.{IsLog, IsBlank, KeepsLog};
ghost use Rattle.segmented_log.specs.Opening.{IsSyncedButTail, IsOldOrSeen, IsNoLog, HasFullTail};
ghost use Rattle.segmented_log.specs.Opening.{HasSegments, IsTailOf, IsNoTail, HasDamagedTail, HasSoundTail};
ghost use Rattle.segmented_log.specs.Opening.{KeepsButFailed};
ghost use Rattle.segmented_log.specs.Settled.{IsReadTail, TailIsKept, IsSettledTail, IsSettledFolder};
ghost use Rattle.segmented_log.specs.Causes.{IsOfTails, IsOfOpenings, IsFailure};

use crate::commit::Commit;
use crate::error::LogError;
use crate::found_log::{FoundLog, find_log};
use crate::log::SegmentedLog;
use crate::opening::{end_of_segments, open_all};
use crate::reading::may_overlap;
use crate::segment::{Segment, first_number};
use crate::tail::{Cut, Tail, begin_tail, repair_tail};
use crate::tail_buffer::TailBuffer;
use docstore::{FileHandle, laws};
use std::alloc::Global;
use store_folder::{Folder, ReadableFolder};

/// The parts of a log in memory.
#[derive(Drop)]
pub(crate) struct Parts<H: FileHandle> {
    pub(crate) first: u64,
    pub(crate) sealed: u64,
    pub(crate) next: u64,
    pub(crate) segments: Vec<Segment<H>>,
    pub(crate) tail: Tail,
}

// The tail of a log's folder, in which this one was found, or a new one where there is none and no segment.
fn load_tail<F: Folder>(
    alloc: Global,
    folder: &mut F,
    found: Option<Vec<u8>>,
    is_blank: bool,
    is_kept: bool,
    cut: Cut,
) -> Result<Tail, LogError>
    requires synced { IsTrue F.honest → IsSyncedButTail (F.seen folder.old) (F.may_leave folder.old) }
    requires tail { IsTrue F.honest → IsTrue is_kept → (bytes : List ℕ) → F.seen folder.old tail_name ≡ Some bytes
        → TailIsKept (F.may_hold folder.old) (F.may_leave folder.old) (F.entry_kept folder.old) (F.trusted folder.old)
        bytes }
    requires found { IsTrue F.honest → bytes_of found ≡ F.seen folder.old tail_name }
    ensures tail { IfOk result (λ t. IsReadTail t.bytes.items t.first t.places.items) }
    ensures kept { IsTrue F.honest → IfOk result (λ t. TailIsKept (F.may_hold folder.new) (F.may_leave folder.new)
        (F.entry_kept folder.new) (F.trusted folder.new) t.bytes.items) }
    ensures crash { IsTrue F.honest → ComesFrom (ElsewhereOfBoth (tail_name ++ part) tail_name)
        (F.may_leave folder.old) (F.may_leave folder.new) }
    ensures any_moment { IsTrue F.honest → LeavesOnly F.moment F.left_since folder.old folder.new
        (IsOldOrSeen (F.may_leave folder.old) (F.seen folder.old)) }
    ensures elsewhere { IsTrue F.honest → ElsewhereOfBoth (tail_name ++ part) tail_name
        (F.seen folder.old) (F.seen folder.new) }
    ensures same { IsTrue F.honest → IfOk result (λ t. IsTailOf (F.seen folder.old tail_name) t.bytes.items) }
    ensures no_log { IsTrue F.honest → IsErrOf result LogError.NoLog → IsNoTail is_blank (F.seen folder.old tail_name) }
    ensures damaged { IsTrue F.honest → IsErrOf result LogError.DamagedTail → HasDamagedTail (F.seen folder.old) }
    ensures sound { IsTrue F.honest → cut ≢ Cut.Damage → OnOk result (HasSoundTail (F.seen folder.old)) }
    ensures failures { F.failures folder.old ≤ F.failures folder.new }
    ensures failed { IsErrAnd result IsFailure → HasRisen (F.failures folder.old) (F.failures folder.new) }
    ensures kind { IfErr result IsOfTails }
{
    match found {
        Some(bytes) => repair_tail(alloc, folder, bytes, is_kept, cut),
        None if is_blank => begin_tail(alloc, folder),
        None => Err(LogError::NoLog),
    }
}

/// The log of these segments and this tail, if they are in line.
pub(crate) fn assemble<H: FileHandle>(
    segments: Vec<Segment<H>>,
    tail: Tail,
) -> Result<Parts<H>, LogError>
    requires { IsReadTail tail.bytes.items tail.first tail.places.items }
    ensures segments { IfOk result (λ p. p.segments ≡ segments) }
    ensures tail { IfOk result (λ p. p.tail ≡ tail) }
    ensures settled { IfOk result (λ p. IsSettledTail p.sealed p.tail.first p.next p.tail.bytes.items
        p.tail.places.items []) }
    ensures parts { IfOk result (λ p. AreParts p.first (map (λ s. part_of s.first s.reader) p.segments.items)
        p.tail.bytes.items) }
    ensures sealed { IfOk result (λ p. p.sealed
        ≡ end_from p.first (map (λ s. part_of s.first s.reader) p.segments.items)) }
    ensures no_log { IsErrOf result LogError.NoLog → (first : ℕ)
        → AreParts first (map (λ s. part_of s.first s.reader) segments.items) tail.bytes.items → ⊥ }
    ensures full { IsErrOf result LogError.Full → 2 ^ 64 ≤ tail_end tail.bytes.items }
    ensures failed { IsErrAnd result IsFailure → ⊥ }
    ensures damaged { IsErrOf result LogError.DamagedTail → ⊥ }
    ensures kind { IfErr result IsOfOpenings }
{
    let first = first_number(&segments, tail.first);
    let Some(sealed) = end_of_segments(&segments, first) else {
        return Err(LogError::NoLog);
    };
    let Some(next) = tail.first.checked_add(tail.places.len() as u64) else {
        return Err(LogError::Full);
    };
    if sealed < tail.first || next < sealed {
        return Err(LogError::NoLog);
    }
    Ok(Parts {
        first,
        sealed,
        next,
        segments,
        tail,
    })
}

// Reads a log's folder, which has these names and this tail and is on the disk, but maybe for its tail, and repairs its
// tail.
fn load_synced<F: ReadableFolder>(
    alloc: Global,
    folder: &mut F,
    names: &[String],
    found: Option<Vec<u8>>,
    is_kept: bool,
    cut: Cut,
) -> Result<Parts<F::File>, LogError>
    requires synced { IsTrue F.honest → IsSyncedButTail (F.seen folder.old) (F.may_leave folder.old) }
    requires tail { IsTrue F.honest → IsTrue is_kept → (bytes : List ℕ) → F.seen folder.old tail_name ≡ Some bytes
        → TailIsKept (F.may_hold folder.old) (F.may_leave folder.old) (F.entry_kept folder.old) (F.trusted folder.old)
        bytes }
    requires names { IsTrue F.honest → AreNames (F.seen folder.old) (map string_bytes names.now) }
    requires found { IsTrue F.honest → bytes_of found ≡ F.seen folder.old tail_name }
    ensures settled { IfOk result (λ p. IsSettledTail p.sealed p.tail.first p.next p.tail.bytes.items
        p.tail.places.items []) }
    ensures folder { IsTrue F.honest → IfOk result (λ p. IsSettledFolder (F.may_hold folder.new)
        (F.may_leave folder.new) (F.entry_kept folder.new) (F.trusted folder.new) p.first p.sealed
        (map (λ s. part_of s.first s.reader) p.segments.items) p.tail.bytes.items) }
    ensures honest { IsTrue F.honest → IfOk result (λ p. All (λ s. IsTrue s.reader.file.honest) p.segments.items) }
    ensures any_moment { IsTrue F.honest → LeavesOnly F.moment F.left_since folder.old folder.new
        (IsOldOrSeen (F.may_leave folder.old) (F.seen folder.old)) }

    // After an Ok each crash leaves the log that was seen.
    ensures kept { IsTrue F.honest → OnOk result ((c : List ℕ → _) → F.may_leave folder.new c
        → KeepsLog (F.seen folder.old) c) }
    ensures no_log { IsTrue F.honest → IsErrOf result LogError.NoLog → IsNoLog (F.seen folder.old) }
    ensures full { IsTrue F.honest → IsErrOf result LogError.Full → HasFullTail (F.seen folder.old) }
    ensures damaged { IsTrue F.honest → IsErrOf result LogError.DamagedTail → HasDamagedTail (F.seen folder.old) }
    ensures sound { IsTrue F.honest → cut ≢ Cut.Damage → OnOk result (HasSoundTail (F.seen folder.old)) }
    ensures elsewhere { IsTrue F.honest → ElsewhereOfBoth (tail_name ++ part) tail_name
        (F.seen folder.old) (F.seen folder.new) }
    ensures failures { F.failures folder.old ≤ F.failures folder.new }
    ensures failed { IsTrue F.honest → IsTrue F.is_readable → IsErrAnd result IsFailure
        → HasRisen (F.failures folder.old) (F.failures folder.new) ⊎ HasSegments (F.seen folder.old) }
    ensures kind { IfErr result IsOfOpenings }
{
    laws::stores_are_apart();
    let segments = open_all(alloc, folder, names)?;
    let is_blank = segments.is_empty();
    let tail = load_tail(alloc, folder, found, is_blank, is_kept, cut)?;
    let parts = assemble(segments, tail)?;
    Ok(parts)
}

// Puts on the disk what a look sees of a log's folder, but for a torn tail, reads it, and repairs its tail.
fn load<F: ReadableFolder>(alloc: Global, folder: &mut F) -> Result<Parts<F::File>, LogError>
    ensures settled { IfOk result (λ p. IsSettledTail p.sealed p.tail.first p.next p.tail.bytes.items
        p.tail.places.items []) }
    ensures folder { IsTrue F.honest → IfOk result (λ p. IsSettledFolder (F.may_hold folder.new)
        (F.may_leave folder.new) (F.entry_kept folder.new) (F.trusted folder.new) p.first p.sealed
        (map (λ s. part_of s.first s.reader) p.segments.items) p.tail.bytes.items) }
    ensures honest { IsTrue F.honest → IfOk result (λ p. All (λ s. IsTrue s.reader.file.honest) p.segments.items) }
    ensures any_moment { IsTrue F.honest → LeavesOnly F.moment F.left_since folder.old folder.new
        (IsOldOrSeen (F.may_leave folder.old) (F.seen folder.old)) }

    // After an Ok each crash leaves the log that was seen.
    ensures kept { IsTrue F.honest → OnOk result ((c : List ℕ → _) → F.may_leave folder.new c
        → KeepsLog (F.seen folder.old) c) }
    ensures no_log { IsTrue F.honest → IsErrOf result LogError.NoLog → IsNoLog (F.seen folder.old) }
    ensures full { IsTrue F.honest → IsErrOf result LogError.Full → HasFullTail (F.seen folder.old) }
    ensures damaged { IsTrue F.honest → IsErrOf result LogError.DamagedTail → HasDamagedTail (F.seen folder.old) }
    ensures sound { IsTrue F.honest → OnOk result (HasSoundTail (F.seen folder.old)) }
    ensures elsewhere { IsTrue F.honest → OnOk result (ElsewhereOfBoth (tail_name ++ part) tail_name
        (F.seen folder.old) (F.seen folder.new)) }
    ensures elsewhere_err { IsTrue F.honest → OnErr result (KeepsButFailed
        (F.failures folder.old) (F.failures folder.new) (F.seen folder.old) (F.seen folder.new)) }
    ensures failures { F.failures folder.old ≤ F.failures folder.new }
    ensures failed { IsTrue F.honest → IsTrue F.is_readable → IsErrAnd result IsFailure
        → HasRisen (F.failures folder.old) (F.failures folder.new) ⊎ HasSegments (F.seen folder.old) }
    ensures kind { IfErr result IsOfOpenings }
{
    let FoundLog {
        names,
        tail,
        is_kept,
        cut,
    } = find_log(alloc, folder)?;
    load_synced(alloc, folder, &names, tail, is_kept, cut)
}

impl<F: ReadableFolder> SegmentedLog<F> {
    /// Opens the log of a folder, or makes a new one, whose first record has the number 0, in a folder that has no file
    /// of a log. What it finds and is not known to be on the disk is put there first, as the process that wrote it may
    /// have ended before its syncs, but for a tail with a batch at its end that was left unfinished. Such a tail, and
    /// one of which a sync may have failed, is replaced by one of its whole batches. A crash during it leaves the same
    /// log, or what it could leave before. A tail that grows past the seal size, in bytes, is sealed by `sync`.
    ///
    /// With `Commit::OneSync` a sync appends to the tail. With `Commit::TwoSyncs` it replaces the tail by one that has
    /// the records too, so a crash leaves all of them or none, whatever their sum is; as it then writes the whole tail,
    /// the seal size should be small. The files are the same.
    ///
    /// Errors hand the folder back: `NoLog` where its files are no log, `DamagedTail` where bytes of the tail are no
    /// whole batch that were written whole, `Full` where the numbers of the tail's records pass the greatest u64,
    /// `Memory` and `Failed`.
    pub fn open(
        alloc: Global,
        folder: F,
        seal_size: usize,
        commit: Commit,
    ) -> Result<SegmentedLog<F>, (LogError, F)>
        ensures works { IfOk result (λ log. log.is_broken ≡ false) }
        ensures commit { IfOk result (λ log. log.commit ≡ commit) }
        ensures seal_size { IfOk result (λ log. log.seal_size ≡ seal_size) }
        ensures none_pending { IfOk result (λ log. log.pending ≡ []) }

        // It finds exactly the log that was there, or begins one.
        ensures found { IsTrue F.honest → IfOk result (λ log. (first : ℕ) (all : List Slot)
            → IsLog first all (F.seen folder) → (log.first ≡ first) × (log.slots ≡ all)) }
        ensures begun { IsTrue F.honest → IfOk result (λ log. IsBlank (F.seen folder)
            → (log.first ≡ 0) × (log.slots ≡ [])) }

        // A crash at any moment leaves what it could leave before, or the same log; where there was none, none or the
        // new one. After an Ok it leaves the log.
        ensures any_moment { IsTrue F.honest → IfOk result (λ log. LeavesOnly F.moment F.left_since folder log.folder
            (IsOldOrSeen (F.may_leave folder) (F.seen folder))) }
        ensures any_moment_err { IsTrue F.honest → IfErr result (λ e. LeavesOnly F.moment F.left_since folder e.1
            (IsOldOrSeen (F.may_leave folder) (F.seen folder))) }

        // Of the folder's files only the tail and the file beside it may be others.
        ensures files { IsTrue F.honest → IfOk result (λ log. ElsewhereOfBoth (tail_name ++ part) tail_name
            (F.seen folder) (F.seen log.folder)) }
        // So it is after an error; or a sync of one of the log's files failed, and each other file is as it was.
        ensures files_err { IsTrue F.honest → IfErr result (λ e. KeepsButFailed
            (F.failures folder) (F.failures e.1) (F.seen folder) (F.seen e.1)) }

        // A log is not refused, nor a folder where one can begin. Where the folder is read, a call of it failed, or the
        // file of a segment.
        ensures no_log { IsTrue F.honest → IfErr result (λ e. e.0 ≡ LogError.NoLog → IsNoLog (F.seen folder)) }
        ensures full { IsTrue F.honest → IfErr result (λ e. e.0 ≡ LogError.Full → HasFullTail (F.seen folder)) }
        ensures damaged { IsTrue F.honest → IfErr result (λ e. e.0 ≡ LogError.DamagedTail
            → HasDamagedTail (F.seen folder)) }

        // What is cut off the tail is one batch that was not finished, and the first number is that of the first head.
        ensures sound { IsTrue F.honest → IfOk result (λ _. HasSoundTail (F.seen folder)) }
        ensures failed { IsTrue F.honest → IsTrue F.is_readable → IfErr result (λ e. IsFailure e.0
            → HasRisen (F.failures folder) (F.failures e.1) ⊎ HasSegments (F.seen folder)) }
        ensures kind { IfErr result (λ e. IsOfOpenings e.0) }
    {
        laws::stores_are_apart();
        let mut folder = folder;
        match load(alloc, &mut folder) {
            Ok(parts) => {
                let Parts {
                    first,
                    sealed,
                    next,
                    segments,
                    tail,
                } = parts;
                let Tail {
                    bytes,
                    first: tail_first,
                    places,
                } = tail;
                let may_overlap = may_overlap(&segments, first);
                Ok(SegmentedLog {
                    alloc,
                    folder,
                    commit,
                    seal_size,
                    first,
                    sealed,
                    tail_first,
                    segments,
                    may_overlap,
                    tail: TailBuffer::new(alloc, bytes),
                    places,
                    next,
                    is_broken: false,
                })
            }
            Err(error) => Err((error, folder)),
        }
    }
}

//! How a log writes what waits, and seals its tail.

ghost use Rattle.std.specs.Prelude.{◌≡◌, ◌⊎◌, ◌↔◌, false, ◌≤◌, ◌<◌, ◌+◌, ◌++◌, [], map};
ghost use Rattle.std.specs.Prelude.{IfErr, OnOk, OnErr, IsErrOf, IsTrue};
ghost use Rattle.std.specs.Result.{IsErrAnd};
ghost use Rattle.store_base.specs.Counts.{HasRisen};
ghost use Rattle.store_folder.specs.Moments.{LeavesOnly};
ghost use Rattle.store_format.specs.Block.{doc};
ghost use Rattle.segmented_log.specs.Log.{IsLog, KeepsOrAdds};
ghost use Rattle.store_folder.specs.Folder.{ElsewhereOfBoth};
ghost use Rattle.store_folder.specs.Publishing.{part};
ghost use Rattle.segmented_log.specs.Names.{tail_name};
ghost use Rattle.segmented_log.specs.Sealing.{AddsPacked};
ghost use Rattle.segmented_log.specs.Causes.{IsOfSeals, HasNewSegment, HasNoRoomForLast, IsFailure};
ghost use Rattle.segmented_log.specs.Causes.{IsFault, IsOfSyncs, KeepsOthers};

use crate::error::LogError;
use crate::log::SegmentedLog;
use crate::segment::add_segment;
use crate::tail_file::{replace_tail, write_batch};
use log_tail::batches::HEADER;
use log_tail::new_tail;
use store_folder::ReadableFolder;

impl<F: ReadableFolder> SegmentedLog<F> {
    // Puts the pending records on the disk, as one batch.
    fn write_pending(&mut self) -> Result<(), LogError>
        requires works { self.old.is_broken ≡ false }
        requires some { 0 < self.old.batch_bytes }
        ensures first { self.new.first ≡ self.old.first }
        ensures commit { self.new.commit ≡ self.old.commit }
        ensures seal_size { self.new.seal_size ≡ self.old.seal_size }
        ensures tail { OnOk result (self.new.tail_bytes ≡ self.old.tail_bytes + 50 + self.old.batch_bytes) }
        ensures segments { self.new.segments ≡ self.old.segments }
        ensures acknowledged { IsTrue F.honest
            → OnOk result (self.new.slots ≡ self.old.slots ++ map doc self.old.pending) }
        ensures none_pending { OnOk result (self.new.pending ≡ []) }
        ensures works { OnOk result (self.new.is_broken ≡ false) }
        ensures broken { OnErr result (IsTrue self.new.is_broken) }
        ensures elsewhere { IsTrue F.honest
            → ElsewhereOfBoth (tail_name ++ part) tail_name (F.seen self.old.folder) (F.seen self.new.folder) }
        ensures any_moment { IsTrue F.honest → LeavesOnly F.moment F.left_since self.old.folder self.new.folder
            (KeepsOrAdds self.old.commit self.old.first self.old.slots self.old.pending) }
        ensures failures { F.failures self.old.folder ≤ F.failures self.new.folder }
        ensures failed { IsErrAnd result IsFailure
            → HasRisen (F.failures self.old.folder) (F.failures self.new.folder) }
        ensures kind { IfErr result IsFault }
    {
        // A call that fails leaves the log so.
        self.is_broken = true;
        let end = self.tail.len();
        self.tail.place_batch(&mut self.places)?;
        self.tail.take_batch(self.tail_first);
        write_batch(&mut self.folder, self.commit, self.tail.bytes(), end)?;
        self.is_broken = false;
        Ok(())
    }

    // Publishes a segment of the tail's records that no segment has.
    fn publish_unsealed(&mut self) -> Result<(), LogError>
        requires works { self.old.is_broken ≡ false }
        ensures first { self.new.first ≡ self.old.first }
        ensures commit { self.new.commit ≡ self.old.commit }
        ensures seal_size { self.new.seal_size ≡ self.old.seal_size }
        ensures tail { self.new.tail_bytes ≡ self.old.tail_bytes }
        ensures sealed { OnOk result (self.new.unsealed ≡ 0) }
        ensures slots { IsTrue F.honest → OnOk result (self.new.slots ≡ self.old.slots) }
        ensures pending { self.new.pending ≡ self.old.pending }
        ensures works { OnOk result (self.new.is_broken ≡ false) }
        ensures broken { OnErr result (IsTrue self.new.is_broken) }
        ensures any_moment { IsTrue F.honest → LeavesOnly F.moment F.left_since self.old.folder self.new.folder
            (IsLog self.old.first self.old.slots) }
        ensures files { IsTrue F.honest → KeepsOthers (F.seen self.old.folder) (F.seen self.new.folder) }
        ensures packed { IsTrue F.honest → OnOk result (AddsPacked (F.seen self.old.folder) (F.seen self.new.folder)) }
        ensures failures { F.failures self.old.folder ≤ F.failures self.new.folder }
        ensures failed { IsTrue F.honest → IsErrAnd result IsFailure
            → HasRisen (F.failures self.old.folder) (F.failures self.new.folder)
            ⊎ HasNewSegment (F.seen self.old.folder) (F.seen self.new.folder) }
        ensures full { IsTrue F.honest → IsErrOf result LogError.Full → HasNoRoomForLast self.old.slots }
        ensures kind { IfErr result IsOfSeals }
    {
        let end = self.tail_first + self.places.len() as u64;
        if self.sealed == end {
            return Ok(());
        }
        self.is_broken = true;
        let from = (self.sealed - self.tail_first) as usize;
        let segment = add_segment(
            self.alloc,
            &mut self.folder,
            self.sealed,
            self.tail.bytes(),
            &self.places[from..],
        )?;
        self.segments.push(segment)?;
        self.sealed = end;
        self.is_broken = false;
        Ok(())
    }

    // Replaces a tail whose records all are in segments by an empty one.
    fn empty_tail(&mut self) -> Result<(), LogError>
        requires works { self.old.is_broken ≡ false }
        requires sealed { self.old.unsealed ≡ 0 }
        ensures first { self.new.first ≡ self.old.first }
        ensures commit { self.new.commit ≡ self.old.commit }
        ensures seal_size { self.new.seal_size ≡ self.old.seal_size }
        ensures tail { OnOk result (self.new.tail_bytes ≡ 16) }
        ensures slots { IsTrue F.honest → OnOk result (self.new.slots ≡ self.old.slots) }
        ensures pending { self.new.pending ≡ self.old.pending }
        ensures works { OnOk result (self.new.is_broken ≡ false) }
        ensures broken { OnErr result (IsTrue self.new.is_broken) }
        ensures any_moment { IsTrue F.honest → LeavesOnly F.moment F.left_since self.old.folder self.new.folder
            (IsLog self.old.first self.old.slots) }
        ensures elsewhere { IsTrue F.honest
            → ElsewhereOfBoth (tail_name ++ part) tail_name (F.seen self.old.folder) (F.seen self.new.folder) }
        ensures failures { F.failures self.old.folder ≤ F.failures self.new.folder }
        ensures failed { IsErrAnd result IsFailure
            → HasRisen (F.failures self.old.folder) (F.failures self.new.folder) }
        ensures kind { IfErr result IsFault }
    {
        if self.tail.len() == HEADER {
            return Ok(());
        }
        let end = self.tail_first + self.places.len() as u64;
        self.is_broken = true;
        let tail = new_tail(self.alloc, end)?;
        replace_tail(&mut self.folder, &tail)?;
        // The new tail grows in the memory of the old one.
        self.tail.restart(&tail);
        self.tail_first = end;
        self.places.clear();
        self.is_broken = false;
        Ok(())
    }

    /// Puts the tail's records into a segment, and replaces the tail by an empty one. What waits for a sync goes on
    /// waiting. At any moment the log is the same.
    ///
    /// Errors: `Broken`; `Memory`, `Failed`, and `Full` where a store has no room for the records, after which the log
    /// is broken.
    pub fn seal(&mut self) -> Result<(), LogError>
        ensures first { self.new.first ≡ self.old.first }
        ensures commit { self.new.commit ≡ self.old.commit }
        ensures seal_size { self.new.seal_size ≡ self.old.seal_size }

        // The tail then has its header alone.
        ensures tail { OnOk result (self.new.tail_bytes ≡ 16) }

        ensures slots { IsTrue F.honest → OnOk result (self.new.slots ≡ self.old.slots) }
        ensures pending { self.new.pending ≡ self.old.pending }
        ensures works { OnOk result (self.new.is_broken ≡ false) }

        // A crash at any moment leaves the same log.
        ensures any_moment { IsTrue F.honest → self.old.is_broken ≡ false
            → LeavesOnly F.moment F.left_since self.old.folder self.new.folder (IsLog self.old.first self.old.slots) }
        // Of the folder's other files each stays, and a new segment is as `pack` writes it.
        ensures files { IsTrue F.honest → KeepsOthers (F.seen self.old.folder) (F.seen self.new.folder) }
        ensures packed { IsTrue F.honest → OnOk result (AddsPacked (F.seen self.old.folder) (F.seen self.new.folder)) }
        ensures broken { IsErrOf result LogError.Broken ↔ IsTrue self.old.is_broken }
        ensures err { OnErr result (IsTrue self.new.is_broken) }
        ensures same { IsTrue self.old.is_broken → self.new ≡ self.old }
        ensures failures { F.failures self.old.folder ≤ F.failures self.new.folder }

        // Where no call of the folder failed, a segment was published whose file was not opened or read.
        ensures failed { IsTrue F.honest → IsErrAnd result IsFailure
            → HasRisen (F.failures self.old.folder) (F.failures self.new.folder)
            ⊎ HasNewSegment (F.seen self.old.folder) (F.seen self.new.folder) }
        ensures full { IsTrue F.honest → IsErrOf result LogError.Full → HasNoRoomForLast self.old.slots }
        ensures kind { IfErr result IsOfSyncs }
    {
        if self.is_broken {
            return Err(LogError::Broken);
        }
        self.seal_tail()
    }

    // Seals a tail that has grown past the size that the log was opened with.
    fn seal_large(&mut self) -> Result<(), LogError>
        requires works { self.old.is_broken ≡ false }
        ensures first { self.new.first ≡ self.old.first }
        ensures commit { self.new.commit ≡ self.old.commit }
        ensures seal_size { self.new.seal_size ≡ self.old.seal_size }
        ensures tail { OnOk result ((self.new.tail_bytes ≤ self.old.seal_size) ⊎ (self.new.tail_bytes ≡ 16)) }
        ensures unsealed { self.old.tail_bytes ≤ self.old.seal_size → self.new.segments ≡ self.old.segments }
        ensures slots { IsTrue F.honest → OnOk result (self.new.slots ≡ self.old.slots) }
        ensures pending { self.new.pending ≡ self.old.pending }
        ensures works { OnOk result (self.new.is_broken ≡ false) }
        ensures broken { OnErr result (IsTrue self.new.is_broken) }
        ensures any_moment { IsTrue F.honest → LeavesOnly F.moment F.left_since self.old.folder self.new.folder
            (IsLog self.old.first self.old.slots) }
        ensures files { IsTrue F.honest → KeepsOthers (F.seen self.old.folder) (F.seen self.new.folder) }
        ensures packed { IsTrue F.honest → OnOk result (AddsPacked (F.seen self.old.folder) (F.seen self.new.folder)) }
        ensures failures { F.failures self.old.folder ≤ F.failures self.new.folder }
        ensures failed { IsTrue F.honest → IsErrAnd result IsFailure
            → HasRisen (F.failures self.old.folder) (F.failures self.new.folder)
            ⊎ HasNewSegment (F.seen self.old.folder) (F.seen self.new.folder) }
        ensures full { IsTrue F.honest → IsErrOf result LogError.Full → HasNoRoomForLast self.old.slots }
        ensures kind { IfErr result IsOfSeals }
    {
        if self.tail.len() <= self.seal_size {
            return Ok(());
        }
        self.seal_tail()
    }

    // Publishes what no segment has, and then empties the tail.
    fn seal_tail(&mut self) -> Result<(), LogError>
        requires works { self.old.is_broken ≡ false }
        ensures first { self.new.first ≡ self.old.first }
        ensures commit { self.new.commit ≡ self.old.commit }
        ensures seal_size { self.new.seal_size ≡ self.old.seal_size }
        ensures tail { OnOk result (self.new.tail_bytes ≡ 16) }
        ensures slots { IsTrue F.honest → OnOk result (self.new.slots ≡ self.old.slots) }
        ensures pending { self.new.pending ≡ self.old.pending }
        ensures works { OnOk result (self.new.is_broken ≡ false) }
        ensures broken { OnErr result (IsTrue self.new.is_broken) }
        ensures any_moment { IsTrue F.honest → LeavesOnly F.moment F.left_since self.old.folder self.new.folder
            (IsLog self.old.first self.old.slots) }
        ensures files { IsTrue F.honest → KeepsOthers (F.seen self.old.folder) (F.seen self.new.folder) }
        ensures packed { IsTrue F.honest → OnOk result (AddsPacked (F.seen self.old.folder) (F.seen self.new.folder)) }
        ensures failures { F.failures self.old.folder ≤ F.failures self.new.folder }
        ensures failed { IsTrue F.honest → IsErrAnd result IsFailure
            → HasRisen (F.failures self.old.folder) (F.failures self.new.folder)
            ⊎ HasNewSegment (F.seen self.old.folder) (F.seen self.new.folder) }
        ensures full { IsTrue F.honest → IsErrOf result LogError.Full → HasNoRoomForLast self.old.slots }
        ensures kind { IfErr result IsOfSeals }
    {
        self.publish_unsealed()?;
        self.empty_tail()
    }

    /// Puts the pending records on the disk, as one batch. After an Ok they are acknowledged: each crash leaves them. A
    /// tail that has grown past the size that the log was opened with is then sealed.
    ///
    /// Errors: `Broken`; `Memory`, `Failed`, and `Full` where a store has no room for the records, after which the log
    /// is broken.
    pub fn sync(&mut self) -> Result<(), LogError>
        ensures first { self.new.first ≡ self.old.first }
        ensures commit { self.new.commit ≡ self.old.commit }
        ensures seal_size { self.new.seal_size ≡ self.old.seal_size }

        // The tail is then no longer than the seal size, or has its header alone. Without need it is not sealed.
        ensures tail { OnOk result ((self.new.tail_bytes ≤ self.old.seal_size) ⊎ (self.new.tail_bytes ≡ 16)) }
        ensures unsealed { self.old.tail_bytes + 50 + self.old.batch_bytes ≤ self.old.seal_size
            → self.new.segments ≡ self.old.segments }

        ensures acknowledged { IsTrue F.honest
            → OnOk result (self.new.slots ≡ self.old.slots ++ map doc self.old.pending) }
        ensures none_pending { OnOk result (self.new.pending ≡ []) }
        ensures works { OnOk result (self.new.is_broken ≡ false) }

        // A crash at any moment leaves the records from before, with all pending ones or with none, or, with one sync,
        // with forged batches.
        ensures any_moment { IsTrue F.honest → self.old.is_broken ≡ false
            → LeavesOnly F.moment F.left_since self.old.folder self.new.folder
            (KeepsOrAdds self.old.commit self.old.first self.old.slots self.old.pending) }
        // Of the folder's other files each stays, and a new segment is as `pack` writes it.
        ensures files { IsTrue F.honest → KeepsOthers (F.seen self.old.folder) (F.seen self.new.folder) }
        ensures packed { IsTrue F.honest → OnOk result (AddsPacked (F.seen self.old.folder) (F.seen self.new.folder)) }
        ensures broken { IsErrOf result LogError.Broken ↔ IsTrue self.old.is_broken }
        ensures err { OnErr result (IsTrue self.new.is_broken) }
        ensures same { IsTrue self.old.is_broken → self.new ≡ self.old }
        ensures failures { F.failures self.old.folder ≤ F.failures self.new.folder }

        // As for a seal.
        ensures failed { IsTrue F.honest → IsErrAnd result IsFailure
            → HasRisen (F.failures self.old.folder) (F.failures self.new.folder)
            ⊎ HasNewSegment (F.seen self.old.folder) (F.seen self.new.folder) }
        ensures full { IsTrue F.honest → IsErrOf result LogError.Full
            → HasNoRoomForLast (self.old.slots ++ map doc self.old.pending) }
        ensures kind { IfErr result IsOfSyncs }
    {
        if self.is_broken {
            return Err(LogError::Broken);
        }
        if self.tail.pending().is_empty() {
            return self.seal_large();
        }
        self.write_pending()?;
        self.seal_large()
    }
}

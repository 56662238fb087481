//! Appends the documents of stores to those that a writer has taken.

ghost use Rattle.std.specs.Prelude.{◌≡◌, ◌≤◌, ◌↔◌, ◌⊎◌, List, None, OnOk, IfErr, IfSome, IsErrOf, MatchResult};
ghost use Rattle.store_format.specs.StoreFile.{StoreBlock};
ghost use Rattle.docstore.specs.Writer.{with_failures, IsStoreWriter};
ghost use Rattle.store_reader.specs.Reading.{IsReadWhole, IsReadAtMostOnce};
ghost use Rattle.docstore.specs.Stacking.{AreRead, with_store, IsOld, HasTooMany, AfterStack};
ghost use Rattle.docstore.specs.Stacking.{HasRoomFor, HasNoRoomFor};
ghost use Rattle.store_reader.specs.Parts.{number_of_parts};
ghost use Rattle.docstore.specs.StackingInParts.{IsReadInPieces, IsReadAtMost, AfterStackInParts};

use super::{StoreWriter, flush};
use store_base::{Cause, FileHandle, StoreError, TerminatingWrite};
use store_format::DocStoreVersion;
use store_reader::StoreReader;

impl<W: TerminatingWrite> StoreWriter<W> {
    // Refuses where a store in this form, with this many documents, can't be stacked.
    fn check_room_for(&self, version: DocStoreVersion, num_docs: u32) -> Result<(), StoreError>
        ensures { MatchResult result (λ _. HasRoomFor self.now version num_docs)
            (HasNoRoomFor self.now version num_docs) }
    {
        self.block_compressor.check_works()?;
        if version == DocStoreVersion::V1 {
            return Err(StoreError::OldVersion);
        }
        if num_docs > u32::MAX - self.num_docs() {
            return Err(StoreError::TooManyDocs);
        }
        Ok(())
    }

    /// Appends the documents of a store to those that were taken: its blocks as they come from its
    /// file, damaged ones too.
    ///
    /// The pending documents are written first, as one block. The store's whole data is read before any of
    /// it is written; `Read` and `Memory` leave the pending documents as a finished block. After
    /// `Failed` the writer answers only `Failed`. Any other error leaves it as it was.
    pub fn stack<H: FileHandle>(&mut self, reader: &mut StoreReader<H>) -> Result<(), StoreError>
        ensures stacked { OnOk result ((bs : List StoreBlock) × AreRead reader.old bs
            × (self.new ≡ with_failures self.new.output.failures (with_store self.old bs))) }
        ensures works { OnOk result (self.old.output.failure ≡ None) }

        // Each cause, where none above it holds.
        ensures failed { IfSome self.old.output.failure (λ cause. IsErrOf result (StoreError.Failed cause)
            × (reader.new ≡ reader.old)) }
        ensures old_version { IsErrOf result StoreError.OldVersion ↔ IsOld self.old reader.old }
        ensures too_many { IsErrOf result StoreError.TooManyDocs ↔ HasTooMany self.old reader.old }

        // After an error: as it was, flushed, or failed for good.
        ensures err { IfErr result (AfterStack reader.old reader.new self.old self.new) }

        // The reader keeps its store.
        ensures read { OnOk result (IsReadWhole reader.old reader.new) }
        ensures kept { IsReadAtMostOnce reader.old reader.new }
        ensures reader { IsErrOf result StoreError.Read
            ⊎ (reader.new.file.failures ≡ reader.old.file.failures) }

        ensures termination { self.new.output.termination ≡ self.old.output.termination }
        ensures count { self.old.output.failures ≤ self.new.output.failures }
        ensures steady { IsErrOf result (StoreError.Failed Cause.Write)
            ⊎ (self.new.output.failures ≡ self.old.output.failures) }
        ensures sound { IsStoreWriter self.new }
    {
        self.check_room_for(reader.version(), reader.num_docs())?;
        flush(&mut self.current_block, &mut self.block_compressor)?;
        self.block_compressor.stack_reader(reader)
    }

    /// Appends the documents of a store to those that were taken, as `stack` does, but a part of its data at a time.
    ///
    /// A part is as many whole blocks as `part_bytes` bytes hold, at least one. It is read by one read, and written
    /// before the next is read, so memory has one part and the index. `Read` and `Memory` leave the pending
    /// documents as a finished block, and after it the store's blocks of the parts before.
    pub fn stack_in_parts<H: FileHandle>(
        &mut self,
        reader: &mut StoreReader<H>,
        part_bytes: usize,
    ) -> Result<(), StoreError>
        ensures stacked { OnOk result ((bs : List StoreBlock) × AreRead reader.old bs
            × (self.new ≡ with_failures self.new.output.failures (with_store self.old bs))) }
        ensures works { OnOk result (self.old.output.failure ≡ None) }

        // Each cause, where none above it holds.
        ensures failed { IfSome self.old.output.failure (λ cause. IsErrOf result (StoreError.Failed cause)
            × (reader.new ≡ reader.old)) }
        ensures old_version { IsErrOf result StoreError.OldVersion ↔ IsOld self.old reader.old }
        ensures too_many { IsErrOf result StoreError.TooManyDocs ↔ HasTooMany self.old reader.old }

        // After an error: as it was, with a beginning of the store's blocks, or failed for good.
        ensures err { IfErr result (AfterStackInParts reader.old reader.new self.old self.new) }

        // The reader keeps its store.
        ensures read { OnOk result
            (IsReadInPieces (number_of_parts part_bytes reader.old.checkpoints) reader.old reader.new) }
        ensures kept { IsReadAtMost (number_of_parts part_bytes reader.old.checkpoints) reader.old reader.new }
        ensures reader { IsErrOf result StoreError.Read
            ⊎ (reader.new.file.failures ≡ reader.old.file.failures) }

        ensures termination { self.new.output.termination ≡ self.old.output.termination }
        ensures count { self.old.output.failures ≤ self.new.output.failures }
        ensures steady { IsErrOf result (StoreError.Failed Cause.Write)
            ⊎ (self.new.output.failures ≡ self.old.output.failures) }
        ensures sound { IsStoreWriter self.new }
    {
        self.check_room_for(reader.version(), reader.num_docs())?;
        flush(&mut self.current_block, &mut self.block_compressor)?;
        self.block_compressor
            .stack_reader_in_parts(reader, part_bytes)
    }
}

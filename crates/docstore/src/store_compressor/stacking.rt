//! Appends the blocks of stores to those that were written.

ghost use Rattle.std.specs.Prelude.{◌≡◌, ◌≢◌, ◌+◌, ◌<◌, ◌≤◌, ◌^◌, ◌⊎◌, List, ◌++◌, length, None};
ghost use Rattle.std.specs.Prelude.{OnOk, OnErr, IfErr, IfSome, IsErrOf};
ghost use Rattle.std.specs.List.{sum_by, AllByRecursion};
ghost use Rattle.layered_index.specs.Checkpoint.{doc_count, IsFilled, IsInLineFrom};
ghost use Rattle.store_format.specs.StoreFile.{StoreBlock, docs_in, blocks_at};
ghost use Rattle.docstore.specs.BlockOutput.{with_blocks, with_risen, IsSound, FailsFor};
ghost use Rattle.store_reader.specs.Reading.{num_docs as docs_of, IsReadWhole};
ghost use Rattle.docstore.specs.Stacking.{AreRead, CutAll, laid_from, AfterStacking};
ghost use Rattle.store_reader.specs.Parts.{number_of_parts};
ghost use Rattle.docstore.specs.StackingInParts.{IsReadInPieces, IsReadAtMost, AfterStackingInParts};

use super::BlockCompressor;
use crate::block_index::BlockIndex;
use layered_index::{Checkpoint, CheckpointRange};
use store_base::{Cause, FileHandle, StoreError, TerminatingWrite};
use store_format::DocStoreVersion;
use store_reader::{StorePart, StoreReader};

impl<W: TerminatingWrite> BlockCompressor<W> {
    /// Appends the blocks of a store as they come from its file, damaged ones too.
    ///
    /// The whole data is read before anything is written, so `Read` and `Memory` leave all as it was.
    pub fn stack_reader<H: FileHandle>(
        &mut self,
        reader: &mut StoreReader<H>,
    ) -> Result<(), StoreError>
        requires version { reader.old.version ≢ DocStoreVersion.V1 }
        requires few_docs { docs_in self.old.finished + docs_of reader.old < 2 ^ 32 }
        ensures stacked { OnOk result ((bs : List StoreBlock) × AreRead reader.old bs
            × (self.new ≡ with_risen self.new.failures (with_blocks self.old bs))) }
        ensures works { OnOk result (self.old.failure ≡ None) }

        // A failed writer answers its cause again and stays as it was, and the reader too.
        ensures failed { IfSome self.old.failure (λ cause. IsErrOf result (StoreError.Failed cause)
            × (self.new ≡ self.old) × (reader.new ≡ reader.old)) }
        ensures err { IfErr result (AfterStacking reader.old reader.new self.old self.new) }

        ensures read { self.old.failure ≡ None → IsReadWhole reader.old reader.new }
        ensures reader { IsErrOf result StoreError.Read
            ⊎ (reader.new.file.failures ≡ reader.old.file.failures) }
        ensures termination { self.new.termination ≡ self.old.termination }
        ensures count { self.old.failures ≤ self.new.failures }
        ensures steady { IsErrOf result (StoreError.Failed Cause.Write)
            ⊎ (self.new.failures ≡ self.old.failures) }
        ensures sound { IsSound self.new }
    {
        self.check_works()?;
        let data = reader.block_data(self.alloc)?;
        let blocks = 0..reader.num_blocks();
        self.write_blocks(data.as_slice(), reader.checkpoints_in(blocks))?;
        Ok(())
    }

    /// The same, a part of its data at a time: as many whole blocks as this many bytes hold, at least one.
    ///
    /// `Read` and `Memory` leave the blocks of the parts before, so the writer works on.
    pub fn stack_reader_in_parts<H: FileHandle>(
        &mut self,
        reader: &mut StoreReader<H>,
        part_bytes: usize,
    ) -> Result<(), StoreError>
        requires version { reader.old.version ≢ DocStoreVersion.V1 }
        requires few_docs { docs_in self.old.finished + docs_of reader.old < 2 ^ 32 }
        ensures stacked { OnOk result ((bs : List StoreBlock) × AreRead reader.old bs
            × (self.new ≡ with_risen self.new.failures (with_blocks self.old bs))) }
        ensures works { OnOk result (self.old.failure ≡ None) }

        // A failed writer answers its cause again and stays as it was, and the reader too.
        ensures failed { IfSome self.old.failure (λ cause. IsErrOf result (StoreError.Failed cause)
            × (self.new ≡ self.old) × (reader.new ≡ reader.old)) }
        ensures err { IfErr result (AfterStackingInParts reader.old reader.new self.old self.new) }

        ensures read { OnOk result
            (IsReadInPieces (number_of_parts part_bytes reader.old.checkpoints) reader.old reader.new) }
        ensures kept { IsReadAtMost (number_of_parts part_bytes reader.old.checkpoints) reader.old reader.new }
        ensures reader { IsErrOf result StoreError.Read
            ⊎ (reader.new.file.failures ≡ reader.old.file.failures) }
        ensures termination { self.new.termination ≡ self.old.termination }
        ensures count { self.old.failures ≤ self.new.failures }
        ensures steady { IsErrOf result (StoreError.Failed Cause.Write)
            ⊎ (self.new.failures ≡ self.old.failures) }
        ensures sound { IsSound self.new }
    {
        self.check_works()?;
        let alloc = self.alloc;
        let mut next_block = 0;
        while let Some(part) = reader.read_part(alloc, next_block, part_bytes)? {
            let StorePart { blocks, bytes } = part;
            next_block = blocks.end;
            self.write_blocks(bytes.as_slice(), reader.checkpoints_in(blocks))?;
        }
        Ok(())
    }

    // Appends the blocks that these checkpoints cut from the bytes.
    fn write_blocks(&mut self, bytes: &[u8], checkpoints: CheckpointRange<'_>) -> Result<(), Cause>
        requires works { self.old.failure ≡ None }
        requires cut { CutAll checkpoints (length bytes.now) }
        requires few_docs { docs_in self.old.finished + sum_by doc_count checkpoints < 2 ^ 32 }
        ensures written { OnOk result (self.new ≡ with_risen self.new.failures
            (with_blocks self.old (blocks_at checkpoints.entry bytes.now))) }
        ensures err { IfErr result (λ cause. FailsFor cause self.old self.new) }
        ensures termination { self.new.termination ≡ self.old.termination }
        ensures count { self.old.failures ≤ self.new.failures }
        ensures steady { IsErrOf result Cause.Write ⊎ (self.new.failures ≡ self.old.failures) }
        ensures sound { IsSound self.new }
    {
        let start = self.writer.written_bytes() as usize;
        if self.writer.write_all(bytes).is_err() {
            self.failure = Some(Cause::Write);
            return Err(Cause::Write);
        }
        let registered = register_all(
            &mut self.index,
            &mut self.first_doc_in_block,
            start,
            checkpoints,
        );
        if registered.is_err() {
            self.failure = Some(Cause::Memory);
            return Err(Cause::Memory);
        }
        Ok(())
    }
}

// Adds checkpoints of blocks of the same sizes, one after the other from this id and this byte on. A refusal leaves
// those before it added.
fn register_all(
    index: &mut BlockIndex,
    next_id: &mut u32,
    start: usize,
    checkpoints: CheckpointRange<'_>,
) -> Result<(), StoreError>
    requires ids { next_id.old ≡ sum_by doc_count index.old.checkpoints }
    requires few { next_id.old < 2 ^ 32 }
    requires in_line { IsInLineFrom 0 0 (index.old.checkpoints ++ laid_from next_id.old start checkpoints) }
    requires filled { AllByRecursion IsFilled checkpoints }
    ensures ok { OnOk result (index.new ≡ record index.old {
      checkpoints =
          index.old.checkpoints ++ laid_from next_id.old start checkpoints.entry;
    }) }
    ensures period { index.new.period ≡ index.old.period }
    ensures ids { next_id.new ≡ sum_by doc_count index.new.checkpoints }
    ensures few { next_id.new < 2 ^ 32 }
    ensures some { OnErr result (0 < length checkpoints.entry) }
{
    let mut start = start;
    for block in checkpoints {
        let end_id = *next_id + (block.doc_range.end - block.doc_range.start);
        let end = start + (block.byte_range.end - block.byte_range.start);
        index.insert(Checkpoint {
            doc_range: *next_id..end_id,
            byte_range: start..end,
        })?;
        *next_id = end_id;
        start = end;
    }
    Ok(())
}

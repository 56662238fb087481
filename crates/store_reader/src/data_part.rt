//! A block of a store, found by a document and read by one read of the file.
ghost use Rattle.std.specs.Prelude.{◌≡◌, ◌<◌, ◌≤◌, ◌+◌, ◌⊎◌, ◌↔◌, IfErr, IfOk, IfSome, IsErrOf, IsNone, IsOkAnd};
ghost use Rattle.store_base.specs.Counts.{HasRisen};
ghost use Rattle.layered_index.specs.Checkpoint.{first_past};
ghost use Rattle.store_reader.specs.Parts.{place_of, IsBlockRead};
ghost use Rattle.std.specs.Option.{option_map};
ghost use Rattle.std.specs.Prelude.{IsTrue, length, slice_range};
ghost use Rattle.store_reader.specs.Reading.{num_docs};

use crate::reader::StoreReader;
use std::alloc::Global;
use std::ops::Range;
use store_base::{DocId, FileHandle, OwnedBytes, StoreError};

/// A block of a store, with its ids.
#[derive(Drop)]
pub struct DataPart {
    /// The ids of its documents.
    pub ids: Range<DocId>,
    /// The byte of the store at which it begins.
    pub start: usize,
    /// Its bytes.
    pub bytes: OwnedBytes,
}

impl<H: FileHandle> StoreReader<H> {
    /// Reads the block that has this document, by one read of the file. The cache is neither asked nor filled.
    /// Returns `None` if there is no such document, and then nothing is read.
    ///
    /// From document 0 on, each time with the end of the last block's ids, it gives all blocks in order.
    pub fn read_block(
        &mut self,
        alloc: Global,
        doc_id: DocId,
    ) -> Result<Option<DataPart>, StoreError>
        ensures place { IfOk result (λ block. option_map place_of block ≡ first_past self.old.checkpoints doc_id) }
        ensures bytes { IsTrue self.old.file.honest → IfOk result (λ block. IfSome block (λ part.
            part.bytes ≡ slice_range self.old.file.content part.start (part.start + length part.bytes))) }
        ensures has { IfOk result (λ block. IfSome block (λ part.
            (part.ids.start ≤ doc_id) × (doc_id < part.ids.end))) }
        ensures within { IfOk result (λ block. IfSome block (λ part. part.ids.end ≤ num_docs self.old)) }
        ensures none { IsOkAnd result IsNone ↔ (num_docs self.old ≤ doc_id) }
        ensures no_read { num_docs self.old ≤ doc_id → self.new ≡ self.old }
        ensures once { doc_id < num_docs self.old → IsBlockRead self.old doc_id self.new }
        ensures causes { IfErr result (λ e. (e ≡ StoreError.Read) ⊎ (e ≡ StoreError.Memory)) }
        ensures failed { IsErrOf result StoreError.Read → HasRisen self.old.file.failures self.new.file.failures }
        ensures steady { IsErrOf result StoreError.Read ⊎ (self.new.file.failures ≡ self.old.file.failures) }
    {
        let Some(block) = self.block_of(doc_id) else {
            return Ok(None);
        };
        let bytes = self.read_data(alloc, block.byte_range.start..block.byte_range.end)?;
        Ok(Some(DataPart {
            ids: block.doc_range,
            start: block.byte_range.start,
            bytes,
        }))
    }
}

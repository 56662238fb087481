//! A document of a store, by two small reads of the file.
ghost use Rattle.std.specs.Prelude.{◌≡◌, ◌+◌, ◌<◌, ◌≤◌, ◌⊎◌, ◌↔◌, IsTrue, IfErr, IsErrOf, slice_get};
ghost use Rattle.store_base.specs.Counts.{HasRisen};
ghost use Rattle.store_format.specs.Slots.{slots};
ghost use Rattle.store_reader.specs.GetAnswer.{AnswersTruly};
ghost use Rattle.store_reader.specs.Reading.{IsSameStore, num_docs, store_of};
ghost use Rattle.store_reader.specs.TwoReads.{IsDocumentRead};

use super::StoreReader;
use crate::two_reads::look_document_up;
use layered_index::Steps;
use std::alloc::Global;
use store_base::{DocId, FileHandle, OwnedBytes, StoreError};

impl<H: FileHandle> StoreReader<H> {
    /// The bytes of a document, as `get_document_bytes`, by less of the file. If the cache has the document's block, no
    /// byte is read. Otherwise there are two reads: of the end of the block from the document's entry in its table on,
    /// and of the document. A block that says another number of documents than the index is read whole instead of the
    /// document. The cache is asked, which counts, and no block is put in it.
    pub fn read_document_bytes(
        &mut self,
        alloc: Global,
        doc_id: DocId,
    ) -> Result<OwnedBytes, StoreError>
        ensures no_document { IsErrOf result (StoreError.InvalidArgument doc_id) ↔ (num_docs self.old ≤ doc_id) }
        ensures no_read { num_docs self.old ≤ doc_id → self.new ≡ self.old }
        ensures read { doc_id < num_docs self.old → IsDocumentRead self.old doc_id result self.new }

        // What follows.
        ensures honest { IsTrue self.old.file.honest
            → AnswersTruly doc_id (slice_get (slots (store_of self.old)) doc_id) result }
        ensures causes { IfErr result (λ e. (e ≡ StoreError.InvalidArgument doc_id)
            ⊎ (e ≡ StoreError.DamagedDocument doc_id) ⊎ (e ≡ StoreError.Read) ⊎ (e ≡ StoreError.Memory)) }
        ensures failed { IsErrOf result StoreError.Read
            → HasRisen self.old.file.failures self.new.file.failures }
        ensures steady { IsErrOf result StoreError.Read
            ⊎ (self.new.file.failures ≡ self.old.file.failures) }
        ensures two_reads { self.new.file.reads ≤ self.old.file.reads + 2 }
        ensures same_store { IsSameStore self.old self.new }
    {
        let mut steps = Steps::new();
        let Some(checkpoint) = self.index.seek_guided(doc_id, &mut steps) else {
            return Err(StoreError::InvalidArgument(doc_id));
        };
        look_document_up(&mut self.file, &mut self.cache, alloc, &checkpoint, doc_id)
    }
}

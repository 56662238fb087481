//! Documents that fill a store.

ghost use Rattle.std.specs.Prelude.{◌≡◌, ◌≤◌, ◌+◌, ◌-◌, ◌^◌, [], ◌∷◌, length, OnOk, IfErr, IsErrOf};
ghost use Rattle.docstore.specs.Writer.{num_docs, AfterRefusal};
ghost use Rattle.store_published.specs.Filling.{AddsDocuments};

use crate::filling::Filling;
use docstore::{StoreError, StoreWriter, TerminatingWrite, laws};

/// Puts a document after those of a writer.
///
/// # Errors
///
/// Those of `StoreWriter::store_bytes`, which leave the writer as that call does.
#[inline(always)]
pub fn store_document<W: TerminatingWrite>(
    writer: &mut StoreWriter<W>,
    document: &[u8],
) -> Result<(), StoreError>
    ensures stored { OnOk result (AddsDocuments (document.now ∷ []) writer.old writer.new) }
    ensures size { OnOk result (writer.new.block_size ≡ writer.old.block_size) }
    ensures too_many { IsErrOf result StoreError.TooManyDocs → num_docs writer.old ≡ 2 ^ 32 - 1 }
    ensures too_large { IsErrOf result StoreError.BlockTooLarge
        → 2 ^ 32 ≤ writer.old.block_size + length document.now + 8 }
    ensures err { IfErr result (AfterRefusal writer.old writer.new) }
{
    laws::documents_are_taken_in_order();
    writer.store_bytes(document)
}

/// Documents in memory, as what fills a store: these, in order.
#[derive(Clone, Copy, Drop)]
pub struct DocumentList<'a> {
    pub documents: &'a [Vec<u8>],
}

impl<'a> Filling for DocumentList<'a> {
    ghost use Rattle.std.specs.Prelude.{◌≡◌, map};
    ghost use Rattle.store_format.specs.Block.{doc};
    ghost use Rattle.docstore.specs.Trace.{AreFlushed};

    type Error = StoreError;

    ghost brings = { λ old new slots. slots ≡ map doc (map (λ d. d.items) old.documents.now) };

    ghost cuts = { λ old size blocks. AreFlushed size (map (λ d. d.items) old.documents.now) blocks };

    fn fill<W: TerminatingWrite>(&mut self, writer: &mut StoreWriter<W>) -> Result<(), StoreError> {
        for document in self.documents {
            store_document(writer, document)?;
        }
        Ok(())
    }
}

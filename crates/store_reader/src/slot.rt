//! A document of a block.

ghost use Rattle.std.specs.Prelude.{◌≡◌, Some};
ghost use Rattle.store_reader.specs.CallAnswers.{exact_result};
ghost use Rattle.store_reader.specs.GetAnswer.{Answers};
ghost use Rattle.store_reader.specs.Finding.{given};
ghost use Rattle.store_format.specs.Block.{slot};

use store_base::{DocId, OwnedBytes, StoreError};
use store_format::block_read_index;

/// The document at a position of a block, or its refusal where it is damaged.
#[inline(always)]
pub fn document_at<'a>(block: &'a [u8], doc_id: DocId, doc_pos: u32) -> Result<&'a [u8], StoreError>
    ensures { given result ≡ exact_result doc_id (Some (slot block.entry.now doc_pos)) }
{
    match block_read_index(block, doc_pos) {
        Some(range) => Ok(&block[range]),
        None => Err(StoreError::DamagedDocument(doc_id)),
    }
}

// The document at a position of a block, whose bytes it shares.
#[inline(always)]
pub(crate) fn document_in(
    block: &OwnedBytes,
    doc_id: DocId,
    doc_pos: u32,
) -> Result<OwnedBytes, StoreError>
    ensures { Answers doc_id (slot block.now doc_pos) result }
{
    match block_read_index(block.as_slice(), doc_pos) {
        Some(range) => Ok(block.slice(range)?),
        None => Err(StoreError::DamagedDocument(doc_id)),
    }
}

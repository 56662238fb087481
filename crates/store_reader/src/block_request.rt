//! What a look-up wants of its block.

ghost use Rattle.std.specs.Prelude.{Ok};
ghost use Rattle.store_reader.specs.BlockRequests.{AnswersRequest};
ghost use Rattle.store_reader.specs.LookingUp.{IsShared};

use crate::slot::document_in;
use store_base::{DocId, OwnedBytes, StoreError};

/// What a look-up wants: the bytes of one document of the block, or of the whole block.
#[derive(Clone, Copy)]
pub(crate) enum BlockRequest {
    Document { doc_id: DocId, doc_pos: u32 },
    Whole,
}

// The whole block. It shares the block's bytes.
fn whole_block(block: &OwnedBytes) -> Result<OwnedBytes, StoreError>
    ensures { IsShared (Ok block.now) result }
{
    match block.clone() {
        Ok(copy) => Ok(copy),
        Err(_) => Err(StoreError::Memory),
    }
}

// What the request wants of a block. It shares the block's bytes. Each caller knows the request when it is compiled.
#[inline(always)]
pub(crate) fn answer_request(
    block: &OwnedBytes,
    request: BlockRequest,
) -> Result<OwnedBytes, StoreError>
    ensures { AnswersRequest request (Ok block.now) result }
{
    match request {
        BlockRequest::Document { doc_id, doc_pos } => document_in(block, doc_id, doc_pos),
        BlockRequest::Whole => whole_block(block),
    }
}

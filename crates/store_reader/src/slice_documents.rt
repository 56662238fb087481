//! Iterations over the documents of a store in a slice of bytes.
use crate::block_slice::BlockSlice;
use crate::block_slices::BlockSlices;
use crate::slot::document_at;
use store_base::{DocId, StoreError};

/// The documents of a store in the order of their ids: each a part of the file, or `DamagedDocument`. It decodes each
/// checkpoint of the bottom layer once, and seeks nothing. Where it finds the index damaged, `BadIndex` is the last
/// item.
#[derive(Drop)]
pub struct SliceDocuments<'a> {
    pub(crate) blocks: BlockSlices<'a>,
    pub(crate) next: DocId,
    pub(crate) block: BlockSlice<'a>,
}

impl<'a> Iterator for SliceDocuments<'a> {
    ghost use Rattle.std.specs.Prelude.{◌≡◌, ◌≤◌, ◌+◌, ◌-◌, ◌^◌, length};
    ghost use Rattle.std.specs.Iterator.{at_most};
    ghost use Rattle.store_reader.specs.Opening.{IsSomeStore};
    ghost use Rattle.store_reader.specs.StoreSlices.{IsAmid, GivesStored};

    type Item = Result<&'a [u8], StoreError>;

    ghost can_next = { λ s. (s.block.first ≤ s.next) × (s.next ≤ s.block.end) × (s.blocks.next ≡ s.block.end) };

    ghost remaining = { λ s. at_most (length s.blocks.checkpoints + (2 ^ 32 - s.next)) };

    ghost next_gives = { λ s r t. (t.blocks.bytes ≡ s.blocks.bytes) × ((z : IsSomeStore s.blocks.bytes)
        → IsAmid s.blocks.bytes z s.next s.block.first s.block.end s.block.bytes.now s.blocks
        → GivesStored s.blocks.bytes z s.next r t.next
        × IsAmid s.blocks.bytes z t.next t.block.first t.block.end t.block.bytes.now t.blocks) };

    #[inline(always)]
    fn next(&mut self) -> Option<Result<&'a [u8], StoreError>> {
        let doc_id = self.next;
        if doc_id >= self.block.end {
            match self.blocks.next()? {
                Ok(block) => self.block = block,
                Err(error) => return Some(Err(error)),
            }
        }
        self.next = doc_id + 1;
        Some(document_at(self.block.bytes, doc_id, doc_id - self.block.first))
    }
}

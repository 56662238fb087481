//! A block of a store in a slice of bytes.
ghost use Rattle.std.specs.Prelude.{◌≡◌, ◌≤◌, ◌<◌, ◌+◌, ◌^◌, ℕ, List, [], length, slice_range};
ghost use Rattle.std.specs.Prelude.{IfOk, IfErr, IsOkAnd, Some};
ghost use Rattle.layered_index.specs.Checkpoint.{first_past};
ghost use Rattle.store_format.specs.StoreFile.{checkpoints_of, data_of};
ghost use Rattle.store_reader.specs.Opening.{IsSomeStore};
ghost use Rattle.store_reader.specs.Finding.{placed_in};
ghost use Rattle.store_reader.specs.StoreSlices.{document_in, IsBlockSlice};

use layered_index::Checkpoint;
use std::ops::Range;
use store_base::{DocId, StoreError};
use store_format::{likely_read_index, part};

/// A block of a store: the ids of its documents, the byte of the file at which it begins, and its bytes.
#[derive(Clone, Copy)]
pub struct BlockSlice<'a> {
    pub first: DocId,
    pub end: DocId,
    pub start: usize,
    pub bytes: &'a [u8],
}

impl<'a> BlockSlice<'a> {
    // Before the first block: no document and no byte.
    pub(crate) fn before_all() -> BlockSlice<'a>
        ensures first { result.first ≡ 0 }
        ensures end { result.end ≡ 0 }
        ensures start { result.start ≡ 0 }
        ensures bytes { result.bytes.now ≡ [] }
    {
        BlockSlice {
            first: 0,
            end: 0,
            start: 0,
            bytes: &[],
        }
    }

    /// Where a document of the block lies in the file. It returns `DamagedDocument` where the block doesn't say it.
    #[inline(always)]
    pub fn locate(&self, doc_id: DocId) -> Result<Range<usize>, StoreError>
        requires from { self.now.first ≤ doc_id }
        requires to { doc_id < self.now.end }
        requires fits { self.now.start + length self.now.bytes.now < 2 ^ 64 }
        ensures document { (file : List ℕ) (s : IsSomeStore file) → IsBlockSlice file s doc_id
            self.now.first self.now.end self.now.start self.now.bytes.now
            → placed_in file result ≡ document_in file s doc_id }
        ensures order { IfOk result (λ r. r.start ≤ r.end) }
        ensures after_start { IfOk result (λ r. self.now.start ≤ r.start) }
        ensures within { IfOk result (λ r. r.end ≤ self.now.start + length self.now.bytes.now) }
        ensures refused { IfErr result (λ e. e ≡ StoreError.DamagedDocument doc_id) }
    {
        match likely_read_index(self.bytes, self.end - self.first, doc_id - self.first) {
            Some(range) => Ok(self.start + range.start..self.start + range.end),
            None => Err(StoreError::DamagedDocument(doc_id)),
        }
    }
}

/// The block of the checkpoint that an index gives for a document, in a file with this many bytes of blocks. It returns
/// `BadIndex` where the documents or the bytes of that checkpoint can't be the block's.
#[inline(always)]
pub(crate) fn found_block(
    file: &[u8],
    data_len: usize,
    doc_id: DocId,
    checkpoint: Checkpoint,
) -> Result<BlockSlice<'_>, StoreError>
    requires data { data_len ≤ length file.now }
    requires has { doc_id < checkpoint.doc_range.end }
    requires order { checkpoint.byte_range.start ≤ checkpoint.byte_range.end }
    ensures block { (s : IsSomeStore file.entry.now) → data_len ≡ length (data_of s.blocks)
        → first_past (checkpoints_of s.blocks) doc_id ≡ Some checkpoint
        → IsOkAnd result (λ b. (id : ℕ) → b.first ≤ id → id < b.end
        → IsBlockSlice file.entry.now s id b.first b.end b.start b.bytes.now) }
    ensures has { IfOk result (λ b. (b.first ≤ doc_id) × (doc_id < b.end)) }
    ensures docs_end { IfOk result (λ b. b.end ≡ checkpoint.doc_range.end) }
    ensures part { IfOk result (λ b. b.bytes.now
        ≡ slice_range file.entry.now b.start (b.start + length b.bytes.now)) }
    ensures within { IfOk result (λ b. b.start + length b.bytes.now ≤ length file.entry.now) }
    ensures fits { IfOk result (λ b. b.start + length b.bytes.now < 2 ^ 64) }
    ensures refused { IfErr result (λ e. e ≡ StoreError.BadIndex) }
{
    let docs = checkpoint.doc_range;
    let bytes = checkpoint.byte_range;
    if doc_id < docs.start || data_len < bytes.end {
        return Err(StoreError::BadIndex);
    }
    Ok(BlockSlice {
        first: docs.start,
        end: docs.end,
        start: bytes.start,
        bytes: part(file, bytes.start, bytes.end),
    })
}

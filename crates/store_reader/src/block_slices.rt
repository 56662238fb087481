//! Iterations over the blocks of a store in a slice of bytes.
ghost use Rattle.std.specs.Prelude.{◌≡◌, ◌≤◌, length, IfSome, IsSome, false};
ghost use Rattle.store_reader.specs.StoreSlices.{ContinuesAt, IsBlockAt, IsSliceFrom};

use crate::block_slice::BlockSlice;
use layered_index::{Checkpoint, LayerCursor};
use std::marker::Model;
use store_base::{DocId, StoreError};
use store_format::part;

/// The blocks of a store in order, from one on. It decodes each checkpoint of the bottom layer once, and seeks nothing.
/// `BadIndex` is the last item where the documents of a checkpoint don't begin where those of the one before it ended,
/// where it has none, or where its bytes leave the data.
#[derive(Drop)]
pub struct BlockSlices<'a> {
    file: &'a [u8],
    data_len: usize,
    checkpoints: LayerCursor<'a>,
    next: DocId,
    failed: bool,
}

/// Clauses see what is left.
impl<'a> Model for BlockSlices<'a> {
    ghost use Rattle.std.specs.Prelude.{◌≤◌, length};
    ghost use Rattle.store_reader.specs.StoreSlices.{BlocksLeft};

    ghost Value = { BlocksLeft };

    ghost view = { λ b. record {
      bytes = b.file.now;
      data_len = b.data_len;
      next = b.next;
      checkpoints = b.checkpoints;
      failed = b.failed;
    } };

    ghost invariant = { λ b. b.data_len ≤ length b.file.now };
}

// The block of a checkpoint, if its documents begin with this one and its bytes lie in the data.
#[inline(always)]
fn block_at<'a>(
    file: &'a [u8],
    data_len: usize,
    doc_id: DocId,
    checkpoint: &Checkpoint,
) -> Option<BlockSlice<'a>>
    requires within { data_len ≤ length file.now }
    ensures part { IfSome result (IsSliceFrom file.now doc_id) }
    ensures block { IfSome result (IsBlockAt checkpoint.now) }
    ensures taken { ContinuesAt doc_id data_len checkpoint.now → IsSome result }
{
    let docs = &checkpoint.doc_range;
    let bytes = &checkpoint.byte_range;
    if docs.start != doc_id || docs.end <= doc_id {
        return None;
    }
    if bytes.end < bytes.start || data_len < bytes.end {
        return None;
    }
    Some(BlockSlice {
        first: doc_id,
        end: docs.end,
        start: bytes.start,
        bytes: part(file, bytes.start, bytes.end),
    })
}

impl<'a> BlockSlices<'a> {
    // The blocks of these checkpoints, of which the first begins with this document.
    pub(crate) fn new(
        file: &'a [u8],
        data_len: usize,
        next: DocId,
        checkpoints: LayerCursor<'a>,
    ) -> BlockSlices<'a>
        requires within { data_len ≤ length file.now }
        ensures bytes { result.bytes ≡ file.entry.now }
        ensures data_len { result.data_len ≡ data_len }
        ensures next { result.next ≡ next }
        ensures checkpoints { result.checkpoints ≡ checkpoints.entry }
        ensures well { result.failed ≡ false }
    {
        BlockSlices {
            file,
            data_len,
            checkpoints,
            next,
            failed: false,
        }
    }

    // Whether the index was found damaged.
    #[inline(always)]
    pub(crate) fn has_failed(&self) -> bool
        ensures { result ≡ self.now.failed }
    {
        self.failed
    }
}

impl<'a> Iterator for BlockSlices<'a> {
    ghost use Rattle.std.specs.Prelude.{◌≡◌, ℕ, List, length};
    ghost use Rattle.std.specs.Iterator.{at_most};
    ghost use Rattle.store_reader.specs.Opening.{IsSomeStore};
    ghost use Rattle.store_reader.specs.StoreSlices.{GivesPart, AreLeft, GivesBlock};

    type Item = Result<BlockSlice<'a>, StoreError>;

    ghost remaining = { λ s. at_most (length s.checkpoints) };

    ghost next_gives = { λ s r t. GivesPart s r t × ((file : List ℕ) → (z : IsSomeStore file) → AreLeft file z s
        → GivesBlock file z s.next r × AreLeft file z t) };

    #[inline(always)]
    fn next(&mut self) -> Option<Result<BlockSlice<'a>, StoreError>> {
        if self.failed {
            return None;
        }
        let checkpoint = self.checkpoints.next()?;
        match block_at(self.file, self.data_len, self.next, &checkpoint) {
            Some(block) => {
                self.next = block.end;
                Some(Ok(block))
            }
            None => {
                self.failed = true;
                Some(Err(StoreError::BadIndex))
            }
        }
    }
}

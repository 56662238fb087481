//! A look-up of a block, in the cache and then in the file.

ghost use Rattle.std.specs.Prelude.{◌≤◌, ℕ, List, Result, length};
ghost use Rattle.store_base.specs.declared.error.StoreError.{StoreError as StoreErrorOf};
ghost use Rattle.store_format.specs.FileReading.{Comes};
ghost use Rattle.store_reader.specs.LookingUp.{LooksUp};
ghost use Rattle.store_reader.specs.BlockRequests.{AnswersRequest};

use crate::block_request::{BlockRequest, answer_request};
use crate::cache::BlockCache;
use layered_index::Checkpoint;
use std::alloc::Global;
use store_base::{DocId, FileHandle, FileSlice, OwnedBytes, StoreError};
use store_format::read_part;

// The ids of a block's documents, and its bytes, or why they did not come.
#[derive(Drop)]
pub(crate) struct EnteredBlock {
    pub(crate) first: DocId,
    pub(crate) end: DocId,
    pub(crate) block: Result<OwnedBytes, StoreError>,
}

// Reads a checkpoint's block.
pub(crate) fn read_block<H: FileHandle>(
    file: &mut FileSlice<H>,
    alloc: Global,
    checkpoint: &Checkpoint,
) -> Result<OwnedBytes, StoreError>
    requires order { checkpoint.now.byte_range.start ≤ checkpoint.now.byte_range.end }
    requires within { checkpoint.now.byte_range.end ≤ length file.old.content }
    ensures { Comes file.old checkpoint.now.byte_range.start checkpoint.now.byte_range.end result file.new }
{
    let range = checkpoint.byte_range.start as u64..checkpoint.byte_range.end as u64;
    read_part(file, alloc, range)
}

// Looks the block of a checkpoint up, and gives what the request wants of it.
#[inline(always)]
pub(crate) fn look_up<H: FileHandle>(
    file: &mut FileSlice<H>,
    cache: &mut BlockCache,
    alloc: Global,
    checkpoint: &Checkpoint,
    request: BlockRequest,
) -> Result<OwnedBytes, StoreError>
    requires order { checkpoint.now.byte_range.start ≤ checkpoint.now.byte_range.end }
    requires within { checkpoint.now.byte_range.end ≤ length file.old.content }
    ensures { (came : Result (List ℕ) StoreErrorOf)
        × LooksUp checkpoint.now file.old cache.old came file.new cache.new
        × AnswersRequest request came result }
{
    let key = checkpoint.byte_range.start;
    if let Some(answer) = cache.look_up(key, request) {
        return answer;
    }
    let block = read_block(file, alloc, checkpoint)?;
    let answer = answer_request(&block, request);
    cache.put(key, block);
    answer
}

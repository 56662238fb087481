//! The data of a store in parts: whole blocks that follow one another, by their numbers in the order of the store.
ghost use Rattle.std.specs.Prelude.{◌≡◌, ◌<◌, ◌≤◌, ◌+◌, ◌⊎◌, ◌↔◌, Some, IfErr, IfOk, IfSome, IsErrOf};
ghost use Rattle.std.specs.Prelude.{IsNone, IsOkAnd, length, slice_get, slice_range};
ghost use Rattle.store_base.specs.Counts.{HasRisen};
ghost use Rattle.layered_index.specs.Checkpoint.{Covers};
ghost use Rattle.store_reader.specs.Parts.{byte_at, EndsPart, IsPartFrom, IsPartRead};

use super::StoreReader;
use layered_index::{Checkpoint, CheckpointRange};
use std::alloc::Global;
use std::ops::Range;
use store_base::{FileHandle, OwnedBytes, StoreError};

/// Whole blocks of a store that follow one another, with their bytes.
#[derive(Drop)]
pub struct StorePart {
    /// Their numbers.
    pub blocks: Range<usize>,
    /// Their bytes.
    pub bytes: OwnedBytes,
}

// Where a part ends: the number of the block after it, and the byte after its last.
#[derive(Drop)]
struct PartEnd {
    block: usize,
    byte: usize,
}

impl<H: FileHandle> StoreReader<H> {
    /// How many blocks the store has.
    pub fn num_blocks(&self) -> usize
        ensures { result ≡ length self.now.checkpoints }
    {
        self.index.len()
    }

    /// Where the blocks with these numbers lie, in order.
    pub fn checkpoints_in(&self, blocks: Range<usize>) -> CheckpointRange<'_>
        requires { blocks.end ≤ length self.now.checkpoints }
        ensures { result ≡ slice_range self.now.checkpoints blocks.start blocks.end }
    {
        self.index.range(blocks)
    }

    // Where the block with this number lies, if there is one.
    fn block(&self, number: usize) -> Option<Checkpoint>
        ensures checkpoint { result ≡ slice_get self.now.checkpoints number }
        ensures covers { Covers self.now.checkpoints (length self.now.file.content) }
    {
        self.index.get(number)
    }

    // The end of the part that begins with this block: as many whole blocks as `part_bytes` bytes hold, at least one.
    fn end_of_part(&self, number: usize, first: Checkpoint, part_bytes: usize) -> PartEnd
        requires found { slice_get self.now.checkpoints number ≡ Some first }
        requires covers { Covers self.now.checkpoints (length self.now.file.content) }
        ensures part { EndsPart part_bytes self.now.checkpoints number result.block }
        ensures byte { result.byte ≡ byte_at result.block self.now.checkpoints }
    {
        let start = first.byte_range.start;
        let mut end = PartEnd {
            block: number + 1,
            byte: first.byte_range.end,
        };
        while let Some(block) = self.block(end.block) {
            if block.byte_range.end - start > part_bytes {
                break;
            }
            end = PartEnd {
                block: end.block + 1,
                byte: block.byte_range.end,
            };
        }
        end
    }

    /// Reads the block with this number, and as many blocks after it as fit into `part_bytes` together with it, by one
    /// read of the file. The cache is neither asked nor filled. Returns `None` if there is no such block.
    ///
    /// From block 0 on, each time with the end of the last part's blocks, it gives all blocks in order, and seeks none.
    pub fn read_part(
        &mut self,
        alloc: Global,
        number: usize,
        part_bytes: usize,
    ) -> Result<Option<StorePart>, StoreError>
        ensures none { IsOkAnd result IsNone ↔ (length self.old.checkpoints ≤ number) }
        ensures no_read { length self.old.checkpoints ≤ number → self.new ≡ self.old }
        ensures part { IfOk result (λ found. IfSome found (IsPartFrom part_bytes self.old number)) }
        ensures causes { IfErr result (λ e. (e ≡ StoreError.Read) ⊎ (e ≡ StoreError.Memory)) }
        ensures failed { IsErrOf result StoreError.Read → HasRisen self.old.file.failures self.new.file.failures }
        ensures steady { IsErrOf result StoreError.Read ⊎ (self.new.file.failures ≡ self.old.file.failures) }
        ensures once { number < length self.old.checkpoints → IsPartRead part_bytes self.old number result self.new }
        ensures covers { Covers self.old.checkpoints (length self.old.file.content) }
    {
        let Some(first) = self.block(number) else {
            return Ok(None);
        };
        let start = first.byte_range.start;
        let end = self.end_of_part(number, first, part_bytes);
        let bytes = self.read_data(alloc, start..end.byte)?;
        Ok(Some(StorePart {
            blocks: number..end.block,
            bytes,
        }))
    }
}

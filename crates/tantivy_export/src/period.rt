//! The index of a store under the period of version 2.

ghost use Rattle.std.specs.Prelude.{◌≡◌, IfOk, IsOkUnless, length};
ghost use Rattle.layered_index.specs.Checkpoint.{IsInLine, Covers};

use docstore::{
    CheckpointRange, FileHandle, SkipIndexBuilder, StoreError, StoreReader, USUAL_PERIOD,
};
use std::alloc::Global;

/// An index of period 8 of the blocks of a store.
pub(crate) fn index_of<H: FileHandle>(
    alloc: Global,
    reader: &StoreReader<H>,
) -> Result<SkipIndexBuilder, StoreError>
    ensures index { IfOk result (λ index.
        index ≡ record { period = 8; checkpoints = reader.now.checkpoints }) }
    ensures memory { IsOkUnless result StoreError.Memory }
    ensures covers { Covers reader.now.checkpoints (length reader.now.file.content) }
{
    // By its clause the checkpoints are in line.
    reader.num_docs();
    index_over(alloc, reader.checkpoints_in(0..reader.num_blocks()))
}

// An index of period 8 of these checkpoints.
fn index_over(
    alloc: Global,
    checkpoints: CheckpointRange<'_>,
) -> Result<SkipIndexBuilder, StoreError>
    requires in_line { IsInLine checkpoints }
    ensures index { IfOk result (λ index.
        index ≡ record { period = 8; checkpoints = checkpoints.entry }) }
    ensures memory { IsOkUnless result StoreError.Memory }
{
    let mut index = SkipIndexBuilder::with_period(alloc, USUAL_PERIOD);
    for checkpoint in checkpoints {
        index.insert(checkpoint)?;
    }
    Ok(index)
}

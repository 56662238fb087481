//! Inputs of merges.
ghost use Rattle.std.specs.Prelude.{IfOk};
ghost use Rattle.std.specs.List.{AllByRecursion};
ghost use Rattle.store_merge.specs.Inputs.{HasWholeSet};

use crate::failing_file::FailingFile;
use crate::making::{opened, written};
use docstore::{AliveBitSet, StoreError};
use std::alloc::Global;
use store_merge::MergeInput;

/// A store that is merged: its file, the number of the read that fails, and which documents are deleted. Number 0
/// never comes.
pub type Source<'a> = (&'a [u8], u64, &'a [u32]);

fn input(alloc: Global, source: &Source<'_>) -> Result<MergeInput<FailingFile>, StoreError>
    ensures { IfOk result HasWholeSet }
{
    let (file, failing_read, deleted) = *source;
    let file = FailingFile::new(alloc, Vec::from_slice(alloc, file)?, failing_read)?;
    let reader = opened(alloc, file)?;
    let alive = AliveBitSet::from_deleted_docs(alloc, deleted, reader.num_docs())?;
    Ok(MergeInput {
        reader: Box::into_inner(reader),
        alive: Some(alive),
    })
}

/// These stores.
pub fn inputs(
    alloc: Global,
    sources: &[Source<'_>],
) -> Result<Vec<MergeInput<FailingFile>>, StoreError>
    ensures { IfOk result (λ inputs. AllByRecursion HasWholeSet inputs.items) }
{
    let mut inputs = Vec::new(alloc);
    for source in sources {
        inputs.push(input(alloc, source)?)?;
    }
    Ok(inputs)
}

/// Six blocks, of 99 bytes in all.
pub fn six_blocks(alloc: Global) -> Result<Vec<u8>, StoreError> {
    written(alloc, 0, &[b"a", b"b", b"c", b"d", b"e", b"f"])
}

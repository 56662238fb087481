//! Merges two stores, one of them without some documents.
ghost use Rattle.std.specs.Prelude.{IfOk};
ghost use Rattle.std.specs.List.{AllByRecursion};
ghost use Rattle.store_merge.specs.Inputs.{HasWholeSet};

use crate::in_memory::{opened, print_text, written};
use docstore::{AliveBitSet, Compressor, MemFile, MemSink, OwnedBytes, StoreError, StoreWriter};
use std::alloc::Global;
use store_merge::{MergeInput, merge};

/// A store, and which of its documents are deleted.
fn input(alloc: Global, file: Vec<u8>, deleted: &[u32]) -> Result<MergeInput<MemFile>, StoreError>
    ensures { IfOk result HasWholeSet }
{
    let reader = opened(alloc, file)?;
    let alive = AliveBitSet::from_deleted_docs(alloc, deleted, reader.num_docs())?;
    Ok(MergeInput {
        reader: Box::into_inner(reader),
        alive: Some(alive),
    })
}

/// The file of a merge.
fn merged(alloc: Global, inputs: &mut [MergeInput<MemFile>]) -> Result<Vec<u8>, StoreError>
    requires sets { AllByRecursion HasWholeSet inputs.old }
{
    let mut writer = StoreWriter::new(alloc, MemSink::new(alloc), Compressor::None, 16384);
    merge(alloc, &mut writer, inputs).map_err(|refusal| refusal.error)?;
    Ok(writer.close()?.into_bytes())
}

// Two stores, and no banana.
fn inputs(alloc: Global) -> Result<Vec<MergeInput<MemFile>>, StoreError>
    ensures { IfOk result (λ inputs. AllByRecursion HasWholeSet inputs.items) }
{
    let mut inputs = Vec::new(alloc);
    inputs.push(input(alloc, written(alloc, &["apple", "banana"])?, &[1])?)?;
    inputs.push(input(alloc, written(alloc, &["cherry"])?, &[])?)?;
    Ok(inputs)
}

// The last document of a merge.
fn last_document(alloc: Global) -> Result<OwnedBytes, StoreError> {
    let file = merged(alloc, &mut inputs(alloc)?)?;
    opened(alloc, file)?.get_document_bytes(alloc, 1)
}

/// Prints the last document of a merge.
pub fn print_merged(rt: &HostRuntime) -> anyhow::Result<()> {
    let cherry = last_document(rt.alloc())?;
    print_text(rt, "merged", cherry.as_slice())
}

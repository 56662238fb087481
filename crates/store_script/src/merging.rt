//! Stores merged into one.
ghost use Rattle.std.specs.Prelude.{IfOk};
ghost use Rattle.std.specs.List.{AllByRecursion};
ghost use Rattle.store_merge.specs.Inputs.{HasWholeSet};

use crate::fault::{NoAnswer, ToolFault};
use crate::store::Store;
use docstore::{Compressor, MemFile, MemSink, StoreError, StoreWriter};
use std::alloc::Global;
use store_merge::{MergeInput, merge};

// The named stores opened again, with nothing deleted. A number that names none is passed over.
fn inputs_of(
    alloc: Global,
    stores: &[Store],
    named: &[u32],
) -> Result<Vec<MergeInput<MemFile>>, NoAnswer>
    ensures { IfOk result (λ inputs. AllByRecursion HasWholeSet inputs.items) }
{
    let mut inputs = Vec::new(alloc);
    for store in named {
        let Some(store) = stores.get(*store as usize) else {
            continue;
        };
        let input = MergeInput {
            reader: Box::into_inner(store.reopen(alloc, 0)?),
            alive: None,
        };
        if inputs.push(input).is_err() {
            return Err(NoAnswer::Tool(ToolFault::Memory));
        }
    }
    Ok(inputs)
}

// The file of the inputs' documents, in order, in blocks of this size.
fn merged_file(
    alloc: Global,
    block_size: usize,
    inputs: &mut [MergeInput<MemFile>],
) -> Result<Vec<u8>, StoreError>
    requires { AllByRecursion HasWholeSet inputs.old }
{
    let output = MemSink::new(alloc);
    let mut writer = StoreWriter::new(alloc, output, Compressor::None, block_size);
    if let Err(refusal) = merge(alloc, &mut writer, inputs) {
        return Err(refusal.error);
    }
    Ok(writer.close()?.into_bytes())
}

/// The file of the documents of the named stores, in order, in blocks of this size.
pub fn merge_named(
    alloc: Global,
    block_size: usize,
    stores: &[Store],
    named: &[u32],
) -> Result<Vec<u8>, NoAnswer> {
    let mut inputs = inputs_of(alloc, stores, named)?;
    Ok(merged_file(alloc, block_size, &mut inputs)?)
}

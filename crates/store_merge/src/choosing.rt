//! Which inputs are stacked, and which may not be merged.
ghost use Rattle.std.specs.Prelude.{◌≡◌, length};
ghost use Rattle.std.specs.List.{list_all, range_with_len};
ghost use Rattle.store_reader.specs.Iteration.{is_in};
ghost use Rattle.store_reader.specs.Reading.{num_docs, store_of};
ghost use Rattle.store_format.specs.Slots.{slots};
ghost use Rattle.store_reader.specs.Walking.{set_of};
ghost use Rattle.store_merge.specs.Choice.{is_stacked, first_old};

use crate::input::MergeInput;
use docstore::{AliveBitSet, DocId, DocStoreVersion, FileHandle};

/// How many blocks a store has at least that is stacked. A smaller one would leave small blocks in the output.
pub const LEAST_STACKED_BLOCKS: usize = 6;

/// The place of the first input whose documents may be in an older form, which nothing translates.
pub fn first_old<H: FileHandle>(inputs: &[MergeInput<H>]) -> Option<usize>
    ensures { result ≡ first_old inputs.now }
{
    inputs
        .iter()
        .position(|input| input.reader.version() == DocStoreVersion::V1)
}

// Whether each document below the count is alive.
fn are_all_alive(alive: Option<&AliveBitSet>, count: DocId) -> bool
    ensures { result ≡ list_all (is_in (set_of alive.entry)) (range_with_len 0 count) }
{
    match alive {
        Some(alive) => (0..count).all(|doc_id| alive.is_alive(doc_id)),
        None => true,
    }
}

/// Whether an input is stacked: it has many blocks, and nothing of it is deleted.
pub fn is_stacked<H: FileHandle>(input: &MergeInput<H>) -> bool
    ensures stacked { result ≡ is_stacked input.now }
    ensures count { num_docs input.now.reader ≡ length (slots (store_of input.now.reader)) }
{
    let count = input.reader.num_docs();
    input.reader.num_blocks() >= LEAST_STACKED_BLOCKS && are_all_alive(input.alive.as_ref(), count)
}

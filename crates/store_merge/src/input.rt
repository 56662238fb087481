//! The inputs of a merge.

use docstore::{AliveBitSet, FileHandle, StoreReader};

/// A store that is merged, and which of its documents are alive. Without a set each is.
#[derive(Drop)]
pub struct MergeInput<H: FileHandle> {
    pub reader: StoreReader<H>,
    pub alive: Option<AliveBitSet>,
}

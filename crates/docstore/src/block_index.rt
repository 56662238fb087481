//! The index of the blocks that were written, which counts them.

ghost use Rattle.std.specs.Prelude.{◌≡◌, ◌<◌, ◌≤◌, ◌^◌, [], ◌∷◌, ◌++◌, length, OnOk, OnErr};
ghost use Rattle.std.specs.List.{sum_by};
ghost use Rattle.layered_index.specs.Checkpoint.{doc_count, IsInLine};

use layered_index::{Checkpoint, SkipIndexBuilder};
use std::alloc::Global;
use std::marker::Model;
use store_base::StoreError;

/// The index of a store in the making. Each of its blocks has a document.
#[derive(Drop)]
pub(crate) struct BlockIndex {
    builder: SkipIndexBuilder,
    num_blocks: u64,
}

/// Clauses see the index.
impl Model for BlockIndex {
    ghost use Rattle.std.specs.Prelude.{◌≡◌, ◌≤◌, length};
    ghost use Rattle.std.specs.List.{sum_by};
    ghost use Rattle.layered_index.specs.Checkpoint.{doc_count};
    ghost use Rattle.layered_index.specs.Layers.{Index};

    ghost Value = { Index };

    ghost view = { λ s. s.builder };

    ghost invariant = { λ s. (s.num_blocks ≡ length s.builder.checkpoints)
        × (s.num_blocks ≤ sum_by doc_count s.builder.checkpoints) };
}

impl BlockIndex {
    /// An index of no blocks, of this period. It takes no memory.
    pub fn with_period(alloc: Global, period: u8) -> BlockIndex
        requires least { 2 ≤ period }
        requires most { period ≤ 64 }
        ensures { result ≡ record { period = period; checkpoints = [] } }
    {
        BlockIndex {
            builder: SkipIndexBuilder::with_period(alloc, period),
            num_blocks: 0,
        }
    }

    /// How many checkpoints a full block of a layer has.
    pub fn period(&self) -> u8
        ensures { result ≡ self.now.period }
    {
        self.builder.period()
    }

    /// How many blocks it has.
    pub fn num_blocks(&self) -> u64
        ensures count { result ≡ length self.now.checkpoints }
        ensures few { result ≤ sum_by doc_count self.now.checkpoints }
    {
        self.num_blocks
    }

    /// Adds the checkpoint of a block.
    pub fn insert(&mut self, checkpoint: Checkpoint) -> Result<(), StoreError>
        requires in_line { IsInLine (self.old.checkpoints ++ checkpoint ∷ []) }
        requires some { 0 < doc_count checkpoint }
        requires few { sum_by doc_count self.old.checkpoints < 2 ^ 32 }
        ensures ok { OnOk result (self.new ≡
            record self.old { checkpoints = self.old.checkpoints ++ checkpoint ∷ [] }) }
        ensures err { OnErr result (self.new ≡ self.old) }
    {
        self.builder.insert(checkpoint)?;
        self.num_blocks += 1;
        Ok(())
    }

    /// The index without the count.
    pub fn into_builder(self) -> SkipIndexBuilder
        ensures { result ≡ self }
    {
        self.builder
    }
}

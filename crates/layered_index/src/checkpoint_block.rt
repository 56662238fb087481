//! A block of checkpoints.
ghost use Rattle.std.specs.Prelude.{◌≡◌, ◌<◌, ◌-◌, [], ◌∷◌, ◌++◌, length, take, Some, slice_get};
ghost use Rattle.std.specs.Prelude.{IfOk, IfErr, OnOk, OnErr, IsOkUnless};
ghost use Rattle.layered_index.specs.Checkpoint.{IsInLine, doc_interval, checkpoint_block};
ghost use Rattle.layered_index.specs.BlockReading.{HasBlock};
ghost use Rattle.layered_index.specs.Refusal.{RefusesOnlyUnless};

use crate::checkpoint::{CHECKPOINT_PERIOD, Checkpoint};
use crate::run_reading::first_block;
use std::alloc::Global;
use std::marker::Model;
use std::ops::Range;
use store_base::{DocId, StoreError, VInt};

/// Checkpoints in line: each follows the one before it.
#[derive(Drop)]
pub struct CheckpointBlock {
    checkpoints: Vec<Checkpoint>,
}

impl Model for CheckpointBlock {
    ghost use Rattle.std.specs.Prelude.{List};
    ghost use Rattle.layered_index.specs.declared.checkpoint.Checkpoint.{Checkpoint};
    ghost use Rattle.layered_index.specs.Checkpoint.{IsInLine};

    ghost Value = { List Checkpoint };

    ghost view = { λ b. b.checkpoints.items };

    ghost invariant = { λ b. IsInLine b.checkpoints.items };
}

impl CheckpointBlock {
    /// An empty block, with room for two full ones of the usual period. One of a longer period grows.
    pub fn new(alloc: Global) -> Result<CheckpointBlock, StoreError>
        ensures ok { IfOk result (λ block. block ≡ []) }
        ensures memory { IsOkUnless result StoreError.Memory }
    {
        let checkpoints = Vec::with_capacity(alloc, 2 * CHECKPOINT_PERIOD)?;
        Ok(CheckpointBlock { checkpoints })
    }

    /// From the first document to the end of the last, or None where there is no checkpoint.
    pub fn doc_interval(&self) -> Option<Range<DocId>>
        ensures { result ≡ doc_interval self.now }
    {
        let first = self.checkpoints.first()?;
        let last = self.checkpoints.last()?;
        Some(first.doc_range.start..last.doc_range.end)
    }

    /// Adds a checkpoint at the end.
    pub fn push(&mut self, checkpoint: Checkpoint) -> Result<(), StoreError>
        requires { IsInLine (self.old ++ checkpoint ∷ []) }
        ensures ok { OnOk result (self.new ≡ self.old ++ checkpoint ∷ []) }
        ensures err { OnErr result (self.new ≡ self.old) }
        ensures memory { IsOkUnless result StoreError.Memory }
    {
        self.checkpoints.push(checkpoint)?;
        Ok(())
    }

    // Takes the last checkpoint away, if there is one.
    pub(crate) fn pop(&mut self)
        ensures { self.new ≡ take (length self.old - 1) self.old }
    {
        let len = self.checkpoints.len();
        self.checkpoints.truncate(len.saturating_sub(1));
    }

    /// How many checkpoints there are.
    pub fn len(&self) -> usize
        ensures { result ≡ length self.now }
    {
        self.checkpoints.len()
    }

    /// A copy of the checkpoint at this index.
    pub fn get(&self, idx: usize) -> Checkpoint
        requires { idx < length self.now }
        ensures { slice_get self.now idx ≡ Some result }
    {
        self.checkpoints[idx].copied()
    }

    /// Takes all checkpoints away. The memory is kept.
    pub fn clear(&mut self)
        ensures { self.new ≡ [] }
    {
        self.checkpoints.clear();
    }

    /// The checkpoints in order.
    pub fn checkpoints(&self) -> &[Checkpoint]
        ensures list { result.now ≡ self.now }
        ensures in_line { IsInLine self.now }
    {
        &self.checkpoints
    }

    /// Appends the block's bytes.
    pub fn serialize(&mut self, output: &mut Vec<u8>) -> Result<(), StoreError>
        ensures ok { OnOk result (output.new.items ≡ output.old.items ++ checkpoint_block self.old) }
        ensures err { OnErr result (output.new.items ≡ output.old.items) }
        ensures memory { IsOkUnless result StoreError.Memory }
        ensures unchanged { self.new ≡ self.old }
    {
        let start = output.len();
        let written = write_checkpoints(&self.checkpoints, output);
        if written.is_err() {
            output.truncate(start);
        }
        written
    }

    /// Reads a block from the front of the bytes, in place of the list, and moves past it. A refusal
    /// leaves both.
    pub fn deserialize(&mut self, input: &mut &[u8]) -> Result<(), StoreError>
        ensures ok { IfOk result (λ _.
            IsInLine self.new × (input.old.now ≡ checkpoint_block self.new ++ input.new.now)) }
        ensures refused { IfErr result (RefusesOnlyUnless (HasBlock input.old.now)) }
        ensures unchanged { OnErr result
            ((input.new.now ≡ input.old.now) × (self.new ≡ self.old)) }
    {
        let alloc = *self.checkpoints.allocator();
        let (checkpoints, rest) = first_block(alloc, *input)?;
        self.checkpoints = checkpoints;
        *input = rest;
        Ok(())
    }
}

// Appends the bytes of checkpoints. Where memory runs out a part of them may be left.
#[tactic(auto, unfolding(crate::specs::Checkpoint::checkpoint_block))]
fn write_checkpoints(checkpoints: &[Checkpoint], output: &mut Vec<u8>) -> Result<(), StoreError>
    requires { IsInLine checkpoints.now }
    ensures ok { OnOk result
        (output.new.items ≡ output.old.items ++ checkpoint_block checkpoints.now) }
    ensures err { OnErr result (take (length output.old.items) output.new.items ≡ output.old.items) }
    ensures memory { IsOkUnless result StoreError.Memory }
{
    VInt(checkpoints.len() as u64).serialize_into_vec(output)?;
    let [first, ..] = checkpoints else {
        return Ok(());
    };
    VInt(u64::from(first.doc_range.start)).serialize_into_vec(output)?;
    VInt(first.byte_range.start as u64).serialize_into_vec(output)?;
    for checkpoint in checkpoints {
        let docs = checkpoint.doc_range.end - checkpoint.doc_range.start;
        VInt(u64::from(docs)).serialize_into_vec(output)?;
        let bytes = checkpoint.byte_range.end - checkpoint.byte_range.start;
        VInt(bytes as u64).serialize_into_vec(output)?;
    }
    Ok(())
}

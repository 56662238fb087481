//! An index in the making: layers of checkpoint blocks.
ghost use Rattle.std.specs.Prelude.{◌≡◌, ◌⊎◌, ◌+◌, ◌-◌, ◌<◌, ◌≤◌, ◌^◌, None, Err};
ghost use Rattle.std.specs.Prelude.{[], ◌∷◌, ◌++◌, length, take, drop, reverse};
ghost use Rattle.std.specs.Prelude.{IfOk, IfErr, OnOk, OnErr, IsOkUnless};
ghost use Rattle.std.specs.List.{flat_map, concat};
ghost use Rattle.store_base.specs.Counts.{HasRisen};
ghost use Rattle.store_base.specs.VInt.{number};
ghost use Rattle.layered_index.specs.Checkpoint.{IsInLine};
ghost use Rattle.layered_index.specs.Layers.{ends_from, index_part};
ghost use Rattle.layered_index.specs.Building.{put, put_some, closed_text, last_pointer};
ghost use Rattle.layered_index.specs.Building.{TookOne, AcceptsInsert, inserted, Closes, closed, texts_of};

use crate::checkpoint::{CHECKPOINT_PERIOD, Checkpoint, USUAL_PERIOD};
use crate::checkpoint_block::CheckpointBlock;
use std::alloc::Global;
use std::marker::Model;
use store_base::{Cause, StoreError, TerminatingWrite, VInt, WriteFault};

// A layer: the bytes of its full blocks, and the open block.
#[derive(Drop)]
struct LayerBuilder {
    buffer: Vec<u8>,
    block: CheckpointBlock,
}

impl Model for LayerBuilder {
    ghost use Rattle.layered_index.specs.Building.{Layer};

    ghost Value = { Layer };

    ghost view = { λ l. record { bytes = l.buffer.items; rest = l.block } };
}

impl LayerBuilder {
    fn new(alloc: Global) -> Result<LayerBuilder, StoreError>
        ensures ok { IfOk result (λ layer. layer ≡ record { bytes = []; rest = [] }) }
        ensures memory { IsOkUnless result StoreError.Memory }
    {
        let block = CheckpointBlock::new(alloc)?;
        Ok(LayerBuilder {
            buffer: Vec::new(alloc),
            block,
        })
    }

    // The bytes of its full blocks.
    fn bytes(&self) -> &[u8]
        ensures { result.now ≡ self.now.bytes }
    {
        &self.buffer
    }

    // How many bytes its full blocks have.
    fn len(&self) -> usize
        ensures { result ≡ length self.now.bytes }
    {
        self.buffer.len()
    }

    // Adds a checkpoint to the open block.
    fn push(&mut self, checkpoint: Checkpoint) -> Result<(), StoreError>
        requires { IsInLine (put self.old checkpoint).rest }
        ensures ok { OnOk result (self.new ≡ put self.old checkpoint) }
        ensures err { OnErr result (self.new ≡ self.old) }
        ensures memory { IsOkUnless result StoreError.Memory }
    {
        self.block.push(checkpoint)
    }

    // Writes the open block, which stays open, and returns the pointer to it. An empty one isn't written.
    fn write_block(&mut self) -> Result<Option<Checkpoint>, StoreError>
        ensures ok { OnOk result
            (self.new ≡ record { bytes = closed_text self.old; rest = self.old.rest }) }
        ensures pointer { IfOk result (λ pointer. pointer ≡ last_pointer self.old) }
        ensures size { OnOk result (length self.new.bytes < 2 ^ 64) }
        ensures err { OnErr result (self.new ≡ self.old) }
        ensures memory { IsOkUnless result StoreError.Memory }
    {
        let Some(doc_range) = self.block.doc_interval() else {
            return Ok(None);
        };
        let start = self.buffer.len();
        self.block.serialize(&mut self.buffer)?;
        let end = self.buffer.len();
        Ok(Some(Checkpoint {
            doc_range,
            byte_range: start..end,
        }))
    }

    // Adds a checkpoint. A block that reaches the period is written, and the pointer to it returned.
    fn insert(
        &mut self,
        period: usize,
        checkpoint: Checkpoint,
    ) -> Result<Option<Checkpoint>, StoreError>
        requires { IsInLine (put self.old checkpoint).rest }
        ensures ok { IfOk result (λ pointer. TookOne period self.old checkpoint self.new pointer) }
        ensures err { OnErr result (self.new ≡ self.old) }
        ensures memory { IsOkUnless result StoreError.Memory }
    {
        self.push(checkpoint)?;
        if self.block.len() < period {
            return Ok(None);
        }
        let written = self.write_block();
        if written.is_err() {
            self.block.pop();
        }
        written
    }

    // Takes the pointer from the layer below, if there is one, and writes the open block. Returns the pointer to it.
    fn close(&mut self, below: Option<Checkpoint>) -> Result<Option<Checkpoint>, StoreError>
        requires { IsInLine (put_some self.old below).rest }
        ensures ok { OnOk result (self.new.bytes ≡ closed_text (put_some self.old below)) }
        ensures pointer { IfOk result
            (λ pointer. pointer ≡ last_pointer (put_some self.old below)) }
        ensures size { OnOk result (length self.new.bytes < 2 ^ 64) }
        ensures memory { IsOkUnless result StoreError.Memory }
    {
        if let Some(pointer) = below {
            self.push(pointer)?;
        }
        self.write_block()
    }

    // Takes back the last checkpoint, and the bytes from this place on.
    fn take_back(&mut self, start: usize)
        ensures { self.new ≡ record {
          bytes = take start self.old.bytes;
          rest = take (length self.old.rest - 1) self.old.rest;
        } }
    {
        self.buffer.truncate(start);
        self.block.pop();
    }

    // Begins a new block.
    fn clear_block(&mut self)
        ensures { self.new ≡ record { bytes = self.old.bytes; rest = [] } }
    {
        self.block.clear();
    }
}

// Adds a layer at the top, with one checkpoint.
fn add_layer(layers: &mut Vec<LayerBuilder>, checkpoint: Checkpoint) -> Result<(), StoreError>
    requires { IsInLine (checkpoint ∷ []) }
    ensures ok { OnOk result (layers.new.items ≡
        layers.old.items ++ record { bytes = []; rest = checkpoint ∷ [] } ∷ []) }
    ensures err { OnErr result (layers.new.items ≡ layers.old.items) }
    ensures memory { IsOkUnless result StoreError.Memory }
{
    let alloc = *layers.allocator();
    let mut layer = LayerBuilder::new(alloc)?;
    layer.push(checkpoint)?;
    layers.push(layer)?;
    Ok(())
}

// Inserts a checkpoint in the layer at this index, and the pointers to full blocks in those
// above. All growths come before what can't be taken back, so to run out of memory leaves the layers.
fn insert_at(
    layers: &mut Vec<LayerBuilder>,
    at: usize,
    period: usize,
    checkpoint: Checkpoint,
) -> Result<(), StoreError>
    requires index { at ≤ length layers.old.items }
    requires takes { AcceptsInsert period (drop at layers.old.items) checkpoint }
    ensures ok { OnOk result (layers.new.items ≡
        take at layers.old.items ++ inserted period (drop at layers.old.items) checkpoint) }
    ensures err { OnErr result (layers.new.items ≡ layers.old.items) }
    ensures memory { IsOkUnless result StoreError.Memory }
{
    if at == layers.len() {
        return add_layer(layers, checkpoint);
    }
    let layer = &mut layers[at];
    let start = layer.len();
    let Some(pointer) = layer.insert(period, checkpoint)? else {
        return Ok(());
    };
    let above = insert_at(layers, at + 1, period, pointer);
    let layer = &mut layers[at];
    match above {
        Ok(()) => layer.clear_block(),
        Err(_) => layer.take_back(start),
    }
    above
}

// Closes the layers from the bottom up: each takes the pointer from below, and then its open
// block is written.
fn close_layers(layers: &mut [LayerBuilder]) -> Result<(), StoreError>
    requires { Closes layers.old None }
    ensures ok { OnOk result (texts_of layers.new ≡ closed layers.old None) }
    ensures memory { IsOkUnless result StoreError.Memory }
{
    let mut last_pointer: Option<Checkpoint> = None;
    for layer in layers.iter_mut() {
        last_pointer = layer.close(last_pointer)?;
    }
    Ok(())
}

// How many layers there are, and where each ends, from the top down.
fn index_head(alloc: Global, layers: &[LayerBuilder]) -> Result<Vec<u8>, StoreError>
    ensures ok { IfOk result (λ head. head.items ≡ number (length layers.now)
        ++ flat_map number (ends_from 0 (reverse (texts_of layers.now)))) }
    ensures memory { IsOkUnless result StoreError.Memory }
{
    let mut head = Vec::new(alloc);
    VInt(layers.len() as u64).serialize_into_vec(&mut head)?;
    let mut end: usize = 0;
    for layer in layers.iter().rev() {
        // No memory holds layers whose bytes don't add up in 64 bits.
        end = end.checked_add(layer.len()).ok_or(StoreError::Memory)?;
        VInt(end as u64).serialize_into_vec(&mut head)?;
    }
    Ok(head)
}

// Writes the bytes of closed layers, from the top down.
fn write_layers<W: TerminatingWrite>(
    layers: &[LayerBuilder],
    output: &mut W,
) -> Result<(), WriteFault>
    ensures ok { OnOk result (W.content output.new ≡
        W.content output.old ++ concat (reverse (texts_of layers.now))) }
    ensures fault { OnErr result (HasRisen (W.failures output.old) (W.failures output.new)) }
    ensures termination { W.termination output.new ≡ W.termination output.old }
    ensures count { W.failures output.old ≤ W.failures output.new }
{
    for closed in layers.iter().rev() {
        output.write_all(closed.bytes())?;
    }
    Ok(())
}

/// An index in the making. Clauses see its period and the checkpoints that were inserted.
#[derive(Drop)]
pub struct SkipIndexBuilder {
    period: u8,
    layers: Vec<LayerBuilder>,
}

impl Model for SkipIndexBuilder {
    ghost use Rattle.layered_index.specs.Layers.{Index};
    ghost use Rattle.layered_index.specs.Building.{list_of, IsBuilder};

    ghost Value = { Index };

    ghost view = { λ b. record { period = b.period; checkpoints = list_of b.layers.items } };

    ghost invariant = { λ b. IsBuilder b.period b.layers.items };
}

impl SkipIndexBuilder {
    /// An index of no checkpoints, of the usual period. It takes no memory.
    pub fn new(alloc: Global) -> SkipIndexBuilder
        ensures { result ≡ record { period = CHECKPOINT_PERIOD; checkpoints = [] } }
    {
        SkipIndexBuilder::with_period(alloc, USUAL_PERIOD)
    }

    /// An index of no checkpoints, whose full blocks have `period` checkpoints. It takes no memory.
    pub fn with_period(alloc: Global, period: u8) -> SkipIndexBuilder
        requires least { 2 ≤ period }
        requires most { period ≤ 64 }
        ensures { result ≡ record { period = period; checkpoints = [] } }
    {
        SkipIndexBuilder {
            period,
            layers: Vec::new(alloc),
        }
    }

    /// How many checkpoints its full blocks have.
    pub fn period(&self) -> u8
        ensures { result ≡ self.now.period }
    {
        self.period
    }

    /// Adds a checkpoint at the end of the list. The layers above get their pointers at once.
    pub fn insert(&mut self, checkpoint: Checkpoint) -> Result<(), StoreError>
        requires { IsInLine (self.old.checkpoints ++ checkpoint ∷ []) }
        ensures ok { OnOk result (self.new ≡
            record self.old { checkpoints = self.old.checkpoints ++ checkpoint ∷ [] }) }
        ensures err { OnErr result (self.new ≡ self.old) }
        ensures memory { IsOkUnless result StoreError.Memory }
    {
        insert_at(&mut self.layers, 0, self.period as usize, checkpoint)
    }

    /// Appends the index part of the inserted checkpoints: how many layers there are, where each
    /// ends, and the layers from the top down. What takes memory comes before the first write.
    ///
    /// The layers are written as they are, without a copy. After `Failed` some of the bytes may be written.
    pub fn serialize_into<W: TerminatingWrite>(self, output: &mut W) -> Result<(), StoreError>
        ensures ok { OnOk result (W.content output.new ≡
            W.content output.old ++ index_part self.period self.checkpoints) }

        ensures errors { IfErr result
            (λ e. (e ≡ StoreError.Memory) ⊎ (e ≡ StoreError.Failed Cause.Write)) }
        ensures memory { result ≡ Err StoreError.Memory → output.new ≡ output.old }
        ensures write { result ≡ Err (StoreError.Failed Cause.Write) →
            HasRisen (W.failures output.old) (W.failures output.new) }

        ensures termination { W.termination output.new ≡ W.termination output.old }
        ensures count { W.failures output.old ≤ W.failures output.new }
    {
        let mut layers = self.layers;
        close_layers(&mut layers)?;
        let closed = layers.as_slice();
        let head = index_head(*layers.allocator(), closed)?;
        output.write_all(&head)?;
        write_layers(closed, output)?;
        Ok(())
    }
}

//! The checkpoints of a layer, one after the other.
ghost use Rattle.std.specs.Prelude.{◌≡◌, MatchOption};
ghost use Rattle.std.specs.Option.{option_map};
ghost use Rattle.std.specs.Iterator.{YieldsFirst, item_count};
ghost use Rattle.store_base.specs.Counts.{raised};
ghost use Rattle.layered_index.specs.LayerReading.{next_in_block, next_at, items};

use crate::checkpoint::Checkpoint;
use crate::looks::Steps;
use crate::run_reading::{heading_front, step_front};
use std::marker::Model;

// The next checkpoint of a block, how many are left in it, and what follows it.
#[inline(always)]
#[tactic(auto, unfolding(crate::specs::LayerReading::next_in_block))]
fn next_in_block(
    left: usize,
    doc: u32,
    byte: usize,
    bytes: &[u8],
) -> Option<(Checkpoint, usize, &[u8])>
    ensures { option_map (λ x. (x.0, x.1, x.2.now)) result ≡ next_in_block left doc byte bytes.now }
{
    if left == 0 {
        return None;
    }
    let (checkpoint, rest) = step_front(false, doc, byte, bytes)?;
    Some((checkpoint, left - 1, rest))
}

// The same, where the next block begins after a block.
#[inline(always)]
#[tactic(auto, unfolding(crate::specs::LayerReading::next_at))]
fn next_front(
    left: usize,
    doc: u32,
    byte: usize,
    bytes: &[u8],
) -> Option<(Checkpoint, usize, &[u8])>
    ensures { option_map (λ x. (x.0, x.1, x.2.now)) result ≡ next_at left doc byte bytes.now }
{
    if left == 0 {
        let (heading, rest) = heading_front(bytes)?;
        return next_in_block(heading.count, heading.doc, heading.byte, rest);
    }
    next_in_block(left, doc, byte, bytes)
}

/// Gives the checkpoints of a layer from its bytes, and takes no memory.
#[derive(Drop)]
pub struct LayerCursor<'a> {
    rest: &'a [u8],
    left: usize,
    doc: u32,
    byte: usize,
}

impl<'a> Model for LayerCursor<'a> {
    ghost use Rattle.std.specs.Prelude.{List};
    ghost use Rattle.layered_index.specs.declared.checkpoint.Checkpoint.{Checkpoint};
    ghost use Rattle.layered_index.specs.LayerReading.{items};

    ghost Value = { List Checkpoint };

    ghost view = { λ a. items a.left a.doc a.byte a.rest.now };
}

impl<'a> LayerCursor<'a> {
    pub(crate) fn new(layer: &'a [u8]) -> LayerCursor<'a>
        ensures { result ≡ items 0 0 0 layer.now }
    {
        LayerCursor {
            rest: layer,
            left: 0,
            doc: 0,
            byte: 0,
        }
    }

    /// The next checkpoint, which is counted.
    pub fn next_counted(&mut self, steps: &mut Steps) -> Option<Checkpoint>
        ensures given { YieldsFirst (λ s. s) self.old result self.new }
        ensures counted { MatchOption result (steps.new ≡ steps.old) (λ _. steps.new ≡ raised steps.old 1) }
    {
        let checkpoint = self.next()?;
        steps.add(1);
        Some(checkpoint)
    }
}

impl<'a> Iterator for LayerCursor<'a> {
    type Item = Checkpoint;

    ghost next_gives = { YieldsFirst (λ s. s) };

    ghost remaining = { item_count (λ s. s) };

    #[inline(always)]
    fn next(&mut self) -> Option<Checkpoint> {
        let (checkpoint, left, rest) = next_front(self.left, self.doc, self.byte, self.rest)?;
        self.left = left;
        self.doc = checkpoint.doc_range.end;
        self.byte = checkpoint.byte_range.end;
        self.rest = rest;
        Some(checkpoint)
    }
}

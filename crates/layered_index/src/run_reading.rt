//! Reading checkpoints from the front of bytes.
ghost use Rattle.std.specs.Prelude.{◌≡◌, IfOk, IfErr, OnErr, MatchResult, ◌++◌};
ghost use Rattle.std.specs.Option.{option_map};
ghost use Rattle.layered_index.specs.Checkpoint.{IsInLine, checkpoint_block};
ghost use Rattle.layered_index.specs.BlockReading.{step_at, steps_at, heading_at, checkpoint_block_at, HasBlock};
ghost use Rattle.layered_index.specs.BlockReading.{BeginsWithBlock};
ghost use Rattle.layered_index.specs.Refusal.{AnswersAs, RefusesOnlyUnless, FailsOnlyUnless};

use crate::checkpoint::Checkpoint;
use crate::checkpoint_block::CheckpointBlock;
use crate::fault::ReadFault;
use crate::short_number::{first_count, first_length};
use std::alloc::Global;
use store_base::{StoreError, first_number};

/// How many checkpoints a block has, and where the first begins.
#[derive(Clone, Copy)]
pub(crate) struct Heading {
    pub count: usize,
    pub doc: u32,
    pub byte: usize,
}

/// The checkpoint that begins at this document and this byte, and what follows it. Whether numbers are uneven matters
/// to the speed alone.
#[inline(always)]
#[tactic(auto, unfolding(crate::specs::BlockReading::step_at))]
pub(crate) fn step_front(
    uneven: bool,
    doc: u32,
    byte: usize,
    bytes: &[u8],
) -> Option<(Checkpoint, &[u8])>
    ensures { option_map (λ x. (x.0, x.1.now)) result ≡ step_at doc byte bytes.now }
{
    let (docs, rest) = first_count(uneven, bytes)?;
    let (len, rest) = first_length(uneven, rest)?;
    let doc_end = doc.checked_add(docs as u32)?;
    let byte_end = byte.checked_add(len as usize)?;
    Some((
        Checkpoint {
            doc_range: doc..doc_end,
            byte_range: byte..byte_end,
        },
        rest,
    ))
}

/// The heading of a checkpoint block, and what follows it. It claims no more checkpoints than could follow.
#[inline(always)]
#[tactic(auto, unfolding(crate::specs::BlockReading::heading_at))]
pub(crate) fn heading_front(bytes: &[u8]) -> Option<(Heading, &[u8])>
    ensures { option_map (λ x. (x.0, x.1.now)) result ≡ heading_at bytes.now }
{
    let (count, rest) = first_number(bytes, u64::MAX)?;
    let count = count as usize;
    if count == 0 {
        let none = Heading {
            count: 0,
            doc: 0,
            byte: 0,
        };
        return Some((none, rest));
    }
    if rest.len() / 2 < count {
        return None;
    }
    let (doc, rest) = first_number(rest, u64::from(u32::MAX))?;
    let (byte, rest) = first_number(rest, u64::MAX)?;
    let heading = Heading {
        count,
        doc: doc as u32,
        byte: byte as usize,
    };
    Some((heading, rest))
}

// As many checkpoints as the heading says, and what follows them. There are bytes enough for that many.
fn steps_front(
    alloc: Global,
    heading: Heading,
    bytes: &[u8],
) -> Result<(Vec<Checkpoint>, &[u8]), ReadFault>
    ensures { AnswersAs (λ x. (x.0.items, x.1.now)) result
        (steps_at heading.count heading.doc heading.byte bytes.now) }
{
    let mut checkpoints = Vec::with_capacity(alloc, heading.count)?;
    let mut rest = bytes;
    let mut doc_end = heading.doc;
    let mut byte_end = heading.byte;
    for _ in 0..heading.count {
        let Some((checkpoint, after)) = step_front(false, doc_end, byte_end, rest) else {
            return Err(ReadFault::Malformed);
        };
        doc_end = checkpoint.doc_range.end;
        byte_end = checkpoint.byte_range.end;
        rest = after;
        checkpoints.push(checkpoint)?;
    }
    Ok((checkpoints, rest))
}

#[tactic(auto, unfolding(crate::specs::BlockReading::checkpoint_block_at))]
fn block_front(alloc: Global, bytes: &[u8]) -> Result<(Vec<Checkpoint>, &[u8]), ReadFault>
    ensures { AnswersAs (λ x. (x.0.items, x.1.now)) result (checkpoint_block_at bytes.now) }
{
    let Some((heading, rest)) = heading_front(bytes) else {
        return Err(ReadFault::Malformed);
    };
    steps_front(alloc, heading, rest)
}

// The block at the front, and what follows it.
pub(crate) fn first_block(
    alloc: Global,
    bytes: &[u8],
) -> Result<(Vec<Checkpoint>, &[u8]), ReadFault>
    ensures { MatchResult result
        (λ x. BeginsWithBlock bytes.now (x.0.items, x.1.now))
        (FailsOnlyUnless (HasBlock bytes.now)) }
{
    block_front(alloc, bytes)
}

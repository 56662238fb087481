//! Seeks in one checkpoint block of a layer, in the bytes of the layer.
ghost use Rattle.std.specs.Prelude.{◌≡◌, ◌≤◌, ◌+◌, List, Some, None, IfSome};
ghost use Rattle.store_base.specs.Counts.{raised};
ghost use Rattle.layered_index.specs.declared.checkpoint.Checkpoint.{Checkpoint};
ghost use Rattle.layered_index.specs.Checkpoint.{IsInLine, first_past};
ghost use Rattle.layered_index.specs.Layers.{layer_text};
ghost use Rattle.layered_index.specs.Sought.{scanned, scanned_at, IsPast, IsRunAt, IsFoundAbove};

use crate::checkpoint::Checkpoint;
use crate::looks::Steps;
use crate::run_reading::{Heading, heading_front, step_front};
use store_base::DocId;

// Decodes `heading.count` checkpoints up to the first past the target, and counts each: that one, or none.
#[inline(always)]
fn scan_steps(
    heading: Heading,
    target: DocId,
    bytes: &[u8],
    steps: &mut Steps,
) -> Option<Option<Checkpoint>>
    ensures read { result ≡ scanned target heading.count heading.doc heading.byte bytes.now }
    ensures counted { steps.new ≤ steps.old + heading.count }
    ensures more { steps.old ≤ steps.new }
    ensures least { IfSome result (λ found. IfSome found (λ _. raised steps.old 1 ≤ steps.new)) }
{
    let mut rest = bytes;
    let mut doc_end = heading.doc;
    let mut byte_end = heading.byte;
    for _ in 0..heading.count {
        let (checkpoint, after) = step_front(false, doc_end, byte_end, rest)?;
        steps.add(1);
        if target < checkpoint.doc_range.end {
            return Some(Some(checkpoint));
        }
        doc_end = checkpoint.doc_range.end;
        byte_end = checkpoint.byte_range.end;
        rest = after;
    }
    Some(None)
}

// The first checkpoint past the target in a block of at most `most` checkpoints, and where the block's documents begin.
#[inline(always)]
#[tactic(auto, unfolding(crate::specs::Sought::scanned_at))]
fn scan_block(
    most: usize,
    target: DocId,
    bytes: &[u8],
    steps: &mut Steps,
) -> Option<(Option<Checkpoint>, DocId)>
    ensures read { result ≡ scanned_at most target bytes.now }
    ensures counted { steps.new ≤ steps.old + most }
    ensures more { steps.old ≤ steps.new }
    ensures least { IfSome result (λ x. IfSome x.0 (λ _. raised steps.old 1 ≤ steps.new)) }
{
    let (heading, rest) = heading_front(bytes)?;
    if most < heading.count {
        return None;
    }
    let found = scan_steps(heading, target, rest, steps)?;
    Some((found, heading.doc))
}

// The first checkpoint past the target of a layer that has one block.
pub(crate) fn seek_top(
    period: usize,
    target: DocId,
    layer: &[u8],
    steps: &mut Steps,
) -> Option<Option<Checkpoint>>
    requires least { 1 ≤ period }
    requires most { period ≤ 64 }
    ensures answer { (cs : List Checkpoint) → IsInLine cs → layer.now ≡ layer_text period cs
        → IsFoundAbove period target None cs → result ≡ Some (first_past cs target) }
    ensures past { IfSome result (λ found. IfSome found (IsPast target)) }
    ensures counted { steps.new ≤ steps.old + period }
    ensures more { steps.old ≤ steps.new }
    ensures least { IfSome result (λ found. IfSome found (λ _. raised steps.old 1 ≤ steps.new)) }
{
    let (found, _) = scan_block(period, target, layer, steps)?;
    Some(found)
}

// The first checkpoint past the target of the run that a pointer points to. The run has the pointer's documents.
pub(crate) fn seek_pointed(
    period: usize,
    target: DocId,
    block: &[u8],
    pointer: &Checkpoint,
    steps: &mut Steps,
) -> Option<Option<Checkpoint>>
    ensures answer { (run : List Checkpoint) → IsRunAt period run pointer.now block.now
        → result ≡ Some (first_past run target) }
    ensures past { IfSome result (λ found. IfSome found (IsPast target)) }
    ensures counted { steps.new ≤ steps.old + period }
    ensures more { steps.old ≤ steps.new }
    ensures least { IfSome result (λ found. IfSome found (λ _. raised steps.old 1 ≤ steps.new)) }
{
    let (found, doc) = scan_block(period, target, block, steps)?;
    if doc != pointer.doc_range.start {
        return None;
    }
    Some(found)
}

// The first checkpoint past the target of a layer, by the pointer that was found in the layer above.
fn seek_below(
    period: usize,
    target: DocId,
    layer: &[u8],
    pointer: &Checkpoint,
    steps: &mut Steps,
) -> Option<Option<Checkpoint>>
    requires least { 1 ≤ period }
    requires most { period ≤ 64 }
    ensures answer { (cs : List Checkpoint) → IsInLine cs → layer.now ≡ layer_text period cs
        → IsFoundAbove period target (Some pointer.now) cs → result ≡ Some (first_past cs target) }
    ensures past { IfSome result (λ found. IfSome found (IsPast target)) }
    ensures counted { steps.new ≤ steps.old + period }
    ensures more { steps.old ≤ steps.new }
    ensures least { IfSome result (λ found. IfSome found (λ _. raised steps.old 1 ≤ steps.new)) }
{
    let start = pointer.byte_range.start;
    let end = pointer.byte_range.end;
    if end < start || layer.len() < end {
        return None;
    }
    seek_pointed(period, target, &layer[start..end], pointer, steps)
}

/// The first checkpoint of a layer past the target, or none, by the pointer that was found in the layer above. The top
/// layer has no pointer, and is one run. It returns `None` where the run isn't the one that the pointer points to. It
/// is decoded up to what is sought.
pub(crate) fn seek_layer(
    period: usize,
    target: DocId,
    layer: &[u8],
    above: &Option<Checkpoint>,
    steps: &mut Steps,
) -> Option<Option<Checkpoint>>
    requires least { 1 ≤ period }
    requires most { period ≤ 64 }
    ensures answer { (cs : List Checkpoint) → IsInLine cs → layer.now ≡ layer_text period cs
        → IsFoundAbove period target above.now cs → result ≡ Some (first_past cs target) }
    ensures past { IfSome result (λ found. IfSome found (IsPast target)) }
    ensures counted { steps.new ≤ steps.old + period }
    ensures more { steps.old ≤ steps.new }
    ensures least { IfSome result (λ found. IfSome found (λ _. raised steps.old 1 ≤ steps.new)) }
{
    match above {
        None => seek_top(period, target, layer, steps),
        Some(pointer) => seek_below(period, target, layer, pointer, steps),
    }
}

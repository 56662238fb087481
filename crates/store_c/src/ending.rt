//! The end of a file: the index of its blocks, and its footer.
ghost use Rattle.std.specs.Prelude.{◌≡◌, ◌≤◌, IfOk, IfErr, MatchOption};
ghost use Rattle.layered_index.specs.Checkpoint.{IsWithinLimits};
ghost use Rattle.layered_index.specs.Rows.{ends_in};
ghost use Rattle.store_c.specs.Writing.{between, IndexesEnds, IsEndOf, RefusesIndex};

use crate::writer_refusal::WriterRefusal;
use docstore::{
    BLOCK_LIMIT, BinarySerializable, Checkpoint, DOC_STORE_VERSION, Decompressor, DocStoreFooter,
    MemSink, Row, SkipIndexBuilder,
};
use layered_index::{RowEnd, start_of};
use std::alloc::Global;

// The checkpoint of a block from the one end to the other, if a block can be so.
fn checkpoint_between(start: RowEnd, end: RowEnd) -> Option<Checkpoint>
    ensures { MatchOption result (IsWithinLimits (between start end) → ⊥)
        (λ c. (c ≡ between start end) × IsWithinLimits c) }
{
    if end.end_doc < start.end_doc || end.end_byte < start.end_byte {
        return None;
    }
    if end.end_byte - start.end_byte >= BLOCK_LIMIT {
        return None;
    }
    Some(Checkpoint {
        doc_range: start.end_doc..end.end_doc,
        byte_range: start.end_byte..end.end_byte,
    })
}

// The index of the blocks that end so.
fn index_of(alloc: Global, ends: &[Row], period: u8) -> Result<SkipIndexBuilder, WriterRefusal>
    requires least { 2 ≤ period }
    requires most { period ≤ 64 }
    ensures index { IfOk result (IndexesEnds period (ends_in ends.now)) }
    ensures refused { IfErr result (RefusesIndex (ends_in ends.now)) }
{
    let mut index = SkipIndexBuilder::with_period(alloc, period);
    let mut start = RowEnd::ZERO;
    for row in ends {
        let end = row.end();
        let Some(checkpoint) = checkpoint_between(start, end) else {
            return Err(WriterRefusal::OtherWriter);
        };
        if index.insert(checkpoint).is_err() {
            return Err(WriterRefusal::NoMemory);
        }
        start = end;
    }
    Ok(index)
}

/// What follows blocks that end so: their index and the footer.
pub(crate) fn end_of_file(alloc: Global, ends: &[Row], period: u8) -> Result<Vec<u8>, WriterRefusal>
    requires least { 2 ≤ period }
    requires most { period ≤ 64 }
    ensures end { IfOk result (λ end. IsEndOf period (ends_in ends.now) end.items) }
    ensures refused { IfErr result (RefusesIndex (ends_in ends.now)) }
{
    let index = index_of(alloc, ends, period)?;
    let last = start_of(ends, ends.len());
    let footer = DocStoreFooter::with_period(
        last.end_byte as u64,
        Decompressor::None,
        DOC_STORE_VERSION,
        period,
    );
    let mut end = MemSink::new(alloc);
    if index.serialize_into(&mut end).is_err() {
        return Err(WriterRefusal::NoMemory);
    }
    if footer.serialize(&mut end).is_err() {
        return Err(WriterRefusal::NoMemory);
    }
    Ok(end.into_bytes())
}

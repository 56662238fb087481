//! The open block of a store that is written.
ghost use Rattle.std.specs.Prelude.{◌≡◌, ◌+◌, ◌*◌, ◌<◌, ◌≤◌, ◌^◌, ◌⊎◌, length, set, IfOk, IfErr, OnOk, OnErr};
ghost use Rattle.layered_index.specs.Rows.{row_of};
ghost use Rattle.store_c.specs.Writing.{memory, EndsBlockAt, RefusesEnd, PutsDocument, EndsBlock};
ghost use Rattle.store_c.specs.Writing.{RefusesLength, TakesLength, RefusesBlock, TakesBlock};

use crate::writer::Writer;
use crate::writer_refusal::WriterRefusal;
use docstore::{Row, block_len, table_len, weight_of};
use layered_index::{RowEnd, start_of};

/// Where a block ends that begins here and has this many documents and bytes.
pub(crate) fn end_of(start: RowEnd, docs: usize, bytes: usize) -> Result<RowEnd, WriterRefusal>
    requires few { docs < 2 ^ 61 }
    ensures end { IfOk result (EndsBlockAt start docs bytes) }
    ensures refused { IfErr result (RefusesEnd start docs bytes) }
{
    let end_doc = start.end_doc as usize + docs;
    if end_doc > u32::MAX as usize {
        return Err(WriterRefusal::TooManyDocs);
    }
    let Some(len) = block_len(bytes, table_len(docs)) else {
        return Err(WriterRefusal::BlockTooLarge);
    };
    match start.end_byte.checked_add(len) {
        Some(end_byte) => Ok(RowEnd {
            end_doc: end_doc as u32,
            end_byte,
        }),
        None => Err(WriterRefusal::BlockTooLarge),
    }
}

/// Ends the open block here. It returns how many starts the block's table has: the last of them is the count of its
/// documents.
pub(crate) fn finish(
    writer: &mut Writer,
    starts: &mut [u32],
    table: &mut [Row],
    end: RowEnd,
) -> usize
    requires docs { writer.old.docs < length starts.old }
    requires few { writer.old.docs < 2 ^ 32 }
    requires blocks { writer.old.blocks < length table.old }
    ensures count { result ≡ writer.old.docs + 1 }
    ensures starts { starts.new ≡ set starts.old writer.old.docs writer.old.docs }
    ensures table { table.new ≡ set table.old writer.old.blocks (row_of end) }
    ensures writer { writer.new ≡ record {
      block_size = writer.old.block_size;
      blocks = writer.old.blocks + 1;
      docs = 0;
      bytes = 0;
    } }
{
    let docs = writer.docs;
    starts[docs] = docs as u32;
    table[writer.blocks] = Row::new(end);
    writer.blocks += 1;
    writer.docs = 0;
    writer.bytes = 0;
    docs + 1
}

/// Puts a document of this many bytes. It returns how many starts are to be written after it.
pub(crate) fn put(
    writer: &mut Writer,
    starts: &mut [u32],
    table: &mut [Row],
    len: usize,
) -> Result<usize, WriterRefusal>
    ensures put { IfOk result (λ count. PutsDocument len count (memory writer.old starts.old table.old)
        (memory writer.new starts.new table.new)) }
    ensures count { IfOk result (λ count. count ≤ length starts.old) }
    ensures takes { OnOk result (TakesLength len (memory writer.old starts.old table.old)) }
    ensures refused { IfErr result (RefusesLength len (memory writer.old starts.old table.old)) }
    ensures kept { OnErr result (memory writer.new starts.new table.new ≡ memory writer.old starts.old table.old) }
{
    if writer.docs.saturating_add(2) > starts.len() || writer.blocks >= table.len() {
        return Err(WriterRefusal::NoRoom);
    }
    let start = start_of(table, writer.blocks);
    let bytes = writer.bytes.saturating_add(len);
    let end = end_of(start, writer.docs + 1, bytes)?;
    starts[writer.docs] = writer.bytes as u32;
    writer.docs += 1;
    writer.bytes = bytes;
    if weight_of(bytes, writer.docs) > writer.block_size {
        Ok(finish(writer, starts, table, end))
    } else {
        Ok(0)
    }
}

/// Ends the open block, if it has documents. It returns how many starts are to be written.
pub(crate) fn end_block(
    writer: &mut Writer,
    starts: &mut [u32],
    table: &mut [Row],
) -> Result<usize, WriterRefusal>
    ensures ended { IfOk result (λ count. EndsBlock count (memory writer.old starts.old table.old)
        (memory writer.new starts.new table.new)) }
    ensures count { IfOk result (λ count. count ≤ length starts.old) }
    ensures takes { OnOk result (TakesBlock (memory writer.old starts.old table.old)) }
    ensures refused { IfErr result (RefusesBlock (memory writer.old starts.old table.old)) }
    ensures kept { OnErr result (memory writer.new starts.new table.new ≡ memory writer.old starts.old table.old) }
{
    if writer.docs == 0 {
        return Ok(0);
    }
    if writer.docs >= starts.len() || writer.blocks >= table.len() {
        return Err(WriterRefusal::NoRoom);
    }
    let start = start_of(table, writer.blocks);
    match end_of(start, writer.docs, writer.bytes) {
        Ok(end) => Ok(finish(writer, starts, table, end)),
        Err(_) => Err(WriterRefusal::OtherWriter),
    }
}

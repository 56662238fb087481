//! A store that is appended to one that is written.
ghost use Rattle.std.specs.Prelude.{◌≡◌, ◌≢◌, ◌≤◌, length, take, map, OnOk, IfErr, OnErr};
ghost use Rattle.docstore.specs.Stacking.{shifted};
ghost use Rattle.layered_index.specs.Checkpoint.{IsInLineFrom};
ghost use Rattle.layered_index.specs.Rows.{ends_in};
ghost use Rattle.store_reader.specs.Opening.{IsSomeStore};
ghost use Rattle.store_c.specs.Calls.{HasCounts};
ghost use Rattle.store_c.specs.Writing.{ends_after, PutsBlocks, RefusesBlocks, TakesBlocks};

use crate::writer::Writer;
use crate::writer_refusal::WriterRefusal;
use docstore::{CheckedStore, DocStoreVersion, LayerCursor, Row, StoreSlice};
use layered_index::{RowEnd, start_of};

// Writes where blocks after this place end over the front of a table.
fn fill(checkpoints: LayerCursor<'_>, start: RowEnd, table: &mut [Row])
    requires room { length checkpoints ≤ length table.old }
    requires in_line { IsInLineFrom start.end_doc start.end_byte
        (map (shifted start.end_doc start.end_byte) checkpoints) }
    ensures filled { take (length checkpoints.entry) (ends_in table.new) ≡ map (ends_after start) checkpoints.entry }
    ensures len { length table.new ≡ length table.old }
{
    let mut count = 0;
    for checkpoint in checkpoints {
        table[count] = Row::new(RowEnd {
            end_doc: checkpoint.doc_range.end + start.end_doc,
            end_byte: checkpoint.byte_range.end + start.end_byte,
        });
        count += 1;
    }
}

/// Appends a store's blocks to those that were ended, and returns how many they are. A refusal for lack of room says so
/// too.
pub(crate) fn stack(
    writer: &mut Writer,
    table: &mut [Row],
    store: &StoreSlice<'_>,
    checked: &CheckedStore,
    count: &mut usize,
) -> Result<(), WriterRefusal>
    requires known { HasCounts store.now checked.now.blocks checked.now.docs }
    ensures stacked { (s : IsSomeStore store.now)
        → OnOk result (PutsBlocks s.blocks writer.old table.old writer.new table.new) }
    ensures count { OnOk result (count.new ≡ checked.now.blocks) }
    ensures takes { (s : IsSomeStore store.now)
        → OnOk result (TakesBlocks s.version s.blocks writer.old table.old) }
    ensures refused { (s : IsSomeStore store.now)
        → IfErr result (RefusesBlocks s.version s.blocks writer.old table.old) }
    ensures room { IfErr result (λ refusal. (refusal ≡ WriterRefusal.NoRoom → count.new ≡ checked.now.blocks)
        × (refusal ≢ WriterRefusal.NoRoom → count.new ≡ count.old)) }
    ensures kept { OnErr result (writer.new ≡ writer.old) }
    ensures stays { OnErr result (table.new ≡ table.old) }
    ensures rows { take writer.old.blocks table.new ≡ take writer.old.blocks table.old }
{
    if store.version() == DocStoreVersion::V1 {
        return Err(WriterRefusal::OldVersion);
    }
    if writer.docs > 0 {
        return Err(WriterRefusal::OpenBlock);
    }
    if writer.blocks > table.len() {
        return Err(WriterRefusal::OtherWriter);
    }
    let start = start_of(table, writer.blocks);
    if checked.docs > u32::MAX - start.end_doc {
        return Err(WriterRefusal::TooManyDocs);
    }
    if store.block_data().len() > usize::MAX - start.end_byte {
        return Err(WriterRefusal::OtherWriter);
    }
    *count = checked.blocks;
    if checked.blocks > table.len() - writer.blocks {
        return Err(WriterRefusal::NoRoom);
    }
    let Ok(checkpoints) = store.block_checkpoints() else {
        unreachable!()
    };
    fill(checkpoints, start, &mut table[writer.blocks..]);
    writer.blocks += checked.blocks;
    Ok(())
}

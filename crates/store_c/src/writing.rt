//! Writing, as C calls it. A writer's numbers, the starts of the documents of its open block and the table of its
//! blocks are the caller's memory, and so are the documents: the caller writes them, and after them what
//! these calls return.
ghost use Rattle.std.specs.Prelude.{◌≡◌, ◌≢◌, ◌⊎◌, ◌↔◌, ◌+◌, ◌-◌, ◌^◌, ◌<◌, ◌≤◌, ℕ, List, length, take, drop};
ghost use Rattle.store_format.specs.Slots.{slots};
ghost use Rattle.store_format.specs.StoreFile.{checkpoints_of};
ghost use Rattle.docstore.specs.Writer.{Writing, IsTooLarge, num_docs};
ghost use Rattle.store_c.specs.Calls.{RefusesFile, IsByRoom};
ghost use Rattle.store_c.specs.Writing.{memory, Holds, Begins, PutsDocument, EndsBlock, PutsStore, EndsFile, HasEnd};
ghost use Rattle.store_c.specs.Writing.{LacksRoom, HasRoom, HasNoEnd, IsOther, MayFollow, RefusesStore, ComesFor};

use crate::ending::end_of_file;
use crate::opening::open;
use crate::writer::Writer;
use crate::writer_refusal::WriterRefusal;
use crate::{DONE, open_block, stacking};
use docstore::Row;
use std::alloc::Global;

/// Begins a store that has nothing yet. A block of documents is ended once they exceed the block size: their
/// bytes and eight for each.
#[unsafe(no_mangle)]
pub extern "C" fn zevk_writer_begin(writer: &mut Writer, block_size: usize)
    ensures { Begins block_size writer.new }
{
    *writer = Writer {
        block_size,
        blocks: 0,
        docs: 0,
        bytes: 0,
    };
}

/// Puts a document of `len` bytes, which the caller writes after what was written, and after it the first `count`
/// of the starts, four bytes each from the lowest on: none, or the table of the block that this document ends.
///
/// It is refused by 32 where there is no room for two more starts or for one more block; then by 14 where there is no
/// number left for a document; and then by 13 where its block has no place in 32 bits.
#[unsafe(no_mangle)]
pub extern "C" fn zevk_writer_put(
    writer: &mut Writer,
    starts: &mut [u32],
    table: &mut [Row],
    len: usize,
    count: &mut usize,
) -> u32
    ensures put { result ≡ 0 → PutsDocument len count.new (memory writer.old starts.old table.old)
        (memory writer.new starts.new table.new) }
    ensures count { result ≡ 0 → count.new ≤ length starts.old }

    // Each refusal, in the order in which they win.
    ensures no_room { result ≡ 32 ↔ LacksRoom 2 (memory writer.old starts.old table.old) }
    ensures too_many { (written : List ℕ) (w : Writing) → Holds (memory writer.old starts.old table.old) written w
        → result ≡ 14 ↔ HasRoom 2 (memory writer.old starts.old table.old) × (num_docs w ≡ 2 ^ 32 - 1) }
    ensures too_large { (written document : List ℕ) (w : Writing) → length document ≡ len
        → Holds (memory writer.old starts.old table.old) written w
        → result ≡ 13 ↔ HasRoom 2 (memory writer.old starts.old table.old) × IsTooLarge w document }
    ensures no_other { result ≢ 0 → result ≢ 13 → result ≢ 14 → result ≡ 32 }

    ensures stays { result ≢ 0 → (memory writer.new starts.new table.new ≡ memory writer.old starts.old table.old)
        × (count.new ≡ count.old) }
{
    match open_block::put(writer, starts, table, len) {
        Ok(starts) => {
            *count = starts;
            DONE
        }
        Err(refusal) => refusal.number(),
    }
}

/// Ends the open block, if it has documents. The caller writes the first `count` of the starts after what was written,
/// four bytes each from the lowest on: none, or the block's table.
///
/// It is refused by 32 where there is no room for one more start or for one more block, and by 35 where the numbers are
/// not as these calls left them.
#[unsafe(no_mangle)]
pub extern "C" fn zevk_writer_end_block(
    writer: &mut Writer,
    starts: &mut [u32],
    table: &mut [Row],
    count: &mut usize,
) -> u32
    ensures ended { result ≡ 0 → EndsBlock count.new (memory writer.old starts.old table.old)
        (memory writer.new starts.new table.new) }
    ensures count { result ≡ 0 → count.new ≤ length starts.old }

    // Each refusal, in the order in which they win.
    ensures no_room { result ≡ 32
        ↔ (0 < writer.old.docs) × LacksRoom 1 (memory writer.old starts.old table.old) }
    ensures no_end { result ≡ 35 ↔ (0 < writer.old.docs) × HasRoom 1 (memory writer.old starts.old table.old)
        × HasNoEnd (memory writer.old starts.old table.old) }
    ensures other { result ≡ 35 → IsOther writer.old table.old }
    ensures no_other { result ≢ 0 → result ≢ 32 → result ≡ 35 }

    ensures stays { result ≢ 0 → (memory writer.new starts.new table.new ≡ memory writer.old starts.old table.old)
        × (count.new ≡ count.old) }
{
    match open_block::end_block(writer, starts, table) {
        Ok(starts) => {
            *count = starts;
            DONE
        }
        Err(refusal) => refusal.number(),
    }
}

/// Appends the blocks of the store whose file these bytes are to those that were ended. The caller writes its data
/// after what was written: the first `len` bytes of the file. It has `count` blocks. It takes no memory.
///
/// It is refused, in this order: by the number of the first refusal of the footer or the index, by 11 where its
/// documents may be in an older form, by 34 where the open block has documents, by 14 where the documents of both can't
/// be numbered, and by 32 where there is no room for the rows of its blocks; then `count` is set. It is refused by 35
/// only where the numbers are not as these calls left them. A refusal keeps the table.
#[unsafe(no_mangle)]
pub extern "C" fn zevk_writer_stack(
    alloc: Global,
    writer: &mut Writer,
    table: &mut [Row],
    file: &[u8],
    count: &mut usize,
    len: &mut usize,
) -> u32
    ensures stacked { result ≡ 0
        → PutsStore file.now len.new count.new writer.old table.old writer.new table.new }

    // Each refusal, in the order in which they win.
    ensures refused { result ≢ 0 → result ≢ 11 → result ≢ 14 → result ≢ 32 → result ≢ 34 → result ≢ 35
        → RefusesFile file.now result }
    ensures first { (number : ℕ) → RefusesFile file.now number → result ≡ number }
    ensures old_version { ComesFor 11 result file.now (λ version bs. version ≡ 1) }
    ensures open_block { ComesFor 34 result file.now (λ version bs. (version ≢ 1) × (0 < writer.old.docs)) }
    ensures too_many { (starts written : List ℕ) (w : Writing) → Holds (memory writer.old starts table.old) written w
        → ComesFor 14 result file.now (λ version bs. MayFollow version writer.old
        × (2 ^ 32 ≤ num_docs w + length (slots bs))) }
    ensures room { (starts written : List ℕ) (w : Writing) → Holds (memory writer.old starts table.old) written w
        → ComesFor 32 result file.now (λ version bs. MayFollow version writer.old
        × (num_docs w + length (slots bs) < 2 ^ 32)
        × (length table.old < writer.old.blocks + length (checkpoints_of bs))) }
    ensures no_room { result ≡ 32 → RefusesStore file.now (λ version bs. (count.new ≡ length (checkpoints_of bs))
        × (length table.old < writer.old.blocks + count.new)) }
    ensures other { result ≡ 35 → IsOther writer.old table.old }

    ensures no_memory { result ≢ 10 }
    ensures kept { result ≢ 0 → (writer.new ≡ writer.old) × (table.new ≡ table.old) × (len.new ≡ len.old) }
    ensures stays { result ≢ 0 → result ≢ 32 → count.new ≡ count.old }
    ensures rows { take writer.old.blocks table.new ≡ take writer.old.blocks table.old }
{
    let (store, checked) = match open(alloc, file, &mut []) {
        Ok(opened) => opened,
        Err(error) => return error.number(),
    };
    match stacking::stack(writer, table, &store, &checked, count) {
        Ok(()) => {
            *len = store.block_data().len();
            DONE
        }
        Err(refusal) => refusal.number(),
    }
}

/// Gives what the caller writes after what was written, and the file is whole: its index, with `period` entries in a
/// run of it, and its footer. It sets how many bytes they have.
///
/// It is refused, in this order: by 16 where the period is below 2 or above 64, by 34 where the open block has
/// documents, by 35 where the numbers or the table are not as these calls left them, and by 32 where they have no room.
/// Then exactly their length is set, so a second call with so much room is done. It is refused by 10 where memory runs
/// out, before or in place of 35.
#[unsafe(no_mangle)]
pub extern "C" fn zevk_writer_close(
    alloc: Global,
    writer: &Writer,
    table: &[Row],
    period: u8,
    end: &mut [u8],
    len: &mut usize,
) -> u32
    ensures closed { result ≡ 0 → EndsFile period (take len.new end.new) writer.now table.now }
    ensures within { result ≡ 0 → len.new ≤ length end.old }

    // Each refusal, in the order in which they win.
    ensures bad_period { result ≡ 16 ↔ (period < 2) ⊎ (64 < period) }
    ensures open_block { result ≡ 34 ↔ (2 ≤ period) × (period ≤ 64) × (0 < writer.now.docs) }
    ensures other { result ≡ 35 → IsOther writer.now table.now }
    ensures few_rows { 2 ≤ period → period ≤ 64 → writer.now.docs ≡ 0 → length table.now < writer.now.blocks
        → result ≡ 35 }
    ensures no_room { result ≡ 32 → length end.old < len.new }
    ensures exact { (result ≡ 0) ⊎ (result ≡ 32) → HasEnd period len.new writer.now table.now }
    ensures room { (n : ℕ) → HasEnd period n writer.now table.now → result ≢ 10
        → (len.new ≡ n) × IsByRoom result n (length end.old) }
    ensures no_other { result ≢ 0 → result ≢ 10 → result ≢ 16 → result ≢ 32 → result ≢ 34 → result ≡ 35 }

    ensures stays { result ≢ 0 → end.new ≡ end.old }
    ensures rest { result ≡ 0 → drop len.new end.new ≡ drop len.new end.old }
    ensures kept { result ≢ 0 → result ≢ 32 → len.new ≡ len.old }
{
    if period < 2 || period > 64 {
        return WriterRefusal::BadPeriod.number();
    }
    if writer.docs > 0 {
        return WriterRefusal::OpenBlock.number();
    }
    let Some(ends) = table.get(..writer.blocks) else {
        return WriterRefusal::OtherWriter.number();
    };
    let bytes = match end_of_file(alloc, ends, period) {
        Ok(bytes) => bytes,
        Err(refusal) => return refusal.number(),
    };
    *len = bytes.len();
    if bytes.len() <= end.len() {
        end[..bytes.len()].copy_from_slice(&bytes);
        DONE
    } else {
        WriterRefusal::NoRoom.number()
    }
}

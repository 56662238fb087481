//! A document that is read without its block.
ghost use Rattle.std.specs.Prelude.{◌≡◌, ◌+◌, ◌-◌, ◌*◌, ◌<◌, ◌≤◌, ◌⊎◌, ℕ, List, IfSome, MatchOption, Result};
ghost use Rattle.std.specs.Prelude.{length, slice_range};
ghost use Rattle.store_base.specs.declared.error.StoreError.{StoreError as StoreErrorOf};
ghost use Rattle.store_format.specs.Block.{doc, damaged, slot};
ghost use Rattle.store_format.specs.FileReading.{Comes};
ghost use Rattle.store_reader.specs.GetAnswer.{AnswersFrom};
ghost use Rattle.store_reader.specs.TwoReads.{DocumentComes, DocumentIsLookedUp, IsEndFrom, after_asked, entries_len};

use crate::block_request::BlockRequest;
use crate::cache::BlockCache;
use crate::look_up::read_block;
use crate::slot::document_in;
use layered_index::Checkpoint;
use std::alloc::Global;
use std::ops::Range;
use store_base::{DocId, FileHandle, FileSlice, OwnedBytes, StoreError};
use store_format::{read_part, table_len, u32_at};

// Where a document lies in its block, by the end of the block from the document's entry in the table on; `None` where
// it is damaged. The table begins at this place.
fn place_by_entry(entries: &[u8], table: usize) -> Option<Range<usize>>
    requires { 8 ≤ length entries.now }
    ensures slot { (block : List ℕ) (j : ℕ) → IsEndFrom block table j entries.now
        → MatchOption result (slot block j ≡ damaged) (λ r. slot block j ≡ doc (slice_range block r.start r.end)) }
    ensures order { IfSome result (λ r. r.start ≤ r.end) }
    ensures within { IfSome result (λ r. r.end ≤ table) }
{
    let start = u32_at(entries, 0) as usize;
    let end = if entries.len() > 8 {
        u32_at(entries, 4) as usize
    } else {
        table
    };
    if start <= end && end <= table {
        Some(start..end)
    } else {
        None
    }
}

// Reads the end of a block from the entry of a document on.
fn read_entries<H: FileHandle>(
    file: &mut FileSlice<H>,
    alloc: Global,
    checkpoint: &Checkpoint,
    doc_id: DocId,
) -> Result<OwnedBytes, StoreError>
    requires to { doc_id < checkpoint.now.doc_range.end }
    requires order { checkpoint.now.byte_range.start + entries_len checkpoint.now doc_id
        ≤ checkpoint.now.byte_range.end }
    requires within { checkpoint.now.byte_range.end ≤ length file.old.content }
    ensures { Comes file.old (checkpoint.now.byte_range.end - entries_len checkpoint.now doc_id)
        checkpoint.now.byte_range.end result file.new }
{
    let end = checkpoint.byte_range.end;
    let len = table_len((checkpoint.doc_range.end - doc_id) as usize);
    read_part(file, alloc, (end - len) as u64..end as u64)
}

// Reads the block of a document, and gives the document.
fn read_in_block<H: FileHandle>(
    file: &mut FileSlice<H>,
    alloc: Global,
    checkpoint: &Checkpoint,
    doc_id: DocId,
) -> Result<OwnedBytes, StoreError>
    requires from { checkpoint.now.doc_range.start ≤ doc_id }
    requires order { checkpoint.now.byte_range.start ≤ checkpoint.now.byte_range.end }
    requires within { checkpoint.now.byte_range.end ≤ length file.old.content }
    ensures { (came : Result (List ℕ) StoreErrorOf)
        × Comes file.old checkpoint.now.byte_range.start checkpoint.now.byte_range.end came file.new
        × AnswersFrom doc_id (doc_id - checkpoint.now.doc_range.start) came result }
{
    let block = read_block(file, alloc, checkpoint)?;
    document_in(&block, doc_id, doc_id - checkpoint.doc_range.start)
}

// Reads the bytes at a place of a block that lies here.
fn read_place<H: FileHandle>(
    file: &mut FileSlice<H>,
    alloc: Global,
    block: Range<usize>,
    place: Range<usize>,
) -> Result<OwnedBytes, StoreError>
    requires order { place.start ≤ place.end }
    requires inside { block.start + place.end ≤ block.end }
    requires within { block.end ≤ length file.old.content }
    ensures { Comes file.old (block.start + place.start) (block.start + place.end) result file.new }
{
    let start = block.start + place.start;
    let end = block.start + place.end;
    read_part(file, alloc, start as u64..end as u64)
}

// Reads a document, and of its block besides only the end from the document's entry on: that says where the document
// lies, if the block has as many documents as its checkpoint says. A block that has not is read whole.
fn read_apart<H: FileHandle>(
    file: &mut FileSlice<H>,
    alloc: Global,
    checkpoint: &Checkpoint,
    doc_id: DocId,
) -> Result<OwnedBytes, StoreError>
    requires from { checkpoint.now.doc_range.start ≤ doc_id }
    requires to { doc_id < checkpoint.now.doc_range.end }
    requires order { checkpoint.now.byte_range.start ≤ checkpoint.now.byte_range.end }
    requires within { checkpoint.now.byte_range.end ≤ length file.old.content }
    ensures { DocumentComes checkpoint.now doc_id file.old result file.new }
{
    let count = checkpoint.doc_range.end - checkpoint.doc_range.start;
    let start = checkpoint.byte_range.start;
    let end = checkpoint.byte_range.end;
    let Some(table) = (end - start).checked_sub(table_len(count as usize)) else {
        return read_in_block(file, alloc, checkpoint, doc_id);
    };
    let entries = read_entries(file, alloc, checkpoint, doc_id)?;
    if u32_at(entries.as_slice(), entries.len() - 4) != count {
        return read_in_block(file, alloc, checkpoint, doc_id);
    }
    let Some(place) = place_by_entry(entries.as_slice(), table) else {
        return Err(StoreError::DamagedDocument(doc_id));
    };
    read_place(file, alloc, start..end, place)
}

// Looks a document up: in its block if the cache has that, and otherwise in the file, by two small reads.
pub(crate) fn look_document_up<H: FileHandle>(
    file: &mut FileSlice<H>,
    cache: &mut BlockCache,
    alloc: Global,
    checkpoint: &Checkpoint,
    doc_id: DocId,
) -> Result<OwnedBytes, StoreError>
    requires from { checkpoint.now.doc_range.start ≤ doc_id }
    requires to { doc_id < checkpoint.now.doc_range.end }
    requires order { checkpoint.now.byte_range.start ≤ checkpoint.now.byte_range.end }
    requires within { checkpoint.now.byte_range.end ≤ length file.old.content }
    ensures comes { DocumentIsLookedUp checkpoint.now doc_id file.old cache.old result file.new }
    ensures cache { cache.new ≡ after_asked checkpoint.now.byte_range.start cache.old }
{
    let doc_pos = doc_id - checkpoint.doc_range.start;
    let request = BlockRequest::Document { doc_id, doc_pos };
    if let Some(answer) = cache.look_up(checkpoint.byte_range.start, request) {
        return answer;
    }
    read_apart(file, alloc, checkpoint, doc_id)
}

//! Where documents lie, by the table of their store's blocks.
ghost use Rattle.std.specs.Prelude.{◌≡◌, ◌+◌, ◌≤◌, ◌<◌, List, length, drop, map, IfOk, MatchOption, MatchResult};
ghost use Rattle.layered_index.specs.declared.row.Row.{Row as RowOf};
ghost use Rattle.store_c.specs.Calls.{IsPlace, ArePlaces, IsTableBlock, RefusesDocument};

use crate::place::Place;
use crate::refusal::Refusal;
use docstore::{Checkpoint, DocId, Row, Steps, likely_read_index};
use layered_index::{docs_of, seek_rows};
use store_format::part;

// The block that has a document, by the table.
fn block_of(file: &[u8], table: &[Row], doc_id: DocId) -> Result<Checkpoint, Refusal>
    ensures block { MatchResult result (IsTableBlock file.now table.now) (RefusesDocument file.now table.now doc_id) }
    ensures from { IfOk result (λ c. c.doc_range.start ≤ doc_id) }
    ensures to { IfOk result (λ c. doc_id < c.doc_range.end) }
{
    let mut steps = Steps::new();
    let Some(checkpoint) = seek_rows(table, doc_id, &mut steps) else {
        return Err(Refusal::NoDocument);
    };
    if doc_id < checkpoint.doc_range.start || checkpoint.doc_range.end <= doc_id {
        return Err(Refusal::OtherTable);
    }
    if checkpoint.byte_range.end < checkpoint.byte_range.start
        || file.len() < checkpoint.byte_range.end
    {
        return Err(Refusal::OtherTable);
    }
    Ok(checkpoint)
}

// Where a document of a block lies in the file.
#[inline(always)]
fn place_in(file: &[u8], block: &Checkpoint, doc_id: DocId) -> Result<Place, Refusal>
    requires from { block.now.doc_range.start ≤ doc_id }
    requires to { doc_id < block.now.doc_range.end }
    requires order { block.now.byte_range.start ≤ block.now.byte_range.end }
    requires within { block.now.byte_range.end ≤ length file.now }
    ensures { (table : List RowOf) → IsTableBlock file.now table block.now
        → MatchResult result (IsPlace file.now table doc_id) (RefusesDocument file.now table doc_id) }
{
    let docs = &block.doc_range;
    let bytes = &block.byte_range;
    let block = part(file, bytes.start, bytes.end);
    match likely_read_index(block, docs.end - docs.start, doc_id - docs.start) {
        Some(range) => Ok(Place {
            start: bytes.start + range.start,
            len: range.end - range.start,
        }),
        None => Err(Refusal::Damaged),
    }
}

/// Where a document lies in the file.
pub(crate) fn place_of(file: &[u8], table: &[Row], doc_id: DocId) -> Result<Place, Refusal>
    ensures { MatchResult result (IsPlace file.now table.now doc_id)
        (RefusesDocument file.now table.now doc_id) }
{
    let block = block_of(file, table, doc_id)?;
    place_in(file, &block, doc_id)
}

// The block that has a document: this one if the document is not past it, otherwise the one that a seek finds.
#[inline(always)]
fn block_for(
    file: &[u8],
    table: &[Row],
    block: Checkpoint,
    doc_id: DocId,
) -> Result<Checkpoint, Refusal>
    requires held { IsTableBlock file.now table.now block }
    requires from { block.doc_range.start ≤ doc_id }
    ensures block { MatchResult result (IsTableBlock file.now table.now) (RefusesDocument file.now table.now doc_id) }
    ensures from { IfOk result (λ c. c.doc_range.start ≤ doc_id) }
    ensures to { IfOk result (λ c. doc_id < c.doc_range.end) }
{
    if doc_id < block.doc_range.end {
        return Ok(block);
    }
    block_of(file, table, doc_id)
}

/// Where documents lie, one after the other from a number on: as many as there is room for, up to the first that is
/// refused. It returns how many were found, and that refusal. It seeks once for each block.
pub(crate) fn places_from(
    file: &[u8],
    table: &[Row],
    first: DocId,
    places: &mut [Place],
) -> (usize, Option<Refusal>)
    ensures found { ArePlaces file.now table.now first places.new result.0 }
    ensures room { result.0 ≤ length places.old }
    ensures next { MatchOption result.1 (result.0 ≡ length places.old)
        (λ e. (result.0 < length places.old) × RefusesDocument file.now table.now (first + result.0) e) }
    ensures kept { drop result.0 places.new ≡ drop result.0 places.old }
{
    let left = docs_of(table).saturating_sub(first) as usize;
    let room = places.len().min(left);
    let mut block = Checkpoint {
        doc_range: 0..0,
        byte_range: 0..0,
    };
    for at in 0..room {
        let doc_id = first + at as u32;
        block = match block_for(file, table, block, doc_id) {
            Ok(block) => block,
            Err(refusal) => return (at, Some(refusal)),
        };
        match place_in(file, &block, doc_id) {
            Ok(found) => places[at] = found,
            Err(refusal) => return (at, Some(refusal)),
        }
    }
    if room < places.len() {
        (room, Some(Refusal::NoDocument))
    } else {
        (room, None)
    }
}

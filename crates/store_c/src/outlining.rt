//! Reading by an outline, as C calls it: by the bytes of the file, and rows of one layer of its index, as many as the
//! caller has room for. No memory is taken, and no handle is kept.
ghost use Rattle.std.specs.Prelude.{◌≡◌, ◌≢◌, ◌≤◌, ◌<◌, ◌+◌, ◌-◌, ◌↔◌, ℕ, length, take, drop, Err, MatchResult};
ghost use Rattle.store_base.specs.declared.error.StoreError.TheVariants.{InvalidArgument, DamagedDocument};
ghost use Rattle.layered_index.specs.Rows.{layer_at};
ghost use Rattle.store_format.specs.StoreFile.{checkpoints_of};
ghost use Rattle.store_reader.specs.Opening.{IsSomeStore};
ghost use Rattle.store_reader.specs.StoreSlices.{document_in, IsOutline};
ghost use Rattle.store_c.specs.Getting.{RefusesUnopened, RefusesHead};
ghost use Rattle.store_c.specs.Outlines.{IsPlaceBy, RefusesBy};

use crate::DONE;
use crate::place::Place;
use docstore::{DocId, Row, StoreError, StoreHead, StoreSlice};
use std::alloc::Global;

// Where a document lies in the file.
#[inline(always)]
fn place_by(file: &[u8], rows: &[Row], head: &StoreHead, doc_id: DocId) -> Result<Place, StoreError>
    ensures { MatchResult result (IsPlaceBy file.now head.now rows.now doc_id)
        (RefusesBy file.now head.now rows.now doc_id) }
{
    let range = head.locate(file, rows, doc_id)?;
    Ok(Place {
        start: range.start,
        len: range.end - range.start,
    })
}

/// Fills the front of `rows` with those of one layer of the index of the store whose file these bytes are, and sets
/// `head` to the numbers of the file by which `zevk_get_by` goes on from them: how many rows these are, and how many
/// layers lie below that layer, are among them. It is the lowest layer that has no more checkpoints than there are
/// rows; where the top one has more, no row is filled. It takes the time of the rows.
///
/// It is refused only if the bytes are no store's file, and then keeps both.
#[unsafe(no_mangle)]
pub extern "C" fn zevk_outline(
    alloc: Global,
    file: &[u8],
    rows: &mut [Row],
    head: &mut StoreHead,
) -> u32
    ensures done { result ≡ 0 → (s : IsSomeStore file.now)
        → IsOutline file.now s head.new (take head.new.rows rows.new) }
    ensures deepest { result ≡ 0 → (s : IsSomeStore file.now) → 0 < head.new.lower.height
        → length rows.old < length (layer_at s.period (head.new.lower.height - 1) (checkpoints_of s.blocks)) }
    ensures room { result ≡ 0 → head.new.rows ≤ length rows.old }
    ensures rest { result ≡ 0 → drop head.new.rows rows.new ≡ drop head.new.rows rows.old }

    // Each refusal.
    ensures refused { result ≢ 0 → RefusesUnopened file.now result }
    ensures head { (number : ℕ) → RefusesHead (length file.now) file.now number → result ≡ number }

    ensures no_memory { result ≢ 10 }
    ensures kept { result ≢ 0 → (rows.new ≡ rows.old) × (head.new ≡ head.old) }
{
    let store = match StoreSlice::new(alloc, file) {
        Ok(store) => store,
        Err(error) => return error.number(),
    };
    match store.outline(rows) {
        Ok(found) => {
            *head = found;
            DONE
        }
        Err(error) => error.number(),
    }
}

/// Sets `place` to where a document lies, by the head and the rows that `zevk_outline` gave for these bytes, the first
/// `head.rows` of them. It looks at a few rows, and reads one run of each layer below, but neither the footer nor where
/// the layers end. By any other head or rows a place lies within the file, but it may be that of anything.
///
/// By those of a store's file it is refused by 6 exactly where there is no document of this number, by 7 exactly where
/// the document's block doesn't say where it lies, and by no other number. Any other refusal is 5. A refusal keeps
/// `place`.
#[unsafe(no_mangle)]
pub extern "C" fn zevk_get_by(
    file: &[u8],
    rows: &[Row],
    head: &StoreHead,
    doc_id: u32,
    place: &mut Place,
) -> u32
    ensures within { result ≡ 0 → place.new.start + place.new.len ≤ length file.now }
    ensures done { result ≡ 0 → IsPlaceBy file.now head.now rows.now doc_id place.new }

    // Each refusal.
    ensures no_document { (s : IsSomeStore file.now) → IsOutline file.now s head.now rows.now
        → result ≡ 6 ↔ document_in file.now s doc_id ≡ Err (InvalidArgument doc_id) }
    ensures damaged { (s : IsSomeStore file.now) → IsOutline file.now s head.now rows.now
        → result ≡ 7 ↔ document_in file.now s doc_id ≡ Err (DamagedDocument doc_id) }
    ensures no_other { (s : IsSomeStore file.now) → IsOutline file.now s head.now rows.now
        → result ≢ 0 → result ≢ 6 → result ≡ 7 }
    ensures no_store { result ≢ 0 → result ≢ 6 → result ≢ 7 → result ≡ 5 }

    ensures no_memory { result ≢ 10 }
    ensures kept { result ≢ 0 → place.new ≡ place.old }
{
    match place_by(file, rows, head, doc_id) {
        Ok(found) => {
            *place = found;
            DONE
        }
        Err(error) => error.number(),
    }
}

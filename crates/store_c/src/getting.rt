//! Reading without opening, as C calls it: by the bytes of the file alone. There is no table, no handle, and nothing to
//! close, and no memory is taken.
ghost use Rattle.std.specs.Prelude.{◌≡◌, ◌≢◌, ◌≤◌, ◌<◌, ◌+◌, ◌^◌, ◌⊎◌, ◌↔◌, ℕ, List, length, drop, Err};
ghost use Rattle.std.specs.Prelude.{MatchResult, MatchOption};
ghost use Rattle.store_base.specs.declared.error.StoreError.TheVariants.{InvalidArgument, DamagedDocument};
ghost use Rattle.store_reader.specs.Opening.{IsSomeStore};
ghost use Rattle.store_reader.specs.StoreSlices.{document_in, count_of_store};
ghost use Rattle.store_c.specs.Getting.{IsPlaceIn, ArePlacesIn, RefusesGet, HasBlock};
ghost use Rattle.store_c.specs.Getting.{RefusesUnopened, RefusesHead};

use crate::DONE;
use crate::place::Place;
use docstore::{BlockSlice, DocId, StoreError, StoreSlice};
use std::alloc::Global;

// Where a document of a block lies in the file.
#[inline(always)]
fn place_in(block: &BlockSlice<'_>, doc_id: DocId) -> Result<Place, StoreError>
    requires from { block.now.first ≤ doc_id }
    requires to { doc_id < block.now.end }
    requires fits { block.now.start + length block.now.bytes.now < 2 ^ 64 }
    ensures { (file : List ℕ) → HasBlock file block.now.first block.now.end block.now.start block.now.bytes.now
        → MatchResult result (IsPlaceIn file doc_id) (RefusesGet file doc_id) }
{
    let range = block.locate(doc_id)?;
    Ok(Place {
        start: range.start,
        len: range.end - range.start,
    })
}

// Goes on with the places of a run by the documents of one block, up to its last or as many as there is room for. It
// returns how many places the run has then, and the refusal of the document at which it stopped.
fn places_on(
    block: &BlockSlice<'_>,
    first: DocId,
    found: usize,
    places: &mut [Place],
) -> (usize, Option<StoreError>)
    requires from { block.now.first ≤ first + found }
    requires to { first + found ≤ block.now.end }
    requires room { found ≤ length places.now }
    requires fits { block.now.start + length block.now.bytes.now < 2 ^ 64 }
    ensures found { (file : List ℕ) → HasBlock file block.now.first block.now.end block.now.start block.now.bytes.now
        → ArePlacesIn file first places.old found → ArePlacesIn file first places.new result.0 }
    ensures on { found ≤ result.0 }
    ensures room { (result.0 ≤ length places.old) × (first + result.0 ≤ block.now.end) }
    ensures next { MatchOption result.1 ((result.0 ≡ length places.old) ⊎ (first + result.0 ≡ block.now.end))
        (λ e. (result.0 < length places.old) × ((file : List ℕ)
        → HasBlock file block.now.first block.now.end block.now.start block.now.bytes.now
        → RefusesGet file (first + result.0) e)) }
    ensures kept { drop result.0 places.new ≡ drop result.0 places.old }
    ensures len { length places.new ≡ length places.old }
{
    let end = places.len().min((block.end - first) as usize);
    for at in found..end {
        match place_in(block, first + at as u32) {
            Ok(place) => places[at] = place,
            Err(error) => return (at, Some(error)),
        }
    }
    (end, None)
}

// Where documents lie, in the order of their numbers from the first on: as many as there is room for, up to the first
// that is refused. It returns how many places it wrote, and that refusal.
fn places_from(
    store: &StoreSlice<'_>,
    first: DocId,
    places: &mut [Place],
) -> (usize, Option<StoreError>)
    ensures found { ArePlacesIn store.now first places.new result.0 }
    ensures room { result.0 ≤ length places.old }
    ensures next { MatchOption result.1 (result.0 ≡ length places.old)
        (λ e. (result.0 < length places.old) × RefusesGet store.now (first + result.0) e) }
    ensures kept { drop result.0 places.new ≡ drop result.0 places.old }
{
    if places.is_empty() {
        return (0, None);
    }
    let (mut block, mut blocks) = match store.blocks_from(first) {
        Ok(begun) => begun,
        Err(error) => return (0, Some(error)),
    };
    let mut found = 0;
    loop {
        let (count, refusal) = places_on(&block, first, found, places);
        if refusal.is_some() || count == places.len() {
            return (count, refusal);
        }
        found = count;
        let Some(item) = blocks.next() else {
            return (found, Some(StoreError::InvalidArgument(block.end)));
        };
        block = match item {
            Ok(next) => next,
            Err(error) => return (found, Some(error)),
        };
    }
}

// Where a document lies in the file.
#[inline(always)]
fn place_of(store: &StoreSlice<'_>, doc_id: DocId) -> Result<Place, StoreError>
    ensures { MatchResult result (IsPlaceIn store.now doc_id) (RefusesGet store.now doc_id) }
{
    let block = store.block_of(doc_id)?;
    place_in(&block, doc_id)
}

/// Sets `place` to where a document lies in the store whose file these bytes are. It reads the footer, and of the index
/// one block in each layer.
///
/// Of a store's file it is refused by 6 if and only if there is no document of this number, by 7 if and only if the
/// document's block doesn't say where it lies, and by no other number. A refusal keeps `place`.
#[unsafe(no_mangle)]
pub extern "C" fn zevk_get(alloc: Global, file: &[u8], doc_id: u32, place: &mut Place) -> u32
    ensures within { result ≡ 0 → place.new.start + place.new.len ≤ length file.now }
    ensures done { result ≡ 0 → IsPlaceIn file.now doc_id place.new }

    // Each refusal.
    ensures no_document { (s : IsSomeStore file.now)
        → result ≡ 6 ↔ document_in file.now s doc_id ≡ Err (InvalidArgument doc_id) }
    ensures damaged { (s : IsSomeStore file.now)
        → result ≡ 7 ↔ document_in file.now s doc_id ≡ Err (DamagedDocument doc_id) }
    ensures no_store { result ≢ 0 → result ≢ 6 → result ≢ 7 → RefusesUnopened file.now result }
    ensures head { (number : ℕ) → RefusesHead (length file.now) file.now number → result ≡ number }

    ensures no_memory { result ≢ 10 }
    ensures kept { result ≢ 0 → place.new ≡ place.old }
{
    let store = match StoreSlice::new(alloc, file) {
        Ok(store) => store,
        Err(error) => return error.number(),
    };
    match place_of(&store, doc_id) {
        Ok(found) => {
            *place = found;
            DONE
        }
        Err(error) => error.number(),
    }
}

/// Sets `places` to where the documents lie from `first` on, in the order of their numbers and as many as there is room
/// for, and `count` to how many these are. It stops before the first that is refused, and returns the number of that
/// refusal, as `zevk_get` does. It seeks once, and then reads on in the index. The places after the first `count` are
/// kept.
#[unsafe(no_mangle)]
pub extern "C" fn zevk_get_run(
    alloc: Global,
    file: &[u8],
    first: u32,
    places: &mut [Place],
    count: &mut usize,
) -> u32
    ensures found { ArePlacesIn file.now first places.new count.new }
    ensures room { count.new ≤ length places.old }
    ensures done { result ≡ 0 → count.new ≡ length places.old }
    ensures stops { result ≢ 0 → IsSomeStore file.now → count.new < length places.old }

    // Each refusal.
    ensures no_document { (s : IsSomeStore file.now) → result ≡ 6 ↔ (count.new < length places.old)
        × (document_in file.now s (first + count.new) ≡ Err (InvalidArgument (first + count.new))) }
    ensures damaged { (s : IsSomeStore file.now) → result ≡ 7 ↔ (count.new < length places.old)
        × (document_in file.now s (first + count.new) ≡ Err (DamagedDocument (first + count.new))) }
    ensures no_store { result ≢ 0 → result ≢ 6 → result ≢ 7 → RefusesUnopened file.now result }
    ensures head { (number : ℕ) → RefusesHead (length file.now) file.now number → result ≡ number }

    ensures no_memory { result ≢ 10 }
    ensures kept { drop count.new places.new ≡ drop count.new places.old }
{
    let store = match StoreSlice::new(alloc, file) {
        Ok(store) => store,
        Err(error) => {
            *count = 0;
            return error.number();
        }
    };
    let (found, refusal) = places_from(&store, first, places);
    *count = found;
    match refusal {
        Some(error) => error.number(),
        None => DONE,
    }
}

/// Sets `num_docs` to how many documents the store has whose file these bytes are. It reads the footer and the top
/// layer of the index. It is refused only if the bytes are no store's file, and then keeps `num_docs`.
#[unsafe(no_mangle)]
pub extern "C" fn zevk_num_docs(alloc: Global, file: &[u8], num_docs: &mut u32) -> u32
    ensures done { result ≡ 0 → (s : IsSomeStore file.now) → num_docs.new ≡ count_of_store file.now s }
    ensures refused { result ≢ 0 → RefusesUnopened file.now result }
    ensures head { (number : ℕ) → RefusesHead (length file.now) file.now number → result ≡ number }
    ensures no_memory { result ≢ 10 }
    ensures kept { result ≢ 0 → num_docs.new ≡ num_docs.old }
{
    let store = match StoreSlice::new(alloc, file) {
        Ok(store) => store,
        Err(error) => return error.number(),
    };
    match store.num_docs() {
        Ok(docs) => {
            *num_docs = docs;
            DONE
        }
        Err(error) => error.number(),
    }
}

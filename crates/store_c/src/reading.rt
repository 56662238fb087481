//! Reading, as C calls it. A store is opened once, which fills a table of its blocks, and read from many times. Its
//! bytes and the table stay the caller's, who passes them again at each call; nothing is kept of them.
ghost use Rattle.std.specs.Prelude.{◌≡◌, ◌≢◌, ◌+◌, ◌<◌, ◌≤◌, ◌⊎◌, ◌↔◌, ℕ, length, take, drop, None, Some};
ghost use Rattle.store_format.specs.Block.{damaged};
ghost use Rattle.store_c.specs.Calls.{IsTableOf, Fills, HasCounts, IsByRoom, IsPlace, ArePlaces, HasSlot, RefusesFile};

use crate::opening::open;
use crate::place::Place;
use crate::refusal::Refusal;
use crate::{DONE, locating};
use docstore::Row;
use layered_index::write_guides;
use std::alloc::Global;

/// Opens the store whose file these bytes are: checks its index, fills the table of its blocks, and sets how many
/// blocks and how many documents there are. It takes no memory.
///
/// It is refused by 32 where the table has no room for all blocks; then the table has the first of them, without their
/// guides, and both numbers are set. Otherwise it is refused by the number of the first refusal of the footer or the
/// index, and then both numbers stay. After 5, which comes of the index, the table may hold anything; after any other
/// number it stays.
#[unsafe(no_mangle)]
pub extern "C" fn zevk_open(
    alloc: Global,
    file: &[u8],
    table: &mut [Row],
    count: &mut usize,
    num_docs: &mut u32,
) -> u32
    ensures filled { (result ≡ 0) ⊎ (result ≡ 32) → Fills file.now table.old table.new count.new num_docs.new }
    ensures done { result ≡ 0 → IsTableOf file.now (take count.new table.new) }
    ensures room { result ≡ 0 → count.new ≤ length table.old }

    // Each refusal.
    ensures no_room { result ≡ 32 → length table.old < count.new }
    ensures refused { result ≢ 0 → result ≢ 32 → RefusesFile file.now result }
    ensures first { (number : ℕ) → RefusesFile file.now number → result ≡ number }
    ensures counts { (blocks docs : ℕ) → HasCounts file.now blocks docs
        → (count.new ≡ blocks) × (num_docs.new ≡ docs) × IsByRoom result blocks (length table.old) }

    ensures no_memory { result ≢ 10 }
    ensures stays { result ≢ 0 → result ≢ 32 → (count.new ≡ count.old) × (num_docs.new ≡ num_docs.old) }
    ensures rows { result ≢ 0 → result ≢ 32 → result ≢ 5 → table.new ≡ table.old }
{
    let (_, checked) = match open(alloc, file, table) {
        Ok(opened) => opened,
        Err(error) => return error.number(),
    };
    *count = checked.blocks;
    *num_docs = checked.docs;
    if checked.blocks > table.len() {
        return Refusal::NoRoom.number();
    }
    write_guides(&mut table[..checked.blocks]);
    DONE
}

/// Sets `place` to where a document lies in the file, by the table that `zevk_open` filled for these bytes. With any
/// other table a place lies within the file, but it may be that of anything. It takes no memory, and changes nothing
/// but `place`.
///
/// It is refused by 6 where the store has no document of this number, by 7 where the document's block doesn't say
/// where it lies, and by 33 where the table is not that of the file.
#[unsafe(no_mangle)]
pub extern "C" fn zevk_locate(file: &[u8], table: &[Row], doc_id: u32, place: &mut Place) -> u32
    ensures within { result ≡ 0 → place.new.start + place.new.len ≤ length file.now }
    ensures done { result ≡ 0 → IsPlace file.now table.now doc_id place.new }

    // Each refusal.
    ensures no_document { IsTableOf file.now table.now → result ≡ 6 ↔ HasSlot file.now doc_id None }
    ensures damaged { IsTableOf file.now table.now → result ≡ 7 ↔ HasSlot file.now doc_id (Some damaged) }
    ensures other_table { result ≡ 33 → IsTableOf file.now table.now → ⊥ }
    ensures no_other { result ≢ 0 → result ≢ 6 → result ≢ 7 → result ≡ 33 }

    ensures kept { result ≢ 0 → place.new ≡ place.old }
{
    match locating::place_of(file, table, doc_id) {
        Ok(found) => {
            *place = found;
            DONE
        }
        Err(refusal) => refusal.number(),
    }
}

/// Finds where documents lie, one after the other from `first` on, as many as `places` has room for, and how many
/// these are. It stops before the first that is refused, and returns its refusal, as `zevk_locate` does. It seeks in
/// the table once for each block.
#[unsafe(no_mangle)]
pub extern "C" fn zevk_locate_run(
    file: &[u8],
    table: &[Row],
    first: u32,
    places: &mut [Place],
    count: &mut usize,
) -> u32
    ensures found { ArePlaces file.now table.now first places.new count.new }
    ensures room { count.new ≤ length places.old }
    ensures done { result ≡ 0 → count.new ≡ length places.old }

    // Each refusal.
    ensures stops { result ≢ 0 → count.new < length places.old }
    ensures no_document { IsTableOf file.now table.now
        → result ≡ 6 ↔ (count.new < length places.old) × HasSlot file.now (first + count.new) None }
    ensures damaged { IsTableOf file.now table.now
        → result ≡ 7 ↔ (count.new < length places.old) × HasSlot file.now (first + count.new) (Some damaged) }
    ensures other_table { result ≡ 33 → IsTableOf file.now table.now → ⊥ }
    ensures no_other { result ≢ 0 → result ≢ 6 → result ≢ 7 → result ≡ 33 }

    ensures kept { drop count.new places.new ≡ drop count.new places.old }
{
    let (found, refusal) = locating::places_from(file, table, first, places);
    *count = found;
    match refusal {
        Some(refusal) => refusal.number(),
        None => DONE,
    }
}

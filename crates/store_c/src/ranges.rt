//! Reading a store whose file lies elsewhere, as C calls it: by the end of the file, and by the bytes of one block. No
//! memory is taken.
ghost use Rattle.std.specs.Prelude.{◌≡◌, ◌≢◌, ◌≤◌, ◌<◌, ◌+◌, ◌⊎◌, ◌↔◌, ℕ, List, length, Err};
ghost use Rattle.store_base.specs.declared.error.StoreError.TheVariants.{InvalidArgument, DamagedDocument};
ghost use Rattle.store_reader.specs.Opening.{IsSomeStore};
ghost use Rattle.store_reader.specs.StoreSlices.{document_in};
ghost use Rattle.store_reader.specs.StoreTails.{IsTailOf, IsWanted};
ghost use Rattle.store_c.specs.Getting.{IsPlaceIn, RefusesHead};
ghost use Rattle.store_c.specs.Ranges.{HasBlockAt, IsBlockPlace, RefusesTail, IsOtherBlock};

use crate::DONE;
use crate::block_place::BlockPlace;
use crate::place::Place;
use crate::refusal::Refusal;
use docstore::{BlockSlice, StoreTail, TailError};
use std::alloc::Global;

/// Sets `block` to where the block lies that has a document, in a file of `file_len` bytes of which these are the last.
///
/// It is refused by 36 where the tail is too short, and sets `wanted` to how many of the last bytes of the file are
/// enough: those of a footer, or all from where the footer says that the index begins. With a tail that has a footer
/// this comes at most once. It is refused by 6 where a store has no document of this number, and by 1 where the tail is
/// longer than the file. Other refusals come of no store's file. A refusal keeps `block`.
#[unsafe(no_mangle)]
pub extern "C" fn zevk_block_of(
    alloc: Global,
    tail: &[u8],
    file_len: usize,
    doc_id: u32,
    block: &mut BlockPlace,
    wanted: &mut usize,
) -> u32
    ensures has { result ≡ 0 → (block.new.first_doc ≤ doc_id) × (doc_id < block.new.end_doc) }
    ensures within { result ≡ 0 → block.new.start + block.new.len + 28 ≤ file_len }
    ensures done { result ≡ 0 → IsBlockPlace file_len tail.now block.new }

    // Each refusal.
    ensures too_long { (file_len < 28) ⊎ (file_len < length tail.now) → result ≡ 1 }
    ensures too_short { result ≡ 36 → IsWanted file_len tail.now wanted.new }
    ensures wants { (n : ℕ) → IsWanted file_len tail.now n → (result ≡ 36) × (wanted.new ≡ n) }
    ensures head { (number : ℕ) → 28 ≤ length tail.now → length tail.now ≤ file_len
        → RefusesHead file_len tail.now number → result ≡ number }
    ensures no_document { (file : List ℕ) → IsTailOf file file_len tail.now → (s : IsSomeStore file) → result ≢ 36
        → result ≡ 6 ↔ document_in file s doc_id ≡ Err (InvalidArgument doc_id) }
    ensures no_store { result ≢ 0 → result ≢ 6 → result ≢ 36 → RefusesTail file_len tail.now result }
    ensures no_memory { result ≢ 10 }

    ensures kept { result ≢ 0 → block.new ≡ block.old }
    ensures stays { result ≢ 36 → wanted.new ≡ wanted.old }
{
    let store = match StoreTail::new(alloc, tail, file_len) {
        Ok(store) => store,
        Err(TailError::Short(len)) => {
            *wanted = len;
            return Refusal::TailTooShort.number();
        }
        Err(TailError::Store(error)) => return error.number(),
    };
    match store.block_of(doc_id) {
        Ok(found) => {
            *block = BlockPlace {
                first_doc: found.doc_range.start,
                end_doc: found.doc_range.end,
                start: found.byte_range.start,
                len: found.byte_range.end - found.byte_range.start,
            };
            DONE
        }
        Err(error) => error.number(),
    }
}

/// Sets `place` to where a document lies in the file, by the bytes of its block, which lies at `at`. The place is that
/// of `zevk_get`, and its bytes begin in the block at `place.start - at.start`.
///
/// It is refused by 7 where the block doesn't say where the document lies, and by 37 where `at` doesn't have the
/// document, or where the block is not of the length that `at` says. A refusal keeps `place`.
#[unsafe(no_mangle)]
pub extern "C" fn zevk_get_in(block: &[u8], at: &BlockPlace, doc_id: u32, place: &mut Place) -> u32
    ensures after_start { result ≡ 0 → at.now.start ≤ place.new.start }
    ensures within { result ≡ 0 → place.new.start + place.new.len ≤ at.now.start + length block.now }
    ensures done { result ≡ 0 → (file : List ℕ) → HasBlockAt file at.now block.now → IsPlaceIn file doc_id place.new }

    // Each refusal.
    ensures damaged { (file : List ℕ) → HasBlockAt file at.now block.now → (s : IsSomeStore file) → result ≢ 37
        → result ≡ 7 ↔ document_in file s doc_id ≡ Err (DamagedDocument doc_id) }
    ensures other_block { result ≡ 37 ↔ IsOtherBlock at.now block.now doc_id }
    ensures no_other { result ≢ 0 → result ≢ 7 → result ≡ 37 }

    ensures kept { result ≢ 0 → place.new ≡ place.old }
{
    if doc_id < at.first_doc || at.end_doc <= doc_id {
        return Refusal::OtherBlock.number();
    }
    if block.len() != at.len || at.start > usize::MAX - at.len {
        return Refusal::OtherBlock.number();
    }
    let slice = BlockSlice {
        first: at.first_doc,
        end: at.end_doc,
        start: at.start,
        bytes: block,
    };
    match slice.locate(doc_id) {
        Ok(range) => {
            *place = Place {
                start: range.start,
                len: range.end - range.start,
            };
            DONE
        }
        Err(error) => error.number(),
    }
}

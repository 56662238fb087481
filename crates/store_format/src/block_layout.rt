//! The layout of a block: its documents, and after them the table of where each begins and how many there are.

ghost use Rattle.std.specs.Prelude.{◌≡◌, ◌≤◌, ◌<◌, ◌+◌, ◌*◌, ◌^◌, ◌++◌, length, slice_range, MatchOption, IfSome};
ghost use Rattle.std.specs.Prelude.{vec_len, vec_capacity};
ghost use Rattle.std.specs.List.{flat_map};
ghost use Rattle.store_base.specs.Serialize.{fixed};
ghost use Rattle.store_format.specs.Block.{slot, doc, damaged, count_of, start_of, end_of, u32_at as u32_in};

use byteorder::{ByteOrder, LittleEndian};
use std::ops::Range;

/// Appends the table to the documents of a block, by where each begins. Room for it was made before.
#[tactic(auto, unfolding(store_base::specs::Serialize::fixed))]
pub fn append_table(bytes: &mut Vec<u8>, starts: &[u32])
    requires room { vec_len bytes.old + 4 * length starts.now + 4 ≤ vec_capacity bytes.old }
    requires few { length starts.now < 2 ^ 32 }
    ensures items { bytes.new.items ≡ bytes.old.items ++ flat_map (fixed 4) starts.now ++ fixed 4 (length starts.now) }
    ensures capacity { vec_capacity bytes.old ≤ vec_capacity bytes.new }
{
    let end = bytes.len();
    bytes.resize(end + 4 * starts.len(), 0).unwrap();
    LittleEndian::write_u32_into(starts, &mut bytes[end..]);
    let count = starts.len() as u32;
    bytes.extend_from_slice(&count.to_le_bytes()).unwrap();
}

/// The number of four bytes at a place.
#[tactic(auto, unfolding(crate::specs::Block::u32_at))]
pub fn u32_at(bytes: &[u8], place: usize) -> u32
    requires { place + 4 ≤ length bytes.now }
    ensures { result ≡ u32_in bytes.now place }
{
    let (_, rest) = bytes.split_at(place);
    let (front, _) = rest.split_first_chunk::<4>().unwrap();
    u32::from_le_bytes(*front)
}

// The same as `block_read_index`, of a block that says that it has this many documents.
#[inline(always)]
#[tactic(auto, unfolding(crate::specs::Block::u32_at))]
fn read_index_among(block: &[u8], count: u32, doc_pos: u32) -> Option<Range<usize>>
    requires long { 4 ≤ length block.now }
    requires count { count ≡ count_of block.now }
    ensures slot { MatchOption result (slot block.now doc_pos ≡ damaged)
        (λ r. slot block.now doc_pos ≡ doc (slice_range block.now r.start r.end)) }
    ensures place { IfSome result (λ r. (r.start ≡ start_of block.now doc_pos)
        × (r.end ≡ end_of block.now doc_pos)) }
    ensures order { IfSome result (λ r. r.start ≤ r.end) }
    ensures within { IfSome result (λ r. r.end ≤ length block.now) }
{
    let table = block.len().checked_sub(4 * (count as usize + 1))?;
    if doc_pos >= count {
        return None;
    }
    let start = u32_at(block, table + 4 * doc_pos as usize) as usize;
    let end = if doc_pos + 1 < count {
        u32_at(block, table + 4 * (doc_pos as usize + 1)) as usize
    } else {
        table
    };
    if start <= end && end <= table {
        Some(start..end)
    } else {
        None
    }
}

/// A part of bytes.
#[inline(always)]
pub fn part<'a>(bytes: &'a [u8], start: usize, end: usize) -> &'a [u8]
    requires order { start ≤ end }
    requires within { end ≤ length bytes.now }
    ensures { result.now ≡ slice_range bytes.entry.now start end }
{
    &bytes[start..end]
}

/// Where the document at a position of a block lies, or `None` where it is damaged: where the
/// block's table doesn't lie in the block, doesn't have the position, or names no part of the bytes
/// before it.
#[tactic(auto, unfolding(crate::specs::Block::u32_at))]
pub fn block_read_index(block: &[u8], doc_pos: u32) -> Option<Range<usize>>
    ensures slot { MatchOption result (slot block.now doc_pos ≡ damaged)
        (λ r. slot block.now doc_pos ≡ doc (slice_range block.now r.start r.end)) }
    ensures place { IfSome result (λ r. (r.start ≡ start_of block.now doc_pos)
        × (r.end ≡ end_of block.now doc_pos)) }
    ensures order { IfSome result (λ r. r.start ≤ r.end) }
    ensures within { IfSome result (λ r. r.end ≤ length block.now) }
{
    let count_place = block.len().checked_sub(4)?;
    read_index_among(block, u32_at(block, count_place), doc_pos)
}

/// The same, of a block that likely has this many documents. The table is sought by that number, so the
/// processor needn't wait for the one that the block says.
#[inline(always)]
#[tactic(auto, unfolding(crate::specs::Block::u32_at))]
pub fn likely_read_index(block: &[u8], likely: u32, doc_pos: u32) -> Option<Range<usize>>
    ensures slot { MatchOption result (slot block.now doc_pos ≡ damaged)
        (λ r. slot block.now doc_pos ≡ doc (slice_range block.now r.start r.end)) }
    ensures place { IfSome result (λ r. (r.start ≡ start_of block.now doc_pos)
        × (r.end ≡ end_of block.now doc_pos)) }
    ensures order { IfSome result (λ r. r.start ≤ r.end) }
    ensures within { IfSome result (λ r. r.end ≤ length block.now) }
{
    let count_place = block.len().checked_sub(4)?;
    if u32_at(block, count_place) == likely {
        return read_index_among(block, likely, doc_pos);
    }
    unlikely_read_index(block, doc_pos)
}

// The same as `block_read_index`, and not where it is called.
#[inline(never)]
fn unlikely_read_index(block: &[u8], doc_pos: u32) -> Option<Range<usize>>
    ensures slot { MatchOption result (slot block.now doc_pos ≡ damaged)
        (λ r. slot block.now doc_pos ≡ doc (slice_range block.now r.start r.end)) }
    ensures place { IfSome result (λ r. (r.start ≡ start_of block.now doc_pos)
        × (r.end ≡ end_of block.now doc_pos)) }
    ensures order { IfSome result (λ r. r.start ≤ r.end) }
    ensures within { IfSome result (λ r. r.end ≤ length block.now) }
{
    block_read_index(block, doc_pos)
}

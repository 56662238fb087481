//! What `inspect` prints of a store: its numbers, and the beginning of the first document of each block.

use crate::stat_output::print_lines;
use docstore::{DataPart, block_read_index};
use program_base::failure::{FailureCause, to_output};
use program_base::store_file::{DiskReader, StorePath, with_reason};
use std::alloc::{AllocError, Global};
use store_commands::store_numbers::numbers_in;
use store_files::{ReadAt, SystemFiles};
use store_page::excerpts::push_hex;

/// How many blocks are printed at most.
pub const MOST_BLOCKS: usize = 1000;

// How many bytes of a document are printed at most.
const MOST_BYTES: usize = 60;

// The highest two bits of a byte of UTF-8, and what they are in a byte that doesn't begin a character.
const HIGH_BITS: u8 = 0b1100_0000;

const CONTINUES: u8 = 0b1000_0000;

// The beginning of a document that is printed. It ends before a character rather than inside one.
fn beginning_of(document: &[u8]) -> &[u8] {
    let mut end = document.len().min(MOST_BYTES);
    // A character has at most four bytes.
    for _ in 0..3 {
        match document.get(end) {
            Some(byte) if byte & HIGH_BITS == CONTINUES => end = end.saturating_sub(1),
            _ => break,
        }
    }
    document.get(..end).unwrap_or(document)
}

// Bytes in words: as text in quotation marks, or else as hexadecimal digits.
fn shown(alloc: Global, bytes: &[u8]) -> Result<String, AllocError> {
    if let Ok(text) = str::from_utf8(bytes) {
        return format!(in alloc; "{text:?}");
    }
    let mut digits = format!(in alloc; "hex ")?;
    push_hex(&mut digits, bytes)?;
    Ok(digits)
}

// Prints a block: its number, and its first document.
fn print_block(rt: &HostRuntime, number: usize, block: &DataPart) -> Result<(), FailureCause> {
    let doc_id = block.ids.start;
    let Some(place) = block_read_index(block.bytes.as_slice(), 0) else {
        return to_output(println!(rt; "block {number}: document {doc_id} is damaged"));
    };
    let document = &block.bytes.as_slice()[place];
    let beginning = beginning_of(document);
    let (bytes, words) = (document.len(), shown(rt.alloc(), beginning)?);
    let rest = if beginning.len() < bytes { " .." } else { "" };
    to_output(println!(rt; "block {number}: document {doc_id}, {bytes} bytes: {words}{rest}"))
}

// Prints the first blocks of an opened store, and how many others it has.
fn print_blocks<F: ReadAt>(
    rt: &HostRuntime,
    reader: &mut DiskReader<F>,
) -> Result<(), FailureCause> {
    let mut next_id = 0;
    for number in 0..MOST_BLOCKS {
        let Some(block) = reader.read_block(rt.alloc(), next_id)? else {
            break;
        };
        print_block(rt, number, &block)?;
        next_id = block.ids.end;
    }
    match reader.num_blocks().saturating_sub(MOST_BLOCKS) {
        0 => Ok(()),
        others => to_output(println!(rt; "{others} more blocks")),
    }
}

/// Prints what a store has.
pub fn print_store<S: SystemFiles>(
    rt: &HostRuntime,
    system: &S,
    store: StorePath<'_>,
) -> Result<(), FailureCause> {
    let mut reader = store.reader(rt.alloc(), system)?;
    let numbers = numbers_in(rt.alloc(), &*reader)?;
    print_lines(rt, store.path, &numbers)?;
    let printed = print_blocks(rt, &mut reader);
    with_reason(&reader, printed)
}

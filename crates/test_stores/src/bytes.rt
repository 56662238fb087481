//! Numbers and blocks of checkpoints as bytes. The vectors are those of the format's description and of tantivy's own
//! tests.

use docstore::{
    BinarySerializable, CheckpointBlock, DecodeFault, DocStoreFooter, FileSlice, HasLen, MemFile,
    MemSink, OwnedBytes, StoreError, VInt,
};
use std::alloc::Global;
use std::test::Fail;
use store_base::read_u32_vint;

const NUMBERS: [(u64, &[u8]); 9] = [
    (0, &[0x80]),
    (5, &[0x85]),
    (127, &[0xff]),
    (128, &[0x00, 0x81]),
    (300, &[0x2c, 0x82]),
    (16383, &[0x7f, 0xff]),
    (16384, &[0x00, 0x00, 0x81]),
    (4294967295, &[0x7f, 0x7f, 0x7f, 0x7f, 0x8f]),
    (8000000000, &[0x00, 0x20, 0x59, 0x66, 0x9d]),
];

// Whether a value is written as these bytes, and these bytes are read as the value.
fn is_spelled<T: BinarySerializable + PartialEq + Drop>(
    alloc: Global,
    value: &T,
    bytes: &[u8],
) -> Result<bool, Fail> {
    let mut sink = MemSink::new(alloc);
    value.serialize(&mut sink)?;
    let mut input = bytes;
    let read = T::deserialize(alloc, &mut input)?;
    Ok(sink.as_slice() == bytes && read == *value && input.is_empty())
}

// Whether the numbers, and a list of them, have their bytes.
fn are_spelled(alloc: Global) -> Result<bool, Fail> {
    for (value, bytes) in NUMBERS {
        if !is_spelled(alloc, &VInt(value), bytes)? {
            return Ok(false);
        }
    }
    let list = vec![in alloc; VInt(0), VInt(300)]?;
    is_spelled(alloc, &list, &[0x82, 0x80, 0x2c, 0x82])
}

// What bytes are read as that have to spell a u32.
fn u32_of(bytes: &[u8]) -> Result<u32, DecodeFault> {
    let mut input = bytes;
    read_u32_vint(&mut input)
}

#[test]
fn numbers_have_their_bytes(rt: HostRuntime) -> Result<(), Fail> {
    assert!(rt;
        are_spelled(rt.alloc())?
            && u32_of(&[0x7f, 0x7f, 0x7f, 0x7f, 0x8f]) == Ok(u32::MAX)
            && u32_of(&[0x05, 0x80]) == Err(DecodeFault::Malformed)
            && u32_of(&[0x7f, 0x7f, 0x7f, 0x7f, 0x90]) == Err(DecodeFault::Malformed)
            && u32_of(&[0x7f, 0x7f, 0x7f, 0x7f]) == Err(DecodeFault::Short)
    );
    Ok(())
}

/// The bytes of a block, and where its first checkpoint begins and each one ends: the document and the byte.
type Vector = (&'static [u8], &'static [(u32, usize)]);

const BLOCKS: [Vector; 4] = [
    (&[0x80], &[]),
    (&[0x81, 0x8a, 0xe4, 0x82, 0x94], &[(10, 100), (12, 120)]),
    (
        &[
            0x81, 0x8a, 0x00, 0x20, 0x59, 0x66, 0x9d, 0x82, 0x00, 0x14, 0x6b, 0x5c, 0x83,
        ],
        &[(10, 8000000000), (12, 9000000000)],
    ),
    // Ten checkpoints, whose documents end at the squares from 0 to 81 and whose bytes end at the cubes from 1 to 1000.
    (
        &[
            0x8a, 0x80, 0x80, 0x80, 0x81, 0x81, 0x87, 0x83, 0x93, 0x85, 0xa5, 0x87, 0xbd, 0x89,
            0xdb, 0x8b, 0xff, 0x8d, 0x29, 0x81, 0x8f, 0x59, 0x81, 0x91, 0x0f, 0x82,
        ],
        &[
            (0, 0),
            (0, 1),
            (1, 8),
            (4, 27),
            (9, 64),
            (16, 125),
            (25, 216),
            (36, 343),
            (49, 512),
            (64, 729),
            (81, 1000),
        ],
    ),
];

// A block that holds documents 0 to 1 and bytes 2 to 3.
fn kept(alloc: Global) -> Result<CheckpointBlock, StoreError> {
    let mut block = CheckpointBlock::new(alloc)?;
    block.deserialize(&mut [0x81, 0x80, 0x82, 0x81, 0x81].as_slice())?;
    Ok(block)
}

// Whether the checkpoints begin and end at these places.
fn has_ends(block: &CheckpointBlock, ends: &[(u32, usize)]) -> bool {
    let places = ends.iter().zip(ends.iter().skip(1));
    for (checkpoint, ((doc, byte), (doc_end, byte_end))) in block.checkpoints().iter().zip(places) {
        if checkpoint.doc_range != (*doc..*doc_end) || checkpoint.byte_range != (*byte..*byte_end) {
            return false;
        }
    }
    block.len() == ends.len().saturating_sub(1)
}

// Whether a block that is read from these bytes has these places, leaves no byte, and is written as the bytes.
fn is_block(alloc: Global, bytes: &[u8], ends: &[(u32, usize)]) -> Result<bool, StoreError> {
    let mut block = kept(alloc)?;
    let mut input = bytes;
    block.deserialize(&mut input)?;
    let mut output = Vec::new(alloc);
    block.serialize(&mut output)?;
    Ok(has_ends(&block, ends) && input.is_empty() && output.as_slice() == bytes)
}

// Whether these bytes are no block, which leaves the block and the input as they were.
fn is_refused(alloc: Global, bytes: &[u8]) -> Result<bool, StoreError> {
    let mut block = kept(alloc)?;
    let mut input = bytes;
    let refusal = block.deserialize(&mut input).err();
    let is_left = input == bytes && has_ends(&block, &[(0, 2), (1, 3)]);
    Ok(refusal == Some(StoreError::BadIndex) && is_left)
}

// Whether all of these blocks have their bytes.
fn are_blocks(alloc: Global) -> Result<bool, StoreError> {
    for (bytes, ends) in BLOCKS {
        if !is_block(alloc, bytes, ends)? {
            return Ok(false);
        }
    }
    Ok(true)
}

// The refused ones are no bytes, a checkpoint short, and a document end of 2^32.
#[test]
fn blocks_have_their_bytes(rt: HostRuntime) -> Result<(), Fail> {
    let alloc = rt.alloc();
    assert!(rt;
        are_blocks(alloc)?
            && is_refused(alloc, &[])?
            && is_refused(alloc, &[0x82, 0x80, 0x80, 0x81, 0x81])?
            && is_refused(
                alloc,
                &[0x81, 0x7f, 0x7f, 0x7f, 0x7f, 0x8f, 0x80, 0x81, 0x81]
            )?
    );
    Ok(())
}

const FILE: &[u8] = b"abc\0\0\0\0\x01\0\0\0\x81\x85\x81\x80\x80\x81\x8b\
    \x03\0\0\0\x0b\0\0\0\0\0\0\0\0\x08\0\0\0\0\0\0\0\0\0\0\0\0\0\0";

// Whether a footer is taken off a file, of which the bytes before it are left.
fn is_taken_off(alloc: Global) -> Result<bool, StoreError> {
    let file = MemFile::new(alloc, Vec::from_slice(alloc, FILE)?)?;
    match DocStoreFooter::extract_footer(alloc, FileSlice::new(file)) {
        Ok((footer, body)) => Ok(footer.offset == 11 && footer.period == 8 && body.len() == 18),
        Err(refusal) => Err(refusal.error),
    }
}

// Whether the clone of shared bytes has these bytes.
fn is_cloned(alloc: Global) -> Result<bool, StoreError> {
    let bytes = OwnedBytes::new(alloc, Vec::from_slice(alloc, FILE)?)?;
    Ok(bytes.clone()?.as_slice() == FILE)
}

#[test]
fn a_footer_is_taken_off_and_bytes_are_cloned(rt: HostRuntime) -> Result<(), Fail> {
    assert!(rt; is_taken_off(rt.alloc())? && is_cloned(rt.alloc())?);
    Ok(())
}

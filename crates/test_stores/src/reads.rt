//! A store whose reads fail in turn: those of the footer and the index, of each block for a get and for an iteration,
//! of a document without its block, and of the data for a stacking. Each call that fails is made again, with the right
//! answer.

use crate::failing_file::FailingFile;
use crate::making::{is_found, listed, opened, opened_with_cache, written};
use crate::merge_inputs::six_blocks;
use docstore::{Compressor, FileSlice, MemSink, StoreError, StoreReader, StoreWriter};
use std::alloc::Global;
use std::test::Fail;

const DOCUMENTS: [&[u8]; 3] = [b"a", b"bc", b""];

/// How many calls of a kind failed, each because a read did. An answer that is wrong is an error.
type Failed = Result<usize, StoreError>;

type Reader = StoreReader<FailingFile>;

// No failure of a call that is made, or an error.
fn none_if(is_right: bool) -> Failed {
    if is_right {
        Ok(0)
    } else {
        Err(StoreError::BadDocument)
    }
}

// One failure of a call, for this error, after which it was right; or an error.
fn one_if(error: StoreError, is_right: bool) -> Failed {
    if error == StoreError::Read && is_right {
        Ok(1)
    } else {
        Err(error)
    }
}

fn open(alloc: Global, file: FailingFile) -> Result<(Box<Reader>, usize), StoreError> {
    let refusal = match StoreReader::open(alloc, FileSlice::new(file), 0) {
        Ok(reader) => return Ok((Box::new(alloc, reader)?, 0)),
        Err(refusal) => refusal,
    };
    let failed = one_if(refusal.error, true)?;
    match StoreReader::open(alloc, refusal.file, 0) {
        Ok(reader) => Ok((Box::new(alloc, reader)?, failed)),
        Err(refusal) => Err(refusal.error),
    }
}

fn get(alloc: Global, reader: &mut Reader) -> Failed {
    let mut failed = 0usize;
    for (doc_id, document) in (0..3u32).zip(DOCUMENTS) {
        let more = match reader.get_document_bytes(alloc, doc_id) {
            Ok(bytes) => none_if(bytes.as_slice() == document),
            Err(error) => one_if(error, is_found(alloc, reader, doc_id, document)),
        };
        failed = failed.saturating_add(more?);
    }
    Ok(failed)
}

fn iterate(alloc: Global, reader: &mut Reader) -> Failed {
    let whole = b"a;bc;;".as_slice();
    let first = listed(alloc, reader)?;
    if first.as_slice() == whole {
        return Ok(0);
    }
    // One block has the error, and the documents of the others are given.
    let with_error = [b"!\x09;bc;;".as_slice(), b"a;!\x09;;", b"a;bc;!\x09;"];
    let is_one = with_error.contains(&first.as_slice());
    one_if(
        StoreError::Read,
        is_one && listed(alloc, reader)?.as_slice() == whole,
    )
}

fn stack(writer: &mut StoreWriter<MemSink>, reader: &mut Reader) -> Failed {
    writer.store_bytes(b"x")?;
    let Err(error) = writer.stack(reader) else {
        return Ok(0);
    };
    let failed = one_if(error, writer.num_docs() == 1 && !writer.has_failed())?;
    writer.stack(reader)?;
    Ok(failed)
}

// Stacks the store after a document.
fn stack_after_one(alloc: Global, reader: &mut Reader) -> Failed {
    let mut writer = StoreWriter::new(alloc, MemSink::new(alloc), Compressor::None, 16384);
    let failed = stack(&mut writer, reader)?;
    let file = writer.close()?.into_bytes();
    none_if(file == written(alloc, 0, &[b"x", b"a", b"bc", b""])?)?;
    Ok(failed)
}

// How many openings, gets, iterations and stackings fail on a store whose read of this number fails.
fn failed_calls(alloc: Global, failing_read: u64) -> Result<[usize; 4], StoreError> {
    let file = FailingFile::new(alloc, written(alloc, 0, &DOCUMENTS)?, failing_read)?;
    let (mut reader, opens) = open(alloc, file)?;
    let gets = get(alloc, &mut reader)?;
    let iterations = iterate(alloc, &mut reader)?;
    let stackings = stack_after_one(alloc, &mut reader)?;
    Ok([opens, gets, iterations, stackings])
}

#[test]
fn each_read_fails_in_turn_and_its_call_is_made_again(rt: HostRuntime) -> Result<(), Fail> {
    for failing_read in 1..11u64 {
        let expected = match failing_read {
            1 | 2 => [1, 0, 0, 0],
            3..=5 => [0, 1, 0, 0],
            6..=8 => [0, 0, 1, 0],
            9 => [0, 0, 0, 1],
            _ => [0; 4],
        };
        assert!(rt; failed_calls(rt.alloc(), failing_read)? == expected);
    }
    Ok(())
}

// Whether a get finds the document, and how many blocks the cache has then, with its hits and misses.
fn got(alloc: Global, reader: &mut Reader) -> (bool, usize, usize, usize) {
    let is_read = is_found(alloc, reader, 0, b"abc");
    let stats = reader.cache_stats();
    (
        is_read,
        stats.num_entries,
        stats.cache_hits,
        stats.cache_misses,
    )
}

#[test]
fn a_read_that_fails_keeps_nothing_in_the_cache(rt: HostRuntime) -> Result<(), Fail> {
    let alloc = rt.alloc();
    let file = FailingFile::new(alloc, written(alloc, 0, &[b"abc"])?, 3)?;
    let mut reader = opened_with_cache(alloc, file, 100)?;
    assert!(rt;
        got(alloc, &mut reader) == (false, 0, 0, 1)
            && got(alloc, &mut reader) == (true, 1, 0, 2)
            && got(alloc, &mut reader) == (true, 1, 1, 2)
    );
    Ok(())
}

// Whether a read without the block gives this document.
fn is_read(alloc: Global, reader: &mut Reader, doc_id: u32, document: &[u8]) -> bool {
    match reader.read_document_bytes(alloc, doc_id) {
        Ok(bytes) => bytes.as_slice() == document,
        Err(_) => false,
    }
}

// How many reads of documents of one block fail, whose read of the file of this number fails. The cache stays empty.
fn failed_reads(alloc: Global, failing_read: u64) -> Failed {
    let file = FailingFile::new(alloc, written(alloc, 16384, &DOCUMENTS)?, failing_read)?;
    let mut reader = opened_with_cache(alloc, file, 100)?;
    let mut failed = 0usize;
    for (doc_id, document) in (0..3u32).zip(DOCUMENTS) {
        let more = match reader.read_document_bytes(alloc, doc_id) {
            Ok(bytes) => none_if(bytes.as_slice() == document),
            Err(error) => one_if(error, is_read(alloc, &mut reader, doc_id, document)),
        };
        failed = failed.saturating_add(more?);
    }
    none_if(reader.cache_stats().num_entries == 0)?;
    Ok(failed)
}

#[test]
fn a_document_is_read_by_two_reads_of_the_file(rt: HostRuntime) -> Result<(), Fail> {
    // The first two open it.
    for failing_read in 3..9u64 {
        assert!(rt; failed_reads(rt.alloc(), failing_read)? == 1);
    }
    assert!(rt; failed_reads(rt.alloc(), 9)? == 0);
    Ok(())
}

// Stacks a store in parts of two blocks after `x`, of which the second part is not read. Then `y` is stored.
fn stack_half(alloc: Global, writer: &mut StoreWriter<MemSink>, reader: &mut Reader) -> Failed {
    writer.store_bytes(b"x")?;
    let Err(error) = writer.stack_in_parts(reader, 18) else {
        return Ok(0);
    };
    let is_left = writer.num_docs() == 3 && !writer.has_failed();
    let failed = one_if(error, is_left && is_found(alloc, reader, 5, b"f"))?;
    writer.store_bytes(b"y")?;
    Ok(failed)
}

// Whether the file of it has the first part and `y`.
fn is_half_stacked(alloc: Global) -> Result<bool, StoreError> {
    let mut reader = opened(alloc, FailingFile::new(alloc, six_blocks(alloc)?, 4)?)?;
    let mut writer = StoreWriter::new(alloc, MemSink::new(alloc), Compressor::None, 16384);
    let failed = stack_half(alloc, &mut writer, &mut reader)?;
    let file = writer.close()?.into_bytes();
    Ok(failed == 1 && file == written(alloc, 0, &[b"x", b"a", b"b", b"y"])?)
}

#[test]
fn a_read_that_fails_leaves_the_parts_before(rt: HostRuntime) -> Result<(), Fail> {
    assert!(rt; is_half_stacked(rt.alloc())?);
    Ok(())
}

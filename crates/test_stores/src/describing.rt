//! What a writer and a cache say about themselves, and which blocks an iteration looks up.

use crate::making::{opened_bytes, written};
use docstore::{
    AliveBitSet, BlockCompressor, CacheStats, Compressor, MemSink, StoreError, StoreWriter,
};
use std::alloc::Global;
use std::process::Abort;
use std::test::Fail;

#[test]
fn a_writer_describes_itself(rt: HostRuntime) -> Result<(), Fail> {
    let alloc = rt.alloc();
    let mut writer = StoreWriter::new(alloc, MemSink::new(alloc), Compressor::None, 16384);
    let is_small = writer.mem_usage() < 1048576 && writer.compressor() == Compressor::None;
    writer.store_bytes(b"abc")?;
    let is_stored = writer.num_docs() == 1 && writer.mem_usage() >= 7 && !writer.has_failed();
    assert!(rt; is_small && is_stored && writer.mem_usage() < 1048576);
    Ok(())
}

// How many blocks an iteration looks up that is dropped after this many documents, of three blocks of one each.
fn looked_up(alloc: Global, taken: usize) -> Result<usize, StoreError> {
    let mut reader = opened_bytes(alloc, written(alloc, 0, &[b"a", b"b", b"c"])?)?;
    let _given = reader.iter_raw(alloc, None).take(taken).count();
    Ok(reader.cache_stats().cache_misses)
}

#[test]
fn an_iteration_looks_up_the_blocks_that_it_came_to(rt: HostRuntime) -> Result<(), Fail> {
    for (taken, blocks) in [(0, 1), (1, 1), (2, 2), (3, 3), (4, 3)] {
        assert!(rt; looked_up(rt.alloc(), taken)? == blocks);
    }
    Ok(())
}

// How many blocks an iteration looks up, and how many documents it gives, that is dropped after this many. The first
// two of three blocks of one document each are deleted.
fn looked_up_alive(
    rt: &impl Abort,
    alloc: Global,
    taken: usize,
) -> Result<(usize, usize), StoreError> {
    let mut reader = opened_bytes(alloc, written(alloc, 0, &[b"a", b"b", b"c"])?)?;
    let alive = AliveBitSet::for_test_from_deleted_docs(alloc, &[0, 1], 3)?;
    assert!(rt; reader.num_docs() <= 3);
    let given = reader.iter_raw(alloc, Some(&alive)).take(taken).count();
    Ok((reader.cache_stats().cache_misses, given))
}

#[test]
fn an_iteration_looks_up_the_blocks_of_deleted_documents(rt: HostRuntime) -> Result<(), Fail> {
    assert!(rt; looked_up_alive(&rt, rt.alloc(), 0)? == (1, 0));
    assert!(rt; looked_up_alive(&rt, rt.alloc(), 2)? == (3, 1));
    Ok(())
}

// The file of the blocks `hello` and `happy`, which have no table, of one document each.
fn without_tables(rt: &impl Abort, alloc: Global) -> Result<Vec<u8>, StoreError> {
    let mut blocks = BlockCompressor::new(alloc, Compressor::None, MemSink::new(alloc));
    blocks.compress_block_and_write(b"hello", 1)?;
    assert!(rt; blocks.num_docs() < u32::MAX);
    blocks.compress_block_and_write(b"happy", 1)?;
    Ok(blocks.close()?.into_bytes())
}

// Why the document of this number of a file is not given.
fn refusal(alloc: Global, file: Vec<u8>, number: u32) -> Result<Option<StoreError>, StoreError> {
    let mut reader = opened_bytes(alloc, file)?;
    Ok(reader.get_document_bytes(alloc, number).err())
}

#[test]
fn blocks_without_a_table_open_and_their_documents_are_damaged(
    rt: HostRuntime,
) -> Result<(), Fail> {
    let alloc = rt.alloc();
    let file = without_tables(&rt, alloc)?;
    assert!(rt;
        file.len() == 47 && file.starts_with(b"hellohappy\x81\x87\x82\x80\x80\x81\x85\x81\x85")
    );
    assert!(rt;
        refusal(alloc, without_tables(&rt, alloc)?, 0)? == Some(StoreError::DamagedDocument(0))
    );
    assert!(rt;
        refusal(alloc, without_tables(&rt, alloc)?, 1)? == Some(StoreError::DamagedDocument(1))
    );
    assert!(rt; refusal(alloc, file, 2)? == Some(StoreError::InvalidArgument(2)));
    Ok(())
}

fn stats(num_entries: usize, cache_hits: usize, cache_misses: usize) -> CacheStats {
    CacheStats {
        num_entries,
        cache_hits,
        cache_misses,
    }
}

#[test]
fn counts_of_caches_are_summed_up_to_the_greatest(rt: HostRuntime) {
    let mut sum = CacheStats::default();
    sum += stats(1, 2, 3);
    sum += stats(usize::MAX, 4, usize::MAX - 3);
    let all = [stats(1, 2, 3), stats(4, 5, 6)]
        .into_iter()
        .sum::<CacheStats>();
    assert!(rt; sum == stats(usize::MAX, 6, usize::MAX) && all == stats(5, 7, 9));
}

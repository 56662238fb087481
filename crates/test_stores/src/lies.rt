//! Files that give their bytes while they are opened, and other bytes at each later read. The answers are those of the
//! bytes that came.

use crate::lying_file::LyingFile;
use crate::making::{is_found, is_listed, opened, opened_with_cache, written};
use docstore::{StoreError, StoreReader};
use std::alloc::Global;
use std::test::Fail;

// An open reads the footer and the index.
const READS_OF_AN_OPEN: u64 = 2;

// A store of `abc` and `def`, in a block each. Later reads lie in this many bytes at their front.
fn lying(
    alloc: Global,
    lying_bytes: usize,
    capacity: usize,
) -> Result<Box<StoreReader<LyingFile>>, StoreError> {
    let file = written(alloc, 0, &[b"abc", b"def"])?;
    let file = LyingFile::after_reads(file, READS_OF_AN_OPEN, lying_bytes);
    opened_with_cache(alloc, file, capacity)
}

// The fourth byte is the lowest of the document's start: 1, 2, 3, and then 4, past its end.
#[test]
fn a_get_answers_from_the_bytes_that_came(rt: HostRuntime) -> Result<(), Fail> {
    let alloc = rt.alloc();
    let mut reader = lying(alloc, 4, 0)?;
    assert!(rt;
        is_found(alloc, &mut reader, 0, b"cb")
            && is_found(alloc, &mut reader, 0, b"a")
            && is_found(alloc, &mut reader, 0, b"")
            && reader.get_document_bytes(alloc, 0).err() == Some(StoreError::DamagedDocument(0))
            && is_listed(alloc, &mut reader, b"!\x07;!\x07;")
    );
    Ok(())
}

#[test]
fn an_iteration_shares_the_blocks_that_are_kept(rt: HostRuntime) -> Result<(), Fail> {
    let alloc = rt.alloc();
    let mut reader = lying(alloc, 1, 2)?;
    assert!(rt;
        is_found(alloc, &mut reader, 1, b"eef")
            && is_listed(alloc, &mut reader, b"cbc;eef;")
            && is_listed(alloc, &mut reader, b"cbc;eef;")
            && reader.cache_stats().cache_misses == 2
    );
    Ok(())
}

// Why a store is not opened that gives its bytes at this many reads, and lies in this many bytes at its front then.
fn refusal(
    alloc: Global,
    reads: u64,
    lying_bytes: usize,
) -> Result<Option<StoreError>, StoreError> {
    let file = LyingFile::after_reads(written(alloc, 0, &[b"abc"])?, reads, lying_bytes);
    Ok(opened(alloc, file).err())
}

// The bytes of a version that lies have 1 xored in.
#[test]
fn a_footer_and_an_index_that_lie_are_errors(rt: HostRuntime) -> Result<(), Fail> {
    let alloc = rt.alloc();
    assert!(rt;
        refusal(alloc, 0, usize::MAX)? == Some(StoreError::BadVersion(16843010))
            && refusal(alloc, 1, 1)? == Some(StoreError::BadIndex)
            && refusal(alloc, 1, 2)? == Some(StoreError::BadIndex)
            && refusal(alloc, 1, usize::MAX)? == Some(StoreError::BadIndex)
    );
    Ok(())
}

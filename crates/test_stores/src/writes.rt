//! A document, a stacked store and another document, on an output whose writes and whose end fail in turn.

use crate::failing_sink::FailingSink;
use crate::making::{is_found, opened_bytes, written};
use docstore::{Cause, Compressor, MemFile, StoreError, StoreReader, StoreWriter};
use std::alloc::Global;
use std::test::Fail;

const FAILED: Result<(), StoreError> = Err(StoreError::Failed(Cause::Write));

/// The results of the three calls and of the close.
type Results = [Result<(), StoreError>; 4];

// The calls on an output whose call of this number fails: their results, and the output. The store is read afterwards
// as before.
fn outcome_with(
    alloc: Global,
    store: &mut StoreReader<MemFile>,
    block_size: usize,
    failing_call: u64,
) -> (Results, FailingSink) {
    let output = FailingSink::new(alloc, failing_call);
    let mut writer = StoreWriter::new(alloc, output, Compressor::None, block_size);
    let before = writer.store_bytes(b"x");
    let stacked = writer.stack(store);
    let after = writer.store_bytes(b"");
    let is_right = writer.has_failed() == after.is_err() && is_found(alloc, store, 0, b"abc");
    let after = if is_right {
        after
    } else {
        Err(StoreError::BadDocument)
    };
    match writer.close() {
        Ok(output) => ([before, stacked, after, Ok(())], output),
        Err(refusal) => ([before, stacked, after, Err(refusal.error)], refusal.output),
    }
}

fn outcome(
    alloc: Global,
    block_size: usize,
    failing_call: u64,
) -> Result<(Results, FailingSink), StoreError> {
    let mut store = opened_bytes(alloc, written(alloc, 0, &[b"abc"])?)?;
    Ok(outcome_with(alloc, &mut store, block_size, failing_call))
}

// Whether the error is returned by the call that fails and by each later one, and nothing is written after it. The
// first two writes are what the stacking sends out, the block of `x` and the store's data; the others the close makes.
fn is_right(alloc: Global, failing_call: u64, file: &[u8]) -> Result<bool, StoreError> {
    let (results, output) = outcome(alloc, 16384, failing_call)?;
    let expected = if failing_call < 3 {
        [Ok(()), FAILED, FAILED, FAILED]
    } else {
        [Ok(()), Ok(()), Ok(()), FAILED]
    };
    Ok(
        results == expected
            && file.starts_with(output.as_slice())
            && !output.is_terminated()
            && output.calls() == failing_call,
    )
}

// The six writes are the two of the stacking, and those of the last block, the index and the footer.
#[test]
fn each_write_and_the_end_fail_in_turn(rt: HostRuntime) -> Result<(), Fail> {
    let (results, whole) = outcome(rt.alloc(), 16384, 0)?;
    let calls = whole.calls();
    assert!(rt; results == [Ok(()); 4] && whole.is_terminated() && whole.as_slice().len() == 67);
    assert!(rt; calls > 5);
    for failing_call in 1..=calls {
        assert!(rt; is_right(rt.alloc(), failing_call, whole.as_slice())?);
    }
    Ok(())
}

#[test]
fn the_first_write_fails_where_each_document_is_a_block(rt: HostRuntime) -> Result<(), Fail> {
    let (results, _) = outcome(rt.alloc(), 0, 1)?;
    assert!(rt; results == [FAILED; 4]);
    Ok(())
}

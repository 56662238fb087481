//! Merges that end in an error, of a read or of a write; and what was taken before.

use crate::failing_sink::FailingSink;
use crate::making::written;
use crate::merge_inputs::{Source, inputs, six_blocks};
use docstore::{Cause, Compressor, StoreError, StoreWriter};
use std::alloc::Global;
use std::test::Fail;
use store_merge::{MergeError, merge, merge_in_parts};

/// The error that a merge returns, if there is one, how many documents it took, and whether the writer has failed.
type Taken = (Option<MergeError>, u32, bool);

// What a merge of these stores takes, on an output whose call of this number fails.
fn taken(
    alloc: Global,
    sources: &[Source<'_>],
    block_size: usize,
    failing_call: u64,
) -> Result<Taken, StoreError> {
    let mut inputs = inputs(alloc, sources)?;
    let output = FailingSink::new(alloc, failing_call);
    let mut writer = StoreWriter::new(alloc, output, Compressor::None, block_size);
    let refusal = merge(alloc, &mut writer, &mut inputs).err();
    Ok((refusal, writer.num_docs(), writer.has_failed()))
}

// What is taken where a merge ends at an input, or at none, for a read that failed.
fn unread(input: Option<usize>, documents: u32) -> Taken {
    let error = match input {
        Some(input) => Some(MergeError {
            error: StoreError::Read,
            input,
        }),
        None => None,
    };
    (error, documents, false)
}

// The stores are six blocks, maybe without the first one's document, and one block. An opening makes two reads, a
// stacking one, and a copy one for each block, also for one of which no document is alive.
#[test]
fn a_read_that_fails_ends_a_merge(rt: HostRuntime) -> Result<(), Fail> {
    let alloc = rt.alloc();
    let (six, one) = (six_blocks(alloc)?, written(alloc, 16384, &[b"abc"])?);
    let cases: [(u64, &[u32], u64, Taken); 6] = [
        (3, &[], 0, unread(Some(0), 0)),
        (0, &[], 3, unread(Some(1), 6)),
        (0, &[], 0, unread(None, 7)),
        (3, &[0], 0, unread(None, 6)),
        (4, &[0], 0, unread(Some(0), 0)),
        (8, &[0], 0, unread(Some(0), 4)),
    ];
    for (first_read, deleted, second_read, expected) in cases {
        let sources: [Source<'_>; 2] = [(&six, first_read, deleted), (&one, second_read, &[])];
        assert!(rt; taken(alloc, &sources, 16384, 0)? == expected);
    }
    Ok(())
}

// Each document is a block.
#[test]
fn a_write_that_fails_ends_a_merge(rt: HostRuntime) -> Result<(), Fail> {
    let alloc = rt.alloc();
    let (six, one) = (six_blocks(alloc)?, written(alloc, 16384, &[b"abc"])?);
    let sources: [Source<'_>; 2] = [(&six, 0, &[]), (&one, 0, &[])];
    let error = StoreError::Failed(Cause::Write);
    for (failing_call, input) in [(1, 0), (2, 1)] {
        let (refusal, _, has_failed) = taken(alloc, &sources, 0, failing_call)?;
        assert!(rt; refusal == Some(MergeError { error, input }) && has_failed);
    }
    Ok(())
}

// What comes of a merge of twelve blocks in parts of two, where the second file's third part is not read.
fn half_merged(alloc: Global) -> Result<Taken, StoreError> {
    let six = six_blocks(alloc)?;
    let mut inputs = inputs(alloc, &[(&six, 0, &[]), (&six, 5, &[])])?;
    let output = FailingSink::new(alloc, 0);
    let mut writer = StoreWriter::new(alloc, output, Compressor::None, 16384);
    let refusal = merge_in_parts(alloc, &mut writer, &mut inputs, 18).err();
    Ok((refusal, writer.num_docs(), writer.has_failed()))
}

#[test]
fn a_read_that_fails_leaves_the_parts_that_were_merged(rt: HostRuntime) -> Result<(), Fail> {
    assert!(rt; half_merged(rt.alloc())? == unread(Some(1), 10));
    Ok(())
}

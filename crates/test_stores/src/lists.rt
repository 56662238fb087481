//! Whole lists of calls, and the functions of the main theorem.

use crate::making::{opened_bytes, opened_with_cache, written};
use docstore::{
    AliveBitSet, Answer, BlockCompressor, Compressor, Field, MemFile, MemSink, ReadCall,
    RecordDocument, Schema, StoreCommand, StoreError, answer_all, write_store,
};
use main_theorem::{
    CountedBlock, IndexAnswer, Workload, index_read_and_written, stacked_in_two_orders,
    written_and_asked,
};
use std::alloc::Global;
use std::process::Abort;
use std::test::Fail;

type Commands = Vec<StoreCommand<RecordDocument, MemFile>>;

const RESULTS: [Result<(), StoreError>; 3] = [Ok(()), Ok(()), Err(StoreError::Unserializable)];

// A record of the field 5.
fn record(alloc: Global) -> Result<RecordDocument, StoreError> {
    let mut record = RecordDocument::new(alloc);
    record.add(Field::from_field_id(5), b"z")?;
    Ok(record)
}

// `x`, a store of `abc`, and a record of the field 5.
fn commands(alloc: Global) -> Result<Commands, StoreError> {
    let mut commands = Vec::new(alloc);
    commands.push(StoreCommand::Bytes(Vec::from_slice(alloc, b"x")?))?;
    let reader = opened_bytes(alloc, written(alloc, 16384, &[b"abc"])?)?;
    commands.push(StoreCommand::Stack(Box::into_inner(reader)))?;
    commands.push(StoreCommand::Doc(record(alloc)?))?;
    Ok(commands)
}

// Whether a list of calls has its results, and its file is that of the calls that were taken.
fn is_written(alloc: Global) -> Result<bool, StoreError> {
    let schema = Schema::with_fields(1);
    match write_store(
        alloc,
        MemSink::new(alloc),
        16384,
        &schema,
        &mut commands(alloc)?,
    ) {
        Ok(report) => {
            let has_results = report.results.as_slice() == RESULTS.as_slice();
            Ok(has_results && report.output.into_bytes() == written(alloc, 0, &[b"x", b"abc"])?)
        }
        Err(refusal) => Err(refusal.error),
    }
}

#[test]
fn a_list_of_calls_is_written(rt: HostRuntime) -> Result<(), Fail> {
    assert!(rt; is_written(rt.alloc())?);
    Ok(())
}

// The bytes that a get returned, or its error.
fn got(answer: &Answer) -> Option<Result<&[u8], StoreError>> {
    match answer {
        Answer::Got(Ok(bytes)) => Some(Ok(bytes.as_slice())),
        Answer::Got(Err(error)) => Some(Err(*error)),
        Answer::Listed(_) => None,
    }
}

// Gets of the first three ids, and an iteration whose live set has all ids but the first, and no more.
#[derive(Drop)]
struct GetsAndLive;

impl Workload for GetsAndLive {
    fn calls(&mut self, alloc: Global, num_docs: u32) -> Result<Vec<ReadCall>, StoreError> {
        let mut alive = AliveBitSet::all(alloc, num_docs)?;
        alive.delete(0);
        let mut calls = Vec::new(alloc);
        calls.push(ReadCall::Bytes(0))?;
        calls.push(ReadCall::Bytes(1))?;
        calls.push(ReadCall::Bytes(2))?;
        calls.push(ReadCall::Iter {
            alive: Some(alive),
            take: 3,
        })?;
        Ok(calls)
    }
}

// Whether gets of the first three ids returned `x`, `abc` and an error, and the iteration `abc` alone.
fn are_right(answers: &[Answer]) -> bool {
    match answers {
        [first, second, third, Answer::Listed(items)] => {
            got(first) == Some(Ok(b"x".as_slice()))
                && got(second) == Some(Ok(b"abc".as_slice()))
                && got(third) == Some(Err(StoreError::InvalidArgument(2)))
                && items.len() == 1
        }
        _ => false,
    }
}

// Whether what was written has its results, and is answered with both capacities.
fn is_answered(alloc: Global) -> Result<bool, StoreError> {
    let schema = Schema::with_fields(1);
    let asked = written_and_asked(
        alloc,
        0,
        8,
        &schema,
        &mut commands(alloc)?,
        0,
        100,
        &mut GetsAndLive,
    )?;
    let has_results = asked.results.as_slice() == RESULTS.as_slice();
    Ok(has_results && are_right(&asked.first.answers) && are_right(&asked.second.answers))
}

#[test]
fn what_was_written_is_answered_with_every_capacity(rt: HostRuntime) -> Result<(), Fail> {
    assert!(rt; is_answered(rt.alloc())?);
    Ok(())
}

// Whether calls are answered through a cache of one block, which has the block of the last call then.
fn is_answered_through_one_block(alloc: Global) -> Result<bool, StoreError> {
    let file = MemFile::new(alloc, written(alloc, 0, &[b"a", b"b"])?)?;
    let mut reader = opened_with_cache(alloc, file, 1)?;
    let first = ReadCall::Iter {
        alive: None,
        take: 1,
    };
    let calls = [
        ReadCall::Bytes(1),
        first,
        ReadCall::Bytes(5),
        ReadCall::Bytes(0),
    ];
    let answers = answer_all(alloc, &mut reader, &calls)?;
    let are_right = match answers.as_slice() {
        [second, Answer::Listed(items), missing, first] => {
            got(second) == Some(Ok(b"b".as_slice()))
                && items.len() == 1
                && got(missing) == Some(Err(StoreError::InvalidArgument(5)))
                && got(first) == Some(Ok(b"a".as_slice()))
        }
        _ => false,
    };
    let stats = reader.cache_stats();
    let has_counted = stats.num_entries == 1 && stats.cache_hits == 1 && stats.cache_misses == 2;
    Ok(are_right && has_counted && reader.peek_lru() == Some(0))
}

#[test]
fn a_list_is_answered_through_a_cache_of_one_block(rt: HostRuntime) -> Result<(), Fail> {
    assert!(rt; is_answered_through_one_block(rt.alloc())?);
    Ok(())
}

#[test]
fn two_orders_of_stacking_give_one_file(rt: HostRuntime) -> Result<(), Fail> {
    let alloc = rt.alloc();
    let first = written(alloc, 16384, &[b"a"])?;
    let second = written(alloc, 16384, &[b"b", b"c"])?;
    let third = written(alloc, 0, &[b"d", b"e"])?;
    let (left, right) = stacked_in_two_orders(alloc, 16384, 8, &first, &second, &third)?;
    assert!(rt; left == right && left.len() == 82);
    Ok(())
}

// The file of tantivy's test of a long index: 1000 blocks of one document, which end at the squares from 1 to 1000000.
fn squares(rt: &impl Abort, alloc: Global) -> Result<Vec<u8>, StoreError> {
    let zeros = [0u8; 2000];
    let mut blocks = BlockCompressor::new(alloc, Compressor::None, MemSink::new(alloc));
    for i in 0..1000usize {
        assert!(rt; blocks.num_docs() < u32::MAX);
        blocks.compress_block_and_write(&zeros[..2 * i + 1], 1)?;
    }
    Ok(blocks.close()?.into_bytes())
}

// Whether each seek found the checkpoint of this document, by at most ten looks.
fn found(answer: &IndexAnswer<CountedBlock>, first: Option<u32>) -> bool {
    let found = match &answer.found {
        Some(checkpoint) => Some(checkpoint.doc_range.start),
        None => None,
    };
    let steps = answer.steps.count();
    found == first
        && answer.counted == answer.found
        && answer.near == answer.found
        && (1..=10).contains(&steps)
}

// The layers are 9, 40, 327 and 3652 bytes long.
#[test]
fn a_long_index_is_read_and_written(rt: HostRuntime) -> Result<(), Fail> {
    let file = squares(&rt, rt.alloc())?;
    let part = file.get(1000000..1004035).unwrap_or(&[]);
    assert!(rt; part.starts_with(&[0x84, 0x89, 0xb1, 0x78, 0x82, 0x3c, 0x9f]));
    for (target, first) in [(0, Some(0)), (999, Some(999)), (1000, None)] {
        let answer = index_read_and_written::<CountedBlock>(rt.alloc(), part, 8, target, 3)?;
        assert!(rt; found(&answer, first) && answer.written.as_slice() == part);
    }
    Ok(())
}

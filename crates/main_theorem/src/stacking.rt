//! Stores stacked in two orders.
ghost use Rattle.std.specs.Prelude.{◌≡◌, ◌+◌, ◌<◌, ◌≤◌, ◌^◌, List, ◌++◌, Ok, Err, MatchResult};
ghost use Rattle.store_format.specs.StoreFile.{StoreBlock, docs_in, file};
ghost use Rattle.docstore.specs.Writer.{num_docs, with_failures};
ghost use Rattle.docstore.specs.Stacking.{with_store};
ghost use Rattle.main_theorem.specs.Stacking.{IsNewStore};
ghost use Rattle.main_theorem.specs.Want.{IsWant};

use crate::opening::opened;
use docstore::{Compressor, MemSink, StoreError, StoreWriter, laws};
use std::alloc::Global;

// Appends the store of a file to what the writer has.
fn stack_file(
    writer: &mut StoreWriter<MemSink>,
    alloc: Global,
    bytes: &[u8],
) -> Result<(), StoreError>
    ensures stacked { (bs : List StoreBlock) → IsNewStore bytes.now bs → num_docs writer.old + docs_in bs < 2 ^ 32
        → MatchResult result
        (λ _. writer.new ≡ with_failures writer.new.output.failures (with_store writer.old bs)) IsWant }
{
    laws::stores_are_apart();
    let mut reader = opened(alloc, bytes, 0)?;
    writer.stack(&mut reader)
}

// The file of two stores, stacked one after the other.
fn stacked(
    alloc: Global,
    block_size: usize,
    period: u8,
    first: &[u8],
    second: &[u8],
) -> Result<Vec<u8>, StoreError>
    requires least { 2 ≤ period }
    requires most { period ≤ 64 }
    ensures joined { (bs cs : List StoreBlock) → IsNewStore first.now bs → IsNewStore second.now cs
        → docs_in bs + docs_in cs < 2 ^ 32
        → MatchResult result (λ v. (v.items ≡ file period 3 (bs ++ cs)) × IsNewStore v.items (bs ++ cs)) IsWant }
{
    let mut writer = StoreWriter::with_period(
        alloc,
        MemSink::new(alloc),
        Compressor::None,
        block_size,
        period,
    );
    stack_file(&mut writer, alloc, first)?;
    stack_file(&mut writer, alloc, second)?;
    match writer.close() {
        Ok(output) => Ok(output.into_bytes()),
        Err(refusal) => Err(refusal.error),
    }
}

/// Three stores A, B and C, stacked as (A, B), C and as A, (B, C): both give the file of their blocks, joined.
pub fn stacked_in_two_orders(
    alloc: Global,
    block_size: usize,
    period: u8,
    first: &[u8],
    second: &[u8],
    third: &[u8],
) -> Result<(Vec<u8>, Vec<u8>), StoreError>
    requires least { 2 ≤ period }
    requires most { period ≤ 64 }
    ensures joined { (bs cs ds : List StoreBlock)
        → IsNewStore first.now bs → IsNewStore second.now cs → IsNewStore third.now ds
        → docs_in (bs ++ cs ++ ds) < 2 ^ 32
        → MatchResult result
        (λ files. (files.0.items ≡ file period 3 (bs ++ cs ++ ds)) × (files.1.items ≡ file period 3 (bs ++ cs ++ ds)))
        IsWant }
{
    let front = stacked(alloc, block_size, period, first, second)?;
    let left = stacked(alloc, block_size, period, &front, third)?;
    let back = stacked(alloc, block_size, period, second, third)?;
    let right = stacked(alloc, block_size, period, first, &back)?;
    Ok((left, right))
}

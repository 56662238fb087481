//! Whole lists of calls, from the writing to the answers.
ghost use Rattle.std.specs.Prelude.{◌≡◌, ◌≤◌, ◌⊎◌, ℕ, List, IfOk, IfErr};
ghost use Rattle.std.specs.List.{AllByRecursion};
ghost use Rattle.store_reader.specs.CallAnswers.{CanAnswer};
ghost use Rattle.store_reader.specs.Opening.{IsSomeStore};
ghost use Rattle.store_format.specs.Slots.{slots};
ghost use Rattle.store_format.specs.StoreFile.{StoreBlock, docs_in, IsStore};
ghost use Rattle.main_theorem.specs.Lists.{Answers, IsAsked};
ghost use Rattle.main_theorem.specs.Want.{IsWant};

use crate::opening::opened;
use docstore::{
    Answer, Document, FileHandle, MemFile, MemSink, ReadCall, Schema, StoreCommand, StoreError,
    StoreReader, WriteReport, answer_all, any_lacks_memory, laws, write_store_with_period,
};
use std::alloc::Global;
use std::snapshot::Snapshot;

/// Which reading calls are made on a store, once it is known how many documents it has.
pub trait Workload {
    /// The calls on a store with this number of documents, which all their live sets reach.
    fn calls(&mut self, alloc: Global, num_docs: u32) -> Result<Vec<ReadCall>, StoreError>
        ensures sets { IfOk result (λ calls. AllByRecursion (CanAnswer num_docs) calls.items) }
        ensures refused { IfErr result (λ e. e ≡ StoreError.Memory) };
}

/// What a reader returned to a list of reading calls.
#[derive(Drop)]
pub struct Answered {
    /// The reader after the calls. It takes no memory: only clauses read it.
    pub reader: Snapshot<StoreReader<MemFile>>,
    pub answers: Vec<Answer>,
}

/// What a list of writing calls returned, and what two readers of its file returned to a list of reading calls.
#[derive(Drop)]
pub struct Asked {
    /// The bytes of the file that was written.
    pub file: Vec<u8>,
    pub results: Vec<Result<(), StoreError>>,
    pub calls: Vec<ReadCall>,
    pub first: Answered,
    pub second: Answered,
}

// How many documents the store of these bytes has.
fn count_of(alloc: Global, bytes: &[u8]) -> Result<u32, StoreError>
    ensures count { (period version : ℕ) (bs : List StoreBlock) → IsStore period bytes.now version bs
        → IfOk result (λ count. count ≡ docs_in bs) }
    ensures refused { IfErr result (λ e. (e ≡ StoreError.Memory) ⊎ (IsSomeStore bytes.now → ⊥)) }
{
    laws::stores_are_apart();
    let reader = opened(alloc, bytes, 0)?;
    Ok(reader.num_docs())
}

// What a reader of the file of these bytes answers. An answer that lacks memory refuses the list.
fn answers_of(
    alloc: Global,
    bytes: &[u8],
    capacity: usize,
    calls: &[ReadCall],
) -> Result<Answered, StoreError>
    requires sets { (period version : ℕ) (bs : List StoreBlock) → IsStore period bytes.now version bs
        → AllByRecursion (CanAnswer (docs_in bs)) calls.now }
    ensures exact { (period version : ℕ) (bs : List StoreBlock) → IsStore period bytes.now version bs
        → IfOk result (Answers bytes.now capacity (slots bs) calls.now) }
    ensures refused { IfErr result (λ e. (e ≡ StoreError.Memory) ⊎ (IsSomeStore bytes.now → ⊥)) }
{
    laws::stores_are_apart();
    laws::answers_are_exact();
    let mut reader = opened(alloc, bytes, capacity)?;
    let answers = answer_all(alloc, &mut reader, calls)?;
    if any_lacks_memory(&answers) {
        return Err(StoreError::Memory);
    }
    Ok(Answered {
        reader: Snapshot::of(&reader),
        answers,
    })
}

// The calls of a workload on the file of these bytes, and what readers with these two capacities answer.
fn answers_to<W: Workload>(
    alloc: Global,
    bytes: &[u8],
    first_capacity: usize,
    second_capacity: usize,
    workload: &mut W,
) -> Result<(Vec<ReadCall>, Answered, Answered), StoreError>
    ensures first { (period version : ℕ) (bs : List StoreBlock) → IsStore period bytes.now version bs
        → IfOk result (λ r. Answers bytes.now first_capacity (slots bs) r.0.items r.1) }
    ensures second { (period version : ℕ) (bs : List StoreBlock) → IsStore period bytes.now version bs
        → IfOk result (λ r. Answers bytes.now second_capacity (slots bs) r.0.items r.2) }
    ensures refused { IfErr result (λ e. (e ≡ StoreError.Memory) ⊎ (IsSomeStore bytes.now → ⊥)) }
{
    let count = count_of(alloc, bytes)?;
    let calls = workload.calls(alloc, count)?;
    let first = answers_of(alloc, bytes, first_capacity, &calls)?;
    let second = answers_of(alloc, bytes, second_capacity, &calls)?;
    Ok((calls, first, second))
}

/// Writes the commands into memory, opens the file twice, with caches of these capacities, and makes the calls of the
/// workload on both readers.
///
/// The file is that of the accepted commands, of this block size and period, and both readers are opened over it. Each
/// answer is that of the slots of these commands, whatever the block size, the period and the capacities. The only
/// errors are `Memory` and a failed growth of the output.
pub fn written_and_asked<D: Document, H: FileHandle, W: Workload>(
    alloc: Global,
    block_size: usize,
    period: u8,
    schema: &Schema,
    commands: &mut [StoreCommand<D, H>],
    first_capacity: usize,
    second_capacity: usize,
    workload: &mut W,
) -> Result<Asked, StoreError>
    requires least { 2 ≤ period }
    requires most { period ≤ 64 }
    ensures answers { IfOk result (IsAsked period block_size first_capacity second_capacity
        (λ d. D.doc_bytes d schema.now) commands.old commands.new) }
    ensures refused { IfErr result IsWant }
{
    laws::stores_are_apart();
    let output = MemSink::new(alloc);
    let report = match write_store_with_period(
        alloc, output, block_size, period, schema, commands,
    ) {
        Ok(report) => report,
        Err(refusal) => return Err(refusal.error),
    };
    let WriteReport { output, results } = report;
    let file = output.into_bytes();
    let (calls, first, second) = answers_to(
        alloc,
        &file,
        first_capacity,
        second_capacity,
        workload,
    )?;
    Ok(Asked {
        file,
        results,
        calls,
        first,
        second,
    })
}

//! The position of an iteration over a reader's documents, and how it goes on.
ghost use Rattle.std.specs.Prelude.{◌≡◌, ◌≤◌, ◌<◌, ◌⊎◌, ◌+◌, true, Some, Err, length, slice_get, slice_range, take};
ghost use Rattle.std.specs.Prelude.{IsSome, IsSomeAnd, MatchOption};
ghost use Rattle.layered_index.specs.declared.checkpoint.Checkpoint.{Checkpoint};
ghost use Rattle.store_reader.specs.Iteration.{is_in};
ghost use Rattle.store_reader.specs.Reading.{IsSameStore, num_docs};
ghost use Rattle.store_reader.specs.Walking.{set_in, taken_last, IsBlockTaken, StandsIn, IsWalk, LooksAlong, WalksTo};
ghost use Rattle.store_reader.specs.Walking.{IsSteadyBetween, AnswersOf};

use crate::reader::StoreReader;
use crate::slot::document_in;
use std::alloc::Global;
use std::marker::PhantomData;
use store_base::{AliveBitSet, DocId, DocumentDeserialize, FileHandle, OwnedBytes, StoreError};

/// The position of an iteration: an id, in the block that it looked up last.
#[derive(Drop)]
pub struct Walk {
    pub(crate) next: DocId,
    pub(crate) place: usize,
    pub(crate) first: DocId,
    pub(crate) end: DocId,
    pub(crate) block: Result<OwnedBytes, StoreError>,
}

/// The same, where each document is read as a type.
#[derive(Drop)]
pub struct DocWalk<D: DocumentDeserialize> {
    pub(crate) raw: Walk,
    pub(crate) document: PhantomData<D>,
}

// Before the first block. As long as `place` is 0 there is no block, and `block` is not read.
fn new_walk() -> Walk
    ensures { result ≡ record { next = 0; place = 0; first = 0; end = 0; block = Err StoreError.Memory } }
{
    Walk {
        next: 0,
        place: 0,
        first: 0,
        end: 0,
        block: Err(StoreError::Memory),
    }
}

// Looks the next block up. The walk is at its first document.
fn enter_next<H: FileHandle>(reader: &mut StoreReader<H>, alloc: Global, walk: &mut Walk)
    requires walk { IsWalk reader.old walk.old }
    requires here { walk.old.next ≡ walk.old.end }
    requires more { walk.old.next < num_docs reader.old }
    ensures walk { IsWalk reader.new walk.new }
    ensures taken { (c : Checkpoint) × (slice_get reader.old.checkpoints walk.old.place ≡ Some c)
        × (c.doc_range.start ≡ walk.old.next)
        × IsSomeAnd (taken_last walk.new) (λ block. IsBlockTaken reader.old walk.old.next c block reader.new) }
    ensures next { walk.new.next ≡ walk.old.next }
    ensures inside { walk.new.next < walk.new.end }
    ensures place { walk.new.place ≡ walk.old.place + 1 }
{
    let entered = reader.enter(alloc, walk.place);
    walk.place += 1;
    walk.first = entered.first;
    walk.end = entered.end;
    walk.block = entered.block;
}

// Into the block of the next document, where the walk is not in it yet.
fn step_in<H: FileHandle>(reader: &mut StoreReader<H>, alloc: Global, walk: &mut Walk)
    requires walk { IsWalk reader.old walk.old }
    requires more { walk.old.next < num_docs reader.old }
    ensures walk { IsWalk reader.new walk.new }
    ensures next { walk.new.next ≡ walk.old.next }
    ensures inside { walk.new.next < walk.new.end }
    ensures later { walk.old.place ≤ walk.new.place }
    ensures looks { LooksAlong (slice_range reader.old.checkpoints walk.old.place walk.new.place)
        reader.old (taken_last walk.old) reader.new (taken_last walk.new) }
{
    if walk.next < walk.end {
        return;
    }
    enter_next(reader, alloc, walk);
}

// Before the first document, in its block if there is one.
pub(crate) fn first_walk<H: FileHandle>(reader: &mut StoreReader<H>, alloc: Global) -> Walk
    ensures walk { IsWalk reader.new result }
    ensures next { result.next ≡ 0 }
    ensures place { result.place ≡ length (take 1 reader.old.checkpoints) }
    ensures looks { LooksAlong (take 1 reader.old.checkpoints)
        reader.old None reader.new (taken_last result) }
{
    let mut walk = new_walk();
    if reader.num_docs() == 0 {
        return walk;
    }
    enter_next(reader, alloc, &mut walk);
    walk
}

// Whether a document is alive, by a set or by none.
fn is_alive(alive: &[AliveBitSet], doc_id: DocId) -> bool
    ensures { result ≡ is_in (set_in alive.now) doc_id }
{
    match alive.first() {
        Some(alive) => alive.is_alive(doc_id),
        None => true,
    }
}

// Goes on to the next document that is alive, and past it.
pub(crate) fn walk_on<H: FileHandle>(
    reader: &mut StoreReader<H>,
    alloc: Global,
    alive: &[AliveBitSet],
    walk: &mut Walk,
) -> Option<DocId>
    requires { IsWalk reader.old walk.old }
    ensures walk { IsWalk reader.new walk.new }
    ensures same { IsSameStore reader.old reader.new }
    ensures found { MatchOption result
        (WalksTo (set_in alive.now) reader.old walk.old (num_docs reader.old) reader.new walk.new
        × (walk.new.next ≡ num_docs reader.old))
        (λ id. WalksTo (set_in alive.now) reader.old walk.old id reader.new walk.new
        × (id < num_docs reader.old) × (is_in (set_in alive.now) id ≡ true) × (walk.new.next ≡ id + 1)
        × IsSomeAnd (taken_last walk.new) (StandsIn reader.old id walk.new.first)) }
    ensures steady { MatchOption result
        (IsSteadyBetween (set_in alive.now) reader.old reader.new walk.old.next (num_docs reader.old))
        (λ id. (taken_last walk.new ≡ Some (Err StoreError.Read))
        ⊎ IsSteadyBetween (set_in alive.now) reader.old reader.new walk.old.next id) }
{
    for doc_id in walk.next..reader.num_docs() {
        step_in(reader, alloc, walk);
        walk.next = doc_id + 1;
        if is_alive(alive, doc_id) {
            return Some(doc_id);
        }
    }
    None
}

// What a document answers of the block that was taken.
pub(crate) fn answer_of(walk: &Walk, doc_id: DocId) -> Result<OwnedBytes, StoreError>
    requires block { 0 < walk.now.place }
    requires above { walk.now.first ≤ doc_id }
    ensures { AnswersOf doc_id walk.now result }
{
    match &walk.block {
        Ok(block) => document_in(block, doc_id, doc_id - walk.first),
        Err(error) => Err(*error),
    }
}

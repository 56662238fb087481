//! Whole lists of reading calls.
ghost use Rattle.std.specs.Prelude.{◌≡◌, ◌≤◌, ◌<◌, ◌↔◌, Contains, IsTrue, IfOk, IfSome, IsErrOf, IsOkUnless, length};
ghost use Rattle.std.specs.List.{AllByRecursion, AllZip};
ghost use Rattle.store_base.specs.Counts.{HasRisen};
ghost use Rattle.store_reader.specs.CallAnswers.{CanAnswer, HasAlive, ShowsEachBlock, IsAnswer, AreAnswers, HasRefusal};
ghost use Rattle.store_reader.specs.CallAnswers.{IsNotPast, RefusesPast, keys_of_call, keys_of_calls, results_of};
ghost use Rattle.store_reader.specs.Iteration.{looked_along};
ghost use Rattle.store_reader.specs.CallList.{AreItems, first_alive};
ghost use Rattle.store_reader.specs.LookLaws.{AreLookUps};
ghost use Rattle.store_reader.specs.Reading.{IsSameStore, num_docs, store_of};
ghost use Rattle.store_format.specs.Slots.{slots};
ghost use Rattle.store_reader.specs.Walking.{set_of};

use crate::reader::StoreReader;
use std::alloc::Global;
use store_base::{AliveBitSet, DocId, FileHandle, OwnedBytes, StoreError};

/// A call of a reader.
#[derive(Drop)]
pub enum ReadCall {
    /// `StoreReader::get_document_bytes`
    Bytes(DocId),
    /// `StoreReader::iter_raw`, of which `take` items are taken before it is dropped.
    Iter {
        alive: Option<AliveBitSet>,
        take: usize,
    },
}

/// What a call of a reader gave.
#[derive(Drop)]
pub enum Answer {
    Got(Result<OwnedBytes, StoreError>),
    Listed(Vec<Result<OwnedBytes, StoreError>>),
}

impl Answer {
    /// Whether memory was refused to the get, or to an item of the iteration.
    pub fn lacks_memory(&self) -> bool
        ensures { IsTrue result ↔ Contains (results_of self.now) (Err StoreError.Memory) }
    {
        match self {
            Answer::Got(outcome) => is_lack_of_memory(outcome),
            Answer::Listed(items) => items.iter().any(is_lack_of_memory),
        }
    }
}

// Whether memory was refused.
fn is_lack_of_memory(outcome: &Result<OwnedBytes, StoreError>) -> bool
    ensures { IsTrue result ↔ IsErrOf outcome.now StoreError.Memory }
{
    matches!(outcome, Err(StoreError::Memory))
}

/// Whether memory was refused to a get, or to an item of an iteration.
pub fn any_lacks_memory(answers: &[Answer]) -> bool
    ensures { IsTrue result ↔ HasRefusal answers.now StoreError.Memory }
{
    answers.iter().any(Answer::lacks_memory)
}

/// Makes the calls in order. If a document is refused, the error is the answer, and the next call is made.
///
/// The blocks of the documents and of the iterations are looked up in this order, and the file is read once for each
/// that the cache doesn't keep. This call returns `Memory` only if the lists of answers can't grow. The answer to a get
/// is `InvalidArgument` exactly if its id is at or past the count. If any answer or item is `Read`, the file's count of
/// failures has risen in the call. If none is, it has stayed, provided that each block that is looked up has a document
/// that is answered: an iteration looks a block up also if none of its documents is alive, and returns nothing of it.
pub fn answer_all<H: FileHandle>(
    alloc: Global,
    reader: &mut StoreReader<H>,
    calls: &[ReadCall],
) -> Result<Vec<Answer>, StoreError>
    requires { AllByRecursion (CanAnswer (num_docs reader.old)) calls.now }
    ensures answers { IfOk result (λ v. IsTrue reader.old.file.honest
        → AreAnswers (slots (store_of reader.old)) calls.now v.items) }
    ensures past { IfOk result (λ v. AllZip (RefusesPast (num_docs reader.old)) calls.now v.items) }
    ensures failed { IfOk result (λ v. HasRefusal v.items StoreError.Read
        → HasRisen reader.old.file.failures reader.new.file.failures) }
    ensures steady { IfOk result (λ v. AllByRecursion (ShowsEachBlock reader.old.checkpoints) calls.now
        → (HasRefusal v.items StoreError.Read → ⊥) → reader.new.file.failures ≡ reader.old.file.failures) }
    ensures looks { IfOk result (λ v.
        AreLookUps (keys_of_calls reader.old.checkpoints calls.now) reader.old reader.new) }
    ensures memory { IsOkUnless result StoreError.Memory }
    ensures same_store { IsSameStore reader.old reader.new }
{
    let mut answers = Vec::new(alloc);
    for call in calls {
        let answer = answer_one(alloc, reader, call)?;
        answers.push(answer)?;
    }
    Ok(answers)
}

// Makes one call.
fn answer_one<H: FileHandle>(
    alloc: Global,
    reader: &mut StoreReader<H>,
    call: &ReadCall,
) -> Result<Answer, StoreError>
    requires { CanAnswer (num_docs reader.old) call.now }
    ensures answer { IfOk result (λ answer. IsTrue reader.old.file.honest
        → IsAnswer (slots (store_of reader.old)) call.now answer) }
    ensures past { IfOk result (RefusesPast (num_docs reader.old) call.now) }
    ensures failed { IfOk result (λ answer. Contains (results_of answer) (Err StoreError.Read)
        → HasRisen reader.old.file.failures reader.new.file.failures) }
    ensures steady { IfOk result (λ answer. ShowsEachBlock reader.old.checkpoints call.now
        → (Contains (results_of answer) (Err StoreError.Read) → ⊥)
        → reader.new.file.failures ≡ reader.old.file.failures) }
    ensures looks { IfOk result (λ answer.
        AreLookUps (keys_of_call reader.old.checkpoints call.now) reader.old reader.new) }
    ensures memory { IsOkUnless result StoreError.Memory }
    ensures same_store { IsSameStore reader.old reader.new }
{
    match call {
        ReadCall::Bytes(doc_id) => Ok(Answer::Got(reader.get_document_bytes(alloc, *doc_id))),
        ReadCall::Iter { alive, take } => {
            let items = list_items(alloc, reader, alive.as_ref(), *take)?;
            Ok(Answer::Listed(items))
        }
    }
}

// The first items of an iteration, which is dropped then.
fn list_items<H: FileHandle>(
    alloc: Global,
    reader: &mut StoreReader<H>,
    alive: Option<&AliveBitSet>,
    count: usize,
) -> Result<Vec<Result<OwnedBytes, StoreError>>, StoreError>
    requires { IfSome alive (λ set. num_docs reader.old ≤ length set.now) }
    ensures items { IfOk result (λ v. IsTrue reader.old.file.honest
        → AreItems (first_alive count (slots (store_of reader.old)) (set_of alive.entry)) v.items) }
    ensures past { IfOk result (λ v. AllByRecursion IsNotPast v.items) }
    ensures failed { IfOk result (λ v. Contains v.items (Err StoreError.Read)
        → HasRisen reader.old.file.failures reader.new.file.failures) }
    ensures steady { IfOk result (λ v. 0 < count → AllByRecursion (HasAlive (set_of alive.entry)) reader.old.checkpoints
        → (Contains v.items (Err StoreError.Read) → ⊥) → reader.new.file.failures ≡ reader.old.file.failures) }
    ensures looks { IfOk result (λ v. AreLookUps (looked_along reader.old.checkpoints (set_of alive.entry) count)
        reader.old reader.new) }
    ensures memory { IsOkUnless result StoreError.Memory }
    ensures same_store { IsSameStore reader.old reader.new }
{
    let most = count.min(reader.num_docs() as usize);
    let mut items = Vec::new(alloc);
    let mut iter = reader.iter_raw(alloc, alive);
    while items.len() < most {
        let Some(item) = iter.next() else {
            return Ok(items);
        };
        items.push(item)?;
    }
    Ok(items)
}

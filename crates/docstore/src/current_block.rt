//! The documents that wait for their block.

ghost use Rattle.std.specs.Prelude.{◌≡◌, ◌+◌, ◌*◌, ◌<◌, ◌≤◌, ◌↔◌, ◌^◌, ℕ, List, [], ◌∷◌, ◌++◌, length, ◌⊎◌, Some};
ghost use Rattle.std.specs.Prelude.{OnOk, OnErr, IfOk, IfErr, IsErrOf, vec_capacity};
ghost use Rattle.std.specs.List.{concat};
ghost use Rattle.store_base.specs.Documents.{BeginsWith};
ghost use Rattle.store_format.specs.Block.{block};
ghost use Rattle.docstore.specs.Pending.{refusal_to_write, HasRoom, FindsRoom, IsDocumentRefusal};
ghost use Rattle.docstore.specs.Trace.{weight};
ghost use Rattle.store_format.specs.StoreFile.{block_of};

use std::alloc::Global;
use std::marker::Model;
use store_base::{DocFault, Document, Schema, StoreError};
use store_format::{BLOCK_LIMIT, append_table, block_len, weight_of};

/// Documents that wait for their block. Room for the block's table is kept, so that a flush of them takes no memory.
#[derive(Drop)]
pub(crate) struct CurrentBlock {
    bytes: Vec<u8>,
    starts: Vec<u32>,
    // How long the block may become with the room that there is. One test against it is enough for most documents.
    limit: usize,
}

/// Clauses see the documents.
impl Model for CurrentBlock {
    ghost use Rattle.std.specs.Prelude.{ℕ, List, vec_capacity};
    ghost use Rattle.docstore.specs.Pending.{documents_at, IsPending};

    ghost Value = { List (List ℕ) };

    ghost view = { λ b. documents_at b.starts.items b.bytes.items };

    ghost invariant = { λ b. IsPending b.starts.items b.bytes.items b.limit (vec_capacity b.bytes) };
}

impl CurrentBlock {
    /// No documents. It takes no memory.
    pub(crate) fn new(alloc: Global) -> CurrentBlock
        ensures { result ≡ [] }
    {
        CurrentBlock {
            bytes: Vec::new(alloc),
            starts: Vec::new(alloc),
            limit: 0,
        }
    }

    /// How many documents wait.
    pub(crate) fn len(&self) -> u32
        ensures { result ≡ length self.now }
    {
        self.starts.len() as u32
    }

    /// What they weigh against the block size.
    pub(crate) fn weight(&self) -> usize
        ensures { result ≡ weight self.now }
    {
        weight_of(self.bytes.len(), self.starts.len())
    }

    /// Adds a document at the end. `Err` leaves the documents as they were.
    pub(crate) fn push(&mut self, document: &[u8]) -> Result<(), StoreError>
        ensures ok { OnOk result (self.new ≡ self.old ++ document.now ∷ []) }
        ensures err { OnErr result (self.new ≡ self.old) }
        ensures too_large { IsErrOf result StoreError.BlockTooLarge
            ↔ (2 ^ 32 ≤ length (block (self.old ++ document.now ∷ []))) }
        ensures causes { IfErr result (λ e. (e ≡ StoreError.BlockTooLarge) ⊎ (e ≡ StoreError.Memory)) }
    {
        let start = self.bytes.len();
        let table = 4 * (self.starts.len() + 2);
        self.limit = with_room(&mut self.bytes, self.limit, document.len(), table)?;
        self.starts.push(start as u32)?;
        self.bytes.extend_from_slice(document).unwrap();
        Ok(())
    }

    /// Adds a document that has bytes in the schema at the end. `Err` leaves the documents as they were,
    /// whatever the document did to the bytes after them.
    pub(crate) fn push_document<D: Document>(
        &mut self,
        document: &D,
        schema: &Schema,
    ) -> Result<(), StoreError>
        ensures ok { OnOk result ((doc : List ℕ) × (D.doc_bytes document.now schema.now ≡ Some doc)
            × (length (block (self.old ++ doc ∷ [])) < 2 ^ 32) × (self.new ≡ self.old ++ doc ∷ [])) }
        ensures err { OnErr result (self.new ≡ self.old) }
        ensures cause { IfErr result (λ e. IsDocumentRefusal (D.doc_bytes document.now schema.now)
            (λ doc. 2 ^ 32 ≤ length (block (self.old ++ doc ∷ []))) e) }
    {
        let start = self.bytes.len();
        match append_document(
            &mut self.bytes,
            &mut self.starts,
            self.limit,
            document,
            schema,
        ) {
            Ok(limit) => {
                self.limit = limit;
                Ok(())
            }
            Err(refusal) => {
                self.bytes.truncate(start);
                Err(refusal)
            }
        }
    }

    /// Their block: the bytes, and the table after them. It takes no memory.
    #[inline]
    pub(crate) fn finish(self) -> FinishedBlock
        requires some { 0 < length self }
        ensures { result ≡ block_of self }
    {
        let CurrentBlock {
            mut bytes,
            starts,
            limit,
        } = self;
        append_table(&mut bytes, &starts);
        FinishedBlock {
            bytes,
            starts,
            limit,
        }
    }

    /// A lower bound of the memory that is taken.
    pub(crate) fn mem_usage(&self) -> usize
        ensures { length (concat self.now) + 4 * length self.now ≤ result }
    {
        self.bytes
            .capacity()
            .saturating_add(self.starts.capacity().saturating_mul(4))
    }
}

/// The block of some documents. It keeps their room for the next ones.
#[derive(Drop)]
pub(crate) struct FinishedBlock {
    bytes: Vec<u8>,
    starts: Vec<u32>,
    limit: usize,
}

/// Clauses see the block.
impl Model for FinishedBlock {
    ghost use Rattle.std.specs.Prelude.{length, vec_capacity};
    ghost use Rattle.store_format.specs.StoreFile.{StoreBlock};
    ghost use Rattle.docstore.specs.Pending.{IsFinished};

    ghost Value = { StoreBlock };

    ghost view = { λ b. record { count = length b.starts.items; bytes = b.bytes.items } };

    ghost invariant = { λ b. IsFinished b.starts.items b.bytes.items b.limit (vec_capacity b.bytes) };
}

impl FinishedBlock {
    /// How many documents it has.
    pub(crate) fn num_docs(&self) -> u32
        ensures count { result ≡ self.now.count }
        ensures some { 0 < result }
    {
        self.starts.len() as u32
    }

    /// Its bytes.
    pub(crate) fn bytes(&self) -> &[u8]
        ensures bytes { result.now ≡ self.now.bytes }
        ensures some { 0 < length result.now }
        ensures few { length result.now < 2 ^ 32 }
    {
        &self.bytes
    }

    /// No documents, in the same room. It takes no memory.
    #[inline]
    pub(crate) fn into_empty(self) -> CurrentBlock
        ensures { result ≡ [] }
    {
        let FinishedBlock {
            mut bytes,
            mut starts,
            limit,
        } = self;
        bytes.clear();
        starts.clear();
        CurrentBlock {
            bytes,
            starts,
            limit,
        }
    }
}

// The limit, where it leaves room after the bytes for `more` bytes and a table; else room is made, and the limit
// that follows from it.
fn with_room(
    bytes: &mut Vec<u8>,
    limit: usize,
    more: usize,
    table: usize,
) -> Result<usize, StoreError>
    requires table { table < 2 ^ 60 }
    requires small { limit < 2 ^ 32 }
    requires room { limit ≤ vec_capacity bytes.old }
    ensures room { FindsRoom (length bytes.old.items + more + table) (vec_capacity bytes.new) result }
    ensures items { bytes.new.items ≡ bytes.old.items }
    ensures capacity { vec_capacity bytes.old ≤ vec_capacity bytes.new }
{
    if more < limit.saturating_sub(bytes.len() + table) {
        return Ok(limit);
    }
    make_room(bytes, more, table)
}

// Room after the bytes for `more` bytes and a table, and the limit that follows from it.
#[cold]
fn make_room(bytes: &mut Vec<u8>, more: usize, table: usize) -> Result<usize, StoreError>
    requires { table < 2 ^ 60 }
    ensures room { FindsRoom (length bytes.old.items + more + table) (vec_capacity bytes.new) result }
    ensures items { bytes.new.items ≡ bytes.old.items }
    ensures capacity { vec_capacity bytes.old ≤ vec_capacity bytes.new }
{
    if block_len(bytes.len().saturating_add(more), table).is_none() {
        return Err(StoreError::BlockTooLarge);
    }
    bytes.reserve(more + table)?;
    Ok(bytes.capacity().min(BLOCK_LIMIT - 1))
}

// Why a document gave no bytes.
fn no_bytes(fault: DocFault) -> StoreError
    ensures { result ≡ refusal_to_write fault }
{
    match fault {
        DocFault::Refused => StoreError::Unserializable,
        DocFault::Memory => StoreError::Memory,
    }
}

// Appends this document to the others, and where it begins. A refusal may leave bytes after the others.
fn append_document<D: Document>(
    bytes: &mut Vec<u8>,
    starts: &mut Vec<u32>,
    limit: usize,
    document: &D,
    schema: &Schema,
) -> Result<usize, StoreError>
    requires few_bytes { length bytes.old.items < 2 ^ 32 }
    requires few_docs { length starts.old.items < 2 ^ 32 }
    requires limit { limit < 2 ^ 32 }
    requires room { limit ≤ vec_capacity bytes.old }
    ensures ok { IfOk result (λ room. (doc : List ℕ) × (D.doc_bytes document.now schema.now ≡ Some doc)
        × (bytes.new.items ≡ bytes.old.items ++ doc)
        × (starts.new.items ≡ starts.old.items ++ length bytes.old.items ∷ [])
        × HasRoom (length bytes.old.items + length doc + 4 * (length starts.old.items + 2))
        (vec_capacity bytes.new) room) }
    ensures begins { OnErr result (BeginsWith bytes.old.items bytes.new.items) }
    ensures starts { OnErr result (starts.new.items ≡ starts.old.items) }
    ensures capacity { vec_capacity bytes.old ≤ vec_capacity bytes.new }
    ensures cause { IfErr result (λ e. IsDocumentRefusal (D.doc_bytes document.now schema.now)
        (λ doc. 2 ^ 32 ≤ length bytes.old.items + length doc + 4 * (length starts.old.items + 2)) e) }
{
    let start = bytes.len() as u32;
    if let Err(fault) = document.serialize_doc(schema, bytes) {
        return Err(no_bytes(fault));
    }
    let table = 4 * (starts.len() + 2);
    let room = with_room(bytes, limit, 0, table)?;
    starts.push(start)?;
    Ok(room)
}

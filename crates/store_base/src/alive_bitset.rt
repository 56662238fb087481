//! The live documents of a store.

ghost use Rattle.std.specs.Prelude.{◌≡◌, ◌<◌, ◌^◌, ◌==◌, ℕ, length, replicate, IfOk, true, false, not, nat_eq};
ghost use Rattle.std.specs.Prelude.{count_by, if◌then◌else◌};
ghost use Rattle.std.specs.List.{list_any};
ghost use Rattle.store_base.specs.AliveBitSet.{is_alive_at};

use crate::DocId;
use crate::fault::NoMemory;
use std::alloc::Global;
use std::marker::Model;

/// How many documents a word has bits for.
const WORD_BITS: usize = 64;

/// Which documents of a store are alive: a bit for each.
#[derive(Drop)]
pub struct AliveBitSet {
    words: Vec<u64>,
    max_doc: u32,
    num_alive: usize,
}

/// Clauses see for each document whether it is alive.
impl Model for AliveBitSet {
    ghost use Rattle.std.specs.Prelude.{◌≡◌, ◌<◌, ◌≤◌, ◌*◌, ◌^◌, List, Bool, length, count_by};
    ghost use Rattle.store_base.specs.AliveBitSet.{flags_from};

    ghost Value = { List Bool };

    ghost view = { λ s. flags_from s.max_doc 0 s.words.items };

    ghost invariant = { λ s. (s.max_doc ≤ 64 * length s.words.items) × (s.max_doc < 2 ^ 32)
        × (s.num_alive ≡ count_by (λ alive. alive) (flags_from s.max_doc 0 s.words.items)) };
}

impl AliveBitSet {
    /// Each document below `max_doc` is alive.
    pub fn all(alloc: Global, max_doc: u32) -> Result<AliveBitSet, NoMemory>
        ensures { IfOk result (λ set. set ≡ replicate max_doc true) }
    {
        let num_words = (max_doc as usize).div_ceil(WORD_BITS);
        Ok(AliveBitSet {
            words: vec![in alloc; u64::MAX; num_words]?,
            max_doc,
            num_alive: max_doc as usize,
        })
    }

    /// Deletes a document. A number at or past the end is ignored.
    pub fn delete(&mut self, id: DocId)
        ensures len { length self.new ≡ length self.old }
        ensures each { (k : ℕ) → is_alive_at self.new k
            ≡ (if k == id then false else is_alive_at self.old k) }
    {
        if self.is_deleted(id) {
            return;
        }
        let at = id as usize;
        self.words[at / WORD_BITS] &= !(1 << (at % WORD_BITS));
        self.num_alive -= 1;
    }

    /// All documents below `max_doc` but these. A number at or past it is ignored.
    pub fn from_deleted_docs(
        alloc: Global,
        deleted: &[DocId],
        max_doc: u32,
    ) -> Result<AliveBitSet, NoMemory>
        ensures len { IfOk result (λ set. length set ≡ max_doc) }
        ensures each { IfOk result (λ set. (id : ℕ) → id < max_doc
            → is_alive_at set id ≡ not (list_any (nat_eq id) deleted.now)) }
    {
        let mut set = AliveBitSet::all(alloc, max_doc)?;
        for id in deleted {
            set.delete(*id);
        }
        Ok(set)
    }

    /// The same, by tantivy's name.
    pub fn for_test_from_deleted_docs(
        alloc: Global,
        deleted: &[DocId],
        max_doc: u32,
    ) -> Result<AliveBitSet, NoMemory>
        ensures len { IfOk result (λ set. length set ≡ max_doc) }
        ensures each { IfOk result (λ set. (id : ℕ) → id < max_doc
            → is_alive_at set id ≡ not (list_any (nat_eq id) deleted.now)) }
    {
        AliveBitSet::from_deleted_docs(alloc, deleted, max_doc)
    }

    /// False at or past the end.
    pub fn is_alive(&self, id: DocId) -> bool
        ensures { result ≡ is_alive_at self.now id }
    {
        if id >= self.max_doc {
            return false;
        }
        let at = id as usize;
        (self.words[at / WORD_BITS] >> (at % WORD_BITS)) & 1 == 1
    }

    /// True at or past the end.
    pub fn is_deleted(&self, id: DocId) -> bool
        ensures { result ≡ not (is_alive_at self.now id) }
    {
        !self.is_alive(id)
    }

    pub fn num_alive_docs(&self) -> usize
        ensures { result ≡ count_by (λ alive. alive) self.now }
    {
        self.num_alive
    }

    /// How many documents the set is for, dead ones too.
    pub fn len(&self) -> u32
        ensures { result ≡ length self.now }
    {
        self.max_doc
    }
}

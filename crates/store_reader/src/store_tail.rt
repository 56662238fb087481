//! A store of whose file only the end is in memory.
ghost use Rattle.std.specs.Prelude.{◌≡◌, ◌≢◌, ◌≤◌, ◌<◌, ◌+◌, ◌⊎◌, ℕ, List, length, IfOk, IfErr, MatchResult};
ghost use Rattle.std.specs.Prelude.{Some, None, Err};
ghost use Rattle.layered_index.specs.Checkpoint.{first_past};
ghost use Rattle.store_format.specs.StoreFile.{checkpoints_of};
ghost use Rattle.store_reader.specs.Opening.{IsSomeStore};
ghost use Rattle.store_reader.specs.StoreTails.{IsTailOf, IsWanted, HasIndexIn, RefusesEnd};

use crate::opening::{footer_of, index_range};
use crate::tail_error::TailError;
use layered_index::{Checkpoint, IndexSlice};
use std::alloc::Global;
use std::marker::Model;
use store_base::{DocId, StoreError};
use store_format::{DocStoreVersion, FOOTER_LEN, part};

/// A store of whose file only the end is in memory: the index and the footer, and perhaps bytes before them. It returns
/// which bytes of the file have a document's block, for a store whose file lies elsewhere. It takes no memory.
#[derive(Drop)]
pub struct StoreTail<'a> {
    file_len: usize,
    tail: &'a [u8],
    data_len: usize,
    index: IndexSlice<'a>,
    version: DocStoreVersion,
}

/// Clauses see the length of the file, and the bytes of its end.
impl<'a> Model for StoreTail<'a> {
    ghost use Rattle.store_reader.specs.StoreTails.{TailBytes, IsStoreTail};

    ghost Value = { TailBytes };

    ghost view = { λ s. record { file_len = s.file_len; bytes = s.tail.now } };

    ghost invariant = { λ s. IsStoreTail s.file_len s.tail.now s.data_len s.index s.version };
}

impl<'a> StoreTail<'a> {
    /// The store with a file of `file_len` bytes, of which these are the last. It returns `Short` where they lack the
    /// footer or a part of the index, with how many are wanted. So one read of the end and at most one more open a
    /// store, if the first has the footer. It returns the errors of `StoreSlice::new` for the whole file, and
    /// `ShortFile` also where there are more bytes than the file has.
    pub fn new(alloc: Global, tail: &'a [u8], file_len: usize) -> Result<StoreTail<'a>, TailError>
        ensures ok { IfOk result (λ store. store ≡ record { file_len = file_len; bytes = tail.entry.now }) }
        ensures fits { IfOk result (λ _. length tail.entry.now ≤ file_len) }
        ensures refused { IfErr result (RefusesEnd file_len tail.entry.now) }

        // What follows.
        ensures index { IfOk result (λ _. HasIndexIn file_len tail.entry.now) }
        ensures short { (wanted : ℕ) → IsWanted file_len tail.entry.now wanted → result ≡ Err (TailError.Short wanted) }
        ensures causes { IfErr result (λ e. e ≢ TailError.Store StoreError.Memory) }
    {
        if file_len < FOOTER_LEN as usize || file_len < tail.len() {
            return Err(TailError::Store(StoreError::ShortFile(file_len as u64)));
        }
        if tail.len() < FOOTER_LEN as usize {
            return Err(TailError::Short(FOOTER_LEN as usize));
        }
        let footer = match footer_of(alloc, tail) {
            Ok(footer) => footer,
            Err(error) => return Err(TailError::Store(error)),
        };
        let data_len = match index_range(&footer, file_len as u64) {
            Ok(range) => range.start as usize,
            Err(error) => return Err(TailError::Store(error)),
        };
        let wanted = file_len - data_len;
        if tail.len() < wanted {
            return Err(TailError::Short(wanted));
        }
        let index_bytes = part(tail, tail.len() - wanted, tail.len() - FOOTER_LEN as usize);
        match IndexSlice::new(index_bytes, footer.period) {
            Ok(index) => Ok(StoreTail {
                file_len,
                tail,
                data_len,
                index,
                version: footer.doc_store_version,
            }),
            Err(error) => Err(TailError::Store(error)),
        }
    }

    /// Where the block lies in the file that has a document, and which documents it has. It returns `InvalidArgument`
    /// where there is no such document, and `BadIndex` where it finds the index damaged.
    pub fn block_of(&self, doc_id: DocId) -> Result<Checkpoint, StoreError>
        ensures block { (file : List ℕ) → IsTailOf file self.now.file_len self.now.bytes → (s : IsSomeStore file)
            → MatchResult result (λ c. first_past (checkpoints_of s.blocks) doc_id ≡ Some c)
            (λ e. (e ≡ StoreError.InvalidArgument doc_id) × (first_past (checkpoints_of s.blocks) doc_id ≡ None)) }
        ensures has { IfOk result (λ c. (c.doc_range.start ≤ doc_id) × (doc_id < c.doc_range.end)) }
        ensures order { IfOk result (λ c. c.byte_range.start ≤ c.byte_range.end) }
        ensures within { IfOk result (λ c. c.byte_range.end + 28 ≤ self.now.file_len) }
        ensures refused { IfErr result (λ e. (e ≡ StoreError.InvalidArgument doc_id) ⊎ (e ≡ StoreError.BadIndex)) }
    {
        let Some(checkpoint) = self.index.seek(doc_id)? else {
            return Err(StoreError::InvalidArgument(doc_id));
        };
        if doc_id < checkpoint.doc_range.start || self.data_len < checkpoint.byte_range.end {
            return Err(StoreError::BadIndex);
        }
        Ok(checkpoint)
    }
}

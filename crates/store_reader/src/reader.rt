//! The reader of a store.
ghost use Rattle.std.specs.Prelude.{◌≡◌, ◌<◌, ◌≤◌, IsTrue, IfOk, IfErr, IfSome, IsErrOf, MatchResult, ◌⊎◌, ◌↔◌};
ghost use Rattle.std.specs.Prelude.{ℕ, ◌+◌, ◌*◌, ◌-◌, length, slice_get, slice_range, take};
ghost use Rattle.store_base.specs.Counts.{HasRisen, raised};
ghost use Rattle.store_reader.specs.GetAnswer.{IsAnswered, AnswersTruly};
ghost use Rattle.layered_index.specs.Checkpoint.{Covers, docs_end, first_past};
ghost use Rattle.store_reader.specs.Documents.{document_version, IsGot, ReadsTruly};
ghost use Rattle.store_format.specs.Footer.{version_number};
ghost use Rattle.store_reader.specs.CachedBlocks.{last_key};
ghost use Rattle.layered_index.specs.Layers.{index_part};
ghost use Rattle.store_reader.specs.Opening.{IsOpened, IsRefused, RefusesNoStore};
ghost use Rattle.store_reader.specs.Reading.{IsReadOnce, IsReadWhole, IsSameStore, IsSeen, num_docs, store_of};
ghost use Rattle.store_format.specs.Slots.{slots};
ghost use Rattle.store_format.specs.StoreFile.{IsStore};
ghost use Rattle.store_reader.specs.Walking.{set_of, set_in, taken_last, IsEntered, IsWalk, LooksAlong};

mod document;
pub mod parts;

use crate::block_request::BlockRequest;
use crate::cache::BlockCache;
use crate::cache_stats::CacheStats;
use crate::document_reading::read_document;
use crate::iter::{DocIter, Items, RawIter, sets_of};
use crate::look_up::{EnteredBlock, look_up};
use crate::opening::read_store;
use crate::walk::{DocWalk, first_walk};
use layered_index::{Checkpoint, LayerCursor, SkipIndex, Steps};
use std::alloc::Global;
use std::marker::{Model, PhantomData};
use std::ops::Range;
use store_base::{
    AliveBitSet, DocId, DocumentDeserialize, FileHandle, FileSlice, OwnedBytes, StoreError,
    StoreSpaceUsage,
};
use store_format::{Decompressor, DocStoreVersion, OpenError};

/// How many blocks a reader's cache may keep where its user has no number of its own.
pub const DOCSTORE_CACHE_CAPACITY: usize = 100;

/// Reads the documents of a store.
#[derive(Drop)]
pub struct StoreReader<H: FileHandle> {
    file: FileSlice<H>,
    index: SkipIndex,
    version: DocStoreVersion,
    decompressor: Decompressor,
    cache: BlockCache,
}

impl<H: FileHandle> Model for StoreReader<H> {
    ghost use Rattle.store_reader.specs.Reading.{Reading, IsReader};

    ghost Value = { Reading };

    ghost view = { λ r. record {
      file = r.file;
      checkpoints = r.index.checkpoints;
      period = r.index.period;
      version = r.version;
      decompressor = r.decompressor;
      cache = r.cache;
    } };

    ghost invariant = { λ r. IsReader r.file r.index.checkpoints r.index.period r.cache };
}

impl<H: FileHandle> StoreReader<H> {
    /// Opens a store, with a cache of at most this many blocks. The first error in this order is returned: those of
    /// `DocStoreFooter::extract_footer`, then an offset past the bytes before the footer, then a failed read, no
    /// memory, and bytes that are not the index of checkpoints that cover the data. The cache is made last. An error
    /// returns the file.
    pub fn open(
        alloc: Global,
        mut file: FileSlice<H>,
        cache_num_blocks: usize,
    ) -> Result<StoreReader<H>, OpenError<H>>
        ensures opened { IfOk result (λ r. IsOpened file cache_num_blocks r) }
        ensures refused { IfErr result (λ e. IsRefused file e.error e.file) }

        // What follows.
        ensures honest { IsTrue file.honest → MatchResult result
            (λ r. IsStore r.period file.content (version_number r.version) (store_of r))
            (λ e. RefusesNoStore file.content e.error) }
        ensures seen { IfOk result IsSeen }
        ensures given_back { IfErr result (λ e. e.file.content ≡ file.content) }
        ensures failed { IfErr result (λ e. e.error ≡ StoreError.Read → HasRisen file.failures e.file.failures) }
        ensures steady { MatchResult result (λ r. r.file.failures ≡ file.failures)
            (λ e. (e.error ≡ StoreError.Read) ⊎ (e.file.failures ≡ file.failures)) }

        // The footer is read, and all that lies between the data and the footer.
        ensures asked { MatchResult result
            (λ r. r.file.asked ≡ raised (raised file.asked 28) (length file.content - 28 - length r.file.content))
            (λ e. e.file.asked ≤ file.asked + length file.content) }
    {
        let (footer, index) = match read_store(&mut file, alloc) {
            Ok(found) => found,
            Err(error) => return Err(OpenError { error, file }),
        };
        let cache = match BlockCache::new(alloc, cache_num_blocks) {
            Ok(cache) => cache,
            Err(error) => {
                let error = StoreError::from(error);
                return Err(OpenError { error, file });
            }
        };
        Ok(StoreReader {
            file: file.narrow(0..footer.offset),
            index,
            version: footer.doc_store_version,
            decompressor: footer.decompressor,
            cache,
        })
    }

    /// The bytes of a document. Its block is looked up by its first byte, and read if the cache doesn't have it.
    pub fn get_document_bytes(
        &mut self,
        alloc: Global,
        doc_id: DocId,
    ) -> Result<OwnedBytes, StoreError>
        ensures no_document { IsErrOf result (StoreError.InvalidArgument doc_id) ↔ (num_docs self.old ≤ doc_id) }
        ensures no_read { num_docs self.old ≤ doc_id → self.new ≡ self.old }
        ensures answered { doc_id < num_docs self.old → IsAnswered self.old doc_id result self.new }

        // What follows.
        ensures honest { IsTrue self.old.file.honest
            → AnswersTruly doc_id (slice_get (slots (store_of self.old)) doc_id) result }
        ensures failed { IsErrOf result StoreError.Read
            → HasRisen self.old.file.failures self.new.file.failures }
        ensures steady { IsErrOf result StoreError.Read
            ⊎ (self.new.file.failures ≡ self.old.file.failures) }
        ensures same_store { IsSameStore self.old self.new }
    {
        let mut steps = Steps::new();
        let Some(checkpoint) = self.index.seek_guided(doc_id, &mut steps) else {
            return Err(StoreError::InvalidArgument(doc_id));
        };
        look_up(
            &mut self.file,
            &mut self.cache,
            alloc,
            &checkpoint,
            BlockRequest::Document {
                doc_id,
                doc_pos: doc_id - checkpoint.doc_range.start,
            },
        )
    }

    /// A document, read from its bytes. Those of version 3 are read as version 2.
    pub fn get<D: DocumentDeserialize>(
        &mut self,
        alloc: Global,
        doc_id: DocId,
    ) -> Result<D, StoreError>
        ensures no_document { IsErrOf result (StoreError.InvalidArgument doc_id) ↔ (num_docs self.old ≤ doc_id) }
        ensures no_read { num_docs self.old ≤ doc_id → self.new ≡ self.old }
        ensures got { doc_id < num_docs self.old
            → IsGot (D.reading (document_version self.old.version)) self.old doc_id result self.new }

        // What follows.
        ensures honest { IsTrue self.old.file.honest → ReadsTruly (D.reading (document_version self.old.version))
            doc_id (slice_get (slots (store_of self.old)) doc_id) result }
        ensures failed { IsErrOf result StoreError.Read
            → HasRisen self.old.file.failures self.new.file.failures }
        ensures steady { IsErrOf result StoreError.Read
            ⊎ (self.new.file.failures ≡ self.old.file.failures) }
        ensures same_store { IsSameStore self.old self.new }
    {
        let bytes = self.get_document_bytes(alloc, doc_id);
        read_document(alloc, self.version, bytes)
    }

    // Looks the block with this number up, for all of its documents. Nothing is sought.
    pub(crate) fn enter(&mut self, alloc: Global, number: usize) -> EnteredBlock
        requires { docs_end 0 (take number self.old.checkpoints) < num_docs self.old }
        ensures entered { IsEntered self.old (docs_end 0 (take number self.old.checkpoints)) result self.new }
        ensures covers { Covers self.old.checkpoints (length self.old.file.content) }
    {
        let checkpoint = self.index.get(number).unwrap();
        let block = look_up(
            &mut self.file,
            &mut self.cache,
            alloc,
            &checkpoint,
            BlockRequest::Whole,
        );
        EnteredBlock {
            first: checkpoint.doc_range.start,
            end: checkpoint.doc_range.end,
            block,
        }
    }

    /// The bytes of each document that is alive, in the order of the ids; without a set those of all documents. Each
    /// block is looked up once, at its first document, also if all of its documents are dead; the first block is looked
    /// up by this call.
    pub fn iter_raw<'a>(
        &'a mut self,
        alloc: Global,
        alive: Option<&'a AliveBitSet>,
    ) -> RawIter<'a, H>
        requires { IfSome alive (λ set. num_docs self.old ≤ length set.now) }
        ensures same_reader { result.reader.ghost_name ≡ self.entry.ghost_name }
        ensures alive { set_in result.alive.now ≡ set_of alive.entry }
        ensures next { result.walk.next ≡ 0 }
        ensures walk { IsWalk result.reader.now result.walk }
        ensures first_block { LooksAlong (take 1 self.old.checkpoints)
            self.old None result.reader.now (taken_last result.walk) }
        ensures same_store { IsSameStore self.old result.reader.now }
        ensures place { result.walk.place ≡ length (take 1 self.old.checkpoints) }
    {
        let walk = first_walk(self, alloc);
        Items {
            reader: self,
            alloc,
            alive: sets_of(alive),
            walk,
        }
    }

    /// Each document that is alive, in the order of the ids; without a set all documents. Otherwise as `iter_raw`.
    /// Documents of version 3 are read as version 2.
    pub fn iter<'a, D: DocumentDeserialize>(
        &'a mut self,
        alloc: Global,
        alive: Option<&'a AliveBitSet>,
    ) -> DocIter<'a, H, D>
        requires { IfSome alive (λ set. num_docs self.old ≤ length set.now) }
        ensures same_reader { result.reader.ghost_name ≡ self.entry.ghost_name }
        ensures alive { set_in result.alive.now ≡ set_of alive.entry }
        ensures next { result.walk.raw.next ≡ 0 }
        ensures walk { IsWalk result.reader.now result.walk.raw }
        ensures first_block { LooksAlong (take 1 self.old.checkpoints)
            self.old None result.reader.now (taken_last result.walk.raw) }
        ensures same_store { IsSameStore self.old result.reader.now }
        ensures place { result.walk.raw.place ≡ length (take 1 self.old.checkpoints) }
    {
        let raw = first_walk(self, alloc);
        Items {
            reader: self,
            alloc,
            alive: sets_of(alive),
            walk: DocWalk {
                raw,
                document: PhantomData,
            },
        }
    }

    /// How many documents the store has.
    pub fn num_docs(&self) -> DocId
        ensures count { result ≡ num_docs self.now }
        ensures covers { Covers self.now.checkpoints (length self.now.file.content) }
        ensures slots { result ≡ length (slots (store_of self.now)) }
    {
        let Some((num_docs, _end)) = self.index.covered_to() else {
            unreachable!()
        };
        num_docs
    }

    /// How the store's documents are spelled.
    pub fn version(&self) -> DocStoreVersion
        ensures { result ≡ self.now.version }
    {
        self.version
    }

    /// How many checkpoints a full block of the store's index has, at least 2 and at most 64.
    pub fn period(&self) -> u8
        ensures period { result ≡ self.now.period }
        ensures least { 2 ≤ result }
        ensures most { result ≤ 64 }
    {
        self.index.period()
    }

    /// What the cache did so far.
    pub fn cache_stats(&self) -> CacheStats
        ensures entries { result.num_entries ≡ length self.now.cache.kept }
        ensures hits { result.cache_hits ≡ self.now.cache.hits }
        ensures misses { result.cache_misses ≡ self.now.cache.misses }
        ensures few { result.num_entries ≤ self.now.cache.capacity }
    {
        CacheStats {
            num_entries: self.cache.len(),
            cache_hits: self.cache.hits(),
            cache_misses: self.cache.misses(),
        }
    }

    /// The first byte of the kept block that was not used for the longest time.
    pub fn peek_lru(&self) -> Option<usize>
        ensures { result ≡ last_key self.now.cache }
    {
        self.cache.peek_lru()
    }

    /// How the store's blocks are unpacked.
    pub fn decompressor(&self) -> Decompressor
        ensures { result ≡ self.now.decompressor }
    {
        self.decompressor
    }

    /// The file that it reads.
    pub fn file(&self) -> &H
        ensures honest { H.honest result.now ≡ self.now.file.honest }
        ensures failures { H.failures result.now ≡ self.now.file.failures }
        ensures reads { H.reads result.now ≡ self.now.file.reads }
        ensures asked { H.asked result.now ≡ self.now.file.asked }
    {
        self.file.handle()
    }

    /// How many bytes the data and the index take.
    pub fn space_usage(&self) -> StoreSpaceUsage
        ensures { result ≡ (length self.now.file.content, length (index_part self.now.period self.now.checkpoints)) }
    {
        StoreSpaceUsage::new(self.file.len(), self.index.byte_len() as u64)
    }

    /// Where the blocks lie, in order.
    pub fn block_checkpoints(&self) -> LayerCursor<'_>
        ensures checkpoints { result ≡ self.now.checkpoints }
        ensures store { IsSeen self.now }
    {
        self.index.checkpoints()
    }

    /// The data of all blocks, by one read of the file. The cache is neither asked nor filled.
    pub fn block_data(&mut self, alloc: Global) -> Result<OwnedBytes, StoreError>
        ensures covers { IfOk result (λ bytes. Covers self.old.checkpoints (length bytes)) }
        ensures bytes { IsTrue self.old.file.honest → IfOk result (λ bytes. bytes ≡ self.old.file.content) }
        ensures causes { IfErr result (λ e. (e ≡ StoreError.Read) ⊎ (e ≡ StoreError.Memory)) }
        ensures failed { IsErrOf result StoreError.Read → HasRisen self.old.file.failures self.new.file.failures }
        ensures steady { IsErrOf result StoreError.Read ⊎ (self.new.file.failures ≡ self.old.file.failures) }
        ensures once { IsReadWhole self.old self.new }
    {
        Ok(self.file.read_bytes(alloc)?)
    }

    /// Where the block lies that has this document, if there is such a document.
    pub fn block_of(&self, target: DocId) -> Option<Checkpoint>
        ensures checkpoint { result ≡ first_past self.now.checkpoints target }
        ensures covers { Covers self.now.checkpoints (length self.now.file.content) }
    {
        self.index.seek(target)
    }

    /// The bytes of a range of the data, by one read of the file. The cache is neither asked nor filled.
    pub fn read_data(
        &mut self,
        alloc: Global,
        range: Range<usize>,
    ) -> Result<OwnedBytes, StoreError>
        requires order { range.start ≤ range.end }
        requires within { range.end ≤ length self.old.file.content }
        ensures length { IfOk result (λ bytes. length bytes ≡ range.end - range.start) }
        ensures bytes { IsTrue self.old.file.honest
            → IfOk result (λ bytes. bytes ≡ slice_range self.old.file.content range.start range.end) }
        ensures causes { IfErr result (λ e. (e ≡ StoreError.Read) ⊎ (e ≡ StoreError.Memory)) }
        ensures failed { IsErrOf result StoreError.Read → HasRisen self.old.file.failures self.new.file.failures }
        ensures steady { IsErrOf result StoreError.Read ⊎ (self.new.file.failures ≡ self.old.file.failures) }
        ensures once { IsReadOnce (range.end - range.start) self.old self.new }
    {
        let range = range.start as u64..range.end as u64;
        Ok(self.file.read_range(alloc, range)?)
    }
}

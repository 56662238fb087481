//! A store in a slice of bytes, read without opening: its index is not copied, and no table is made of it.
ghost use Rattle.std.specs.Prelude.{◌≡◌, ◌≢◌, ◌≤◌, ◌<◌, ◌+◌, ◌-◌, ◌^◌, ◌↔◌, ◌⊎◌, ℕ};
ghost use Rattle.std.specs.Prelude.{length, take, drop, slice_range, slice_get};
ghost use Rattle.std.specs.Prelude.{IfOk, IfErr, IsOkAnd, IsErrOf, MatchResult, Ok, Err, Some, None, false};
ghost use Rattle.layered_index.specs.Checkpoint.{first_past};
ghost use Rattle.layered_index.specs.Layers.{digit_count, index_part};
ghost use Rattle.layered_index.specs.Rows.{layer_at, AreMarksOf};
ghost use Rattle.store_reader.specs.IndexChecks.{BreaksIndex, IsCheckedStore};
ghost use Rattle.store_format.specs.declared.version.DocStoreVersion.{DocStoreVersion};
ghost use Rattle.store_format.specs.Block.{damaged};
ghost use Rattle.store_format.specs.Footer.{version_number};
ghost use Rattle.store_format.specs.Slots.{slots};
ghost use Rattle.store_format.specs.StoreFile.{checkpoints_of, data_of};
ghost use Rattle.store_reader.specs.Documents.{document_version, ReadsFrom, ReadsTruly};
ghost use Rattle.store_reader.specs.Opening.{IsSomeStore};
ghost use Rattle.store_reader.specs.Finding.{Finds, given, placed_in};
ghost use Rattle.store_reader.specs.StoreSlices.{document_in, count_of_store, IsPartOf, IsBlockSlice, AreLeft, IsAmid};
ghost use Rattle.store_reader.specs.StoreSlices.{IsOutline, RefusesOne, RefusesReading};
ghost use Rattle.store_reader.specs.StoreTails.{HasIndexIn};

use crate::block_slice::{BlockSlice, found_block};
use crate::block_slices::BlockSlices;
use crate::document_reading::read_bytes;
use crate::opening::{footer_of, index_range};
use crate::slice_documents::SliceDocuments;
use crate::store_check::{CheckedStore, StoreFault};
use crate::store_head::{NO_LAYERS, StoreHead};
use layered_index::{IndexSlice, LayerCursor, LayerMarks, Row};
use std::alloc::Global;
use std::marker::Model;
use std::ops::Range;
use store_base::{DocId, DocumentDeserialize, StoreError, StoreSpaceUsage};
use store_format::{DocStoreVersion, FOOTER_LEN, part};

/// A store whose file is a slice of bytes that another holds. A call reads the part of the index that it needs, so
/// `new` takes no memory and the same time for every store. Of the file of a store, each call returns what the same
/// call of `StoreView` returns. Of other bytes, it returns a part of the bytes or an error, which may be `BadIndex`.
#[derive(Drop)]
pub struct StoreSlice<'a> {
    file: &'a [u8],
    data_len: usize,
    index: IndexSlice<'a>,
    version: DocStoreVersion,
}

/// Clauses see the bytes.
impl<'a> Model for StoreSlice<'a> {
    ghost use Rattle.std.specs.Prelude.{List, ℕ};
    ghost use Rattle.store_reader.specs.StoreSlices.{IsStoreSlice};

    ghost Value = { List ℕ };

    ghost view = { λ s. s.file.now };

    ghost invariant = { λ s. IsStoreSlice s.file.now s.data_len s.index s.version };
}

impl<'a> StoreSlice<'a> {
    /// The store whose file these bytes are. It reads the footer, and how many layers the index has. It returns the
    /// first error that `StoreView::open` finds in these; damage in the layers is found by the calls that meet it.
    pub fn new(alloc: Global, file: &'a [u8]) -> Result<StoreSlice<'a>, StoreError>
        ensures ok { IfOk result (λ store. store ≡ file.entry.now) }
        ensures found { IfErr result (λ e. Finds file.entry.now (Err e)) }
        ensures refused { IfErr result (λ e. IsSomeStore file.entry.now → ⊥) }
        ensures causes { IfErr result (λ e. e ≢ StoreError.Memory) }
        ensures index { IfOk result (λ _. HasIndexIn (length file.entry.now) file.entry.now) }
    {
        let footer = footer_of(alloc, file)?;
        let range = index_range(&footer, file.len() as u64)?;
        let data_len = range.start as usize;
        let index = IndexSlice::new(part(file, data_len, range.end as usize), footer.period)?;
        Ok(StoreSlice {
            file,
            data_len,
            index,
            version: footer.doc_store_version,
        })
    }

    /// The block that has a document. It takes no memory. It returns `InvalidArgument` where there is no such document,
    /// and `BadIndex` where it finds the index damaged.
    pub fn block_of(&self, doc_id: DocId) -> Result<BlockSlice<'a>, StoreError>
        ensures block { (s : IsSomeStore self.now) → MatchResult result
            (λ b. (id : ℕ) → b.first ≤ id → id < b.end → IsBlockSlice self.now s id b.first b.end b.start b.bytes.now)
            (λ e. (e ≡ StoreError.InvalidArgument doc_id) × (first_past (checkpoints_of s.blocks) doc_id ≡ None)) }
        ensures has { IfOk result (λ b. (b.first ≤ doc_id) × (doc_id < b.end)) }
        ensures part { IfOk result (λ b. b.bytes.now ≡ slice_range self.now b.start (b.start + length b.bytes.now)) }
        ensures within { IfOk result (λ b. b.start + length b.bytes.now ≤ length self.now) }
        ensures fits { IfOk result (λ b. b.start + length b.bytes.now < 2 ^ 64) }
        ensures refused { IfErr result (RefusesOne doc_id) }
    {
        let Some(checkpoint) = self.index.seek(doc_id)? else {
            return Err(StoreError::InvalidArgument(doc_id));
        };
        found_block(self.file, self.data_len, doc_id, checkpoint)
    }

    /// Fills the front of the rows with those of the lowest layer of the index that has no more checkpoints than there
    /// are rows, and returns the numbers by which gets go on from them. It fills none where the top layer has more. It
    /// returns `BadIndex` where it finds the index damaged, and then the rows stay.
    pub fn outline(&self, rows: &mut [Row]) -> Result<StoreHead, StoreError>
        ensures store { (s : IsSomeStore self.now)
            → IsOkAnd result (λ h. IsOutline self.now s h (take h.rows rows.new)) }
        ensures deepest { (s : IsSomeStore self.now) → IfOk result (λ h. 0 < h.lower.height
            → length rows.old < length (layer_at s.period (h.lower.height - 1) (checkpoints_of s.blocks))) }
        ensures room { IfOk result (λ h. h.rows ≤ length rows.old) }
        ensures rest { IfOk result (λ h. drop h.rows rows.new ≡ drop h.rows rows.old) }
        ensures refused { IfErr result (λ e. (e ≡ StoreError.BadIndex) × (rows.new ≡ rows.old)) }
    {
        let outline = self.index.outline(rows)?;
        Ok(StoreHead {
            data_len: self.data_len,
            rows: outline.rows,
            lower: self.lower_marks(outline.height),
            period: self.index.period(),
        })
    }

    // Where the lowest layers of the index lie. It gives `NO_LAYERS` in place of an error, since the rows are filled
    // by then.
    fn lower_marks(&self, height: usize) -> LayerMarks
        ensures { (s : IsSomeStore self.now) → height ≤ digit_count s.period (length (checkpoints_of s.blocks))
            → (result.height ≡ height) × AreMarksOf s.period
            (index_part s.period (checkpoints_of s.blocks)) (checkpoints_of s.blocks) result }
    {
        match self.index.marks(height) {
            Ok(marks) => marks,
            Err(_) => NO_LAYERS,
        }
    }

    /// Checks that the index is that of checkpoints in line that cover the data: each layer is decoded once. It takes
    /// no memory, and returns where the index first breaks a rule. It writes the rows of all blocks over the front of
    /// the rows, as many as there is room for, without their guides.
    pub fn check(&self, rows: &mut [Row]) -> Result<CheckedStore, StoreFault>
        ensures checked { IfOk result (λ x. IsCheckedStore self.now x rows.old rows.new) }
        ensures broken { IfErr result (λ fault. (IsSomeStore self.now → ⊥)
            × BreaksIndex self.now fault.start fault.index) }
        ensures first { IfErr result (λ _. Finds self.now (Err StoreError.BadIndex)) }
    {
        let start = self.data_len;
        let index = match self.index.check(rows) {
            Ok(index) => index,
            Err(fault) => {
                return Err(StoreFault {
                    start,
                    index: Some(fault),
                });
            }
        };
        match index.covered {
            Some((docs, end)) if end == start => Ok(CheckedStore {
                blocks: index.count,
                docs,
            }),
            _ => Err(StoreFault { start, index: None }),
        }
    }

    /// Where a document lies in the file. It takes no memory. It returns `InvalidArgument` where there is no such
    /// document, `DamagedDocument` where its block doesn't say where it lies, and `BadIndex` where the index is
    /// damaged.
    #[inline(always)]
    pub fn locate(&self, doc_id: DocId) -> Result<Range<usize>, StoreError>
        ensures document { (s : IsSomeStore self.now) → placed_in self.now result ≡ document_in self.now s doc_id }
        ensures order { IfOk result (λ r. r.start ≤ r.end) }
        ensures within { IfOk result (λ r. r.end ≤ length self.now) }
        ensures refused { IfErr result (RefusesOne doc_id) }
    {
        self.block_of(doc_id)?.locate(doc_id)
    }

    /// The bytes of a document: the part of the file where it lies. It takes no memory, and returns the errors of
    /// `locate`.
    #[inline(always)]
    pub fn get(&self, doc_id: DocId) -> Result<&'a [u8], StoreError>
        ensures document { (s : IsSomeStore self.now) → given result ≡ document_in self.now s doc_id }
        ensures part { IfOk result (λ bytes. IsPartOf self.now bytes.now) }
        ensures refused { IfErr result (RefusesOne doc_id) }

        // What follows.
        ensures no_document { (s : IsSomeStore self.now) → IsErrOf result (StoreError.InvalidArgument doc_id)
            ↔ (count_of_store self.now s ≤ doc_id) }
        ensures damaged { (s : IsSomeStore self.now) → IsErrOf result (StoreError.DamagedDocument doc_id)
            ↔ (slice_get (slots s.blocks) doc_id ≡ Some damaged) }
    {
        let range = self.locate(doc_id)?;
        Ok(part(self.file, range.start, range.end))
    }

    /// A document, read from its bytes. Those of version 3 are read as version 2. It returns the errors of `get`,
    /// `BadDocument` where the bytes are no document of this type, and `Memory`.
    pub fn get_document<D: DocumentDeserialize>(
        &self,
        alloc: Global,
        doc_id: DocId,
    ) -> Result<D, StoreError>
        ensures got { (s : IsSomeStore self.now) (version : DocStoreVersion) → version_number version ≡ s.version
            → ReadsFrom (D.reading (document_version version)) (document_in self.now s doc_id) result }
        ensures refused { IfErr result (RefusesReading doc_id) }

        // What follows.
        ensures truly { (s : IsSomeStore self.now) (version : DocStoreVersion) → version_number version ≡ s.version
            → ReadsTruly (D.reading (document_version version)) doc_id (slice_get (slots s.blocks) doc_id) result }
        ensures causes { IfErr result (λ e. e ≢ StoreError.Read) }
        ensures no_document { (s : IsSomeStore self.now) → IsErrOf result (StoreError.InvalidArgument doc_id)
            ↔ (count_of_store self.now s ≤ doc_id) }
    {
        let bytes = self.get(doc_id)?;
        read_bytes(alloc, self.version, bytes)
    }

    /// How many documents the store has. It decodes the top layer of the index, and returns `BadIndex` where it can't.
    pub fn num_docs(&self) -> Result<DocId, StoreError>
        ensures count { (s : IsSomeStore self.now) → result ≡ Ok (count_of_store self.now s) }
        ensures refused { IfErr result (λ e. e ≡ StoreError.BadIndex) }
    {
        self.index.docs_end()
    }

    /// The version that the footer names: how the store's documents are spelled.
    pub fn version(&self) -> DocStoreVersion
        ensures { (s : IsSomeStore self.now) → version_number result ≡ s.version }
    {
        self.version
    }

    /// How many checkpoints a full run of the store's index has, at least 2 and at most 64.
    pub fn period(&self) -> u8
        ensures period { (s : IsSomeStore self.now) → result ≡ s.period }
        ensures least { 2 ≤ result }
        ensures most { result ≤ 64 }
    {
        self.index.period()
    }

    /// The data of all blocks: the bytes of the file before the index.
    pub fn block_data(&self) -> &'a [u8]
        ensures data { (s : IsSomeStore self.now) → result.now ≡ data_of s.blocks }
        ensures part { result.now ≡ slice_range self.now 0 (length result.now) }
    {
        part(self.file, 0, self.data_len)
    }

    /// How many bytes the data and the index take.
    pub fn space_usage(&self) -> StoreSpaceUsage
        ensures store { (s : IsSomeStore self.now) → result ≡ (
          length (data_of s.blocks),
          length (index_part s.period (checkpoints_of s.blocks)),
        ) }
        ensures whole { result.0 + result.1 + 28 ≡ length self.now }
    {
        let end = self.file.len() - FOOTER_LEN as usize;
        StoreSpaceUsage::new(self.data_len as u64, (end - self.data_len) as u64)
    }

    /// Where the blocks lie, in order. It returns `BadIndex` where it can't find the bottom layer of the index.
    pub fn block_checkpoints(&self) -> Result<LayerCursor<'a>, StoreError>
        ensures store { (s : IsSomeStore self.now) → IsOkAnd result (λ cursor. cursor ≡ checkpoints_of s.blocks) }
        ensures refused { IfErr result (λ e. e ≡ StoreError.BadIndex) }
    {
        self.index.checkpoints()
    }

    /// The block that has a document, and those after it. It seeks once; then each checkpoint of the bottom layer is
    /// decoded once. It returns `InvalidArgument` where there is no such document, and `BadIndex` where it finds the
    /// index damaged.
    pub fn blocks_from(
        &self,
        doc_id: DocId,
    ) -> Result<(BlockSlice<'a>, BlockSlices<'a>), StoreError>
        ensures block { (s : IsSomeStore self.now) → MatchResult result (λ x. (id : ℕ) → x.0.first ≤ id → id < x.0.end
            → IsBlockSlice self.now s id x.0.first x.0.end x.0.start x.0.bytes.now)
            (λ e. (e ≡ StoreError.InvalidArgument doc_id) × (first_past (checkpoints_of s.blocks) doc_id ≡ None)) }
        ensures has { IfOk result (λ x. (x.0.first ≤ doc_id) × (doc_id < x.0.end)) }
        ensures part { IfOk result (λ x. x.0.bytes.now
            ≡ slice_range self.now x.0.start (x.0.start + length x.0.bytes.now)) }
        ensures within { IfOk result (λ x. x.0.start + length x.0.bytes.now ≤ length self.now) }
        ensures fits { IfOk result (λ x. x.0.start + length x.0.bytes.now < 2 ^ 64) }
        ensures next { IfOk result (λ x. (x.1.bytes ≡ self.now) × (x.1.next ≡ x.0.end) × (x.1.failed ≡ false)) }
        ensures left { (s : IsSomeStore self.now) → IfOk result (λ x. AreLeft self.now s x.1) }
        ensures refused { IfErr result (λ e. (e ≡ StoreError.InvalidArgument doc_id) ⊎ (e ≡ StoreError.BadIndex)) }
    {
        let Some((checkpoint, checkpoints)) = self.index.seek_on(doc_id)? else {
            return Err(StoreError::InvalidArgument(doc_id));
        };
        let block = found_block(self.file, self.data_len, doc_id, checkpoint)?;
        let blocks = BlockSlices::new(self.file, self.data_len, block.end, checkpoints);
        Ok((block, blocks))
    }

    /// The documents in the order of their ids. Each is a part of the file. It returns `BadIndex` where it can't find
    /// the bottom layer of the index.
    pub fn iter(&self) -> Result<SliceDocuments<'a>, StoreError>
        ensures file { IfOk result (λ d. d.blocks.bytes ≡ self.now) }
        ensures first { IfOk result (λ d. d.next ≡ 0) }
        ensures can { IfOk result (λ d. (d.block.first ≤ d.next) × (d.next ≤ d.block.end)
            × (d.blocks.next ≡ d.block.end)) }
        ensures amid { (s : IsSomeStore self.now) → IsOkAnd result (λ d. IsAmid self.now s d.next
            d.block.first d.block.end d.block.bytes.now d.blocks) }
        ensures refused { IfErr result (λ e. e ≡ StoreError.BadIndex) }
    {
        let checkpoints = self.index.checkpoints()?;
        Ok(SliceDocuments {
            blocks: BlockSlices::new(self.file, self.data_len, 0, checkpoints),
            next: 0,
            block: BlockSlice::before_all(),
        })
    }

    /// The documents from this one on, in the order of their ids. It seeks the block of the document, and then decodes
    /// each checkpoint of the bottom layer once. It returns `InvalidArgument` where there is no such document, and
    /// `BadIndex` where it finds the index damaged.
    pub fn iter_from(&self, doc_id: DocId) -> Result<SliceDocuments<'a>, StoreError>
        ensures file { IfOk result (λ d. d.blocks.bytes ≡ self.now) }
        ensures first { IfOk result (λ d. d.next ≡ doc_id) }
        ensures can { IfOk result (λ d. (d.block.first ≤ d.next) × (d.next ≤ d.block.end)
            × (d.blocks.next ≡ d.block.end)) }
        ensures amid { (s : IsSomeStore self.now) → MatchResult result
            (λ d. IsAmid self.now s d.next d.block.first d.block.end d.block.bytes.now d.blocks)
            (λ e. (e ≡ StoreError.InvalidArgument doc_id) × (count_of_store self.now s ≤ doc_id)) }
        ensures refused { IfErr result (λ e. (e ≡ StoreError.InvalidArgument doc_id) ⊎ (e ≡ StoreError.BadIndex)) }
    {
        let (block, blocks) = self.blocks_from(doc_id)?;
        Ok(SliceDocuments {
            blocks,
            next: doc_id,
            block,
        })
    }
}

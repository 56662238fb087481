//! Gets by rows and numbers that a caller keeps.
ghost use Rattle.std.specs.Prelude.{◌≡◌, ◌≤◌, ◌<◌, ◌+◌, ◌*◌, ◌^◌, ℕ, List, length, slice_range};
ghost use Rattle.std.specs.Prelude.{IfOk, IfErr, IsOkAnd, MatchResult, None};
ghost use Rattle.store_base.specs.Counts.{raised};
ghost use Rattle.layered_index.specs.Checkpoint.{first_past};
ghost use Rattle.layered_index.specs.declared.row.Row.{Row};
ghost use Rattle.layered_index.specs.Rows.{lower_layers, rows_looked_at};
ghost use Rattle.store_format.specs.StoreFile.{checkpoints_of};
ghost use Rattle.store_reader.specs.Opening.{IsSomeStore};
ghost use Rattle.store_reader.specs.StoreSlices.{document_in, IsBlockSlice, IsOutline, RefusesOne};
ghost use Rattle.store_reader.specs.Finding.{placed_in};

use crate::block_slice::{BlockSlice, found_block};
use layered_index::{LayerMarks, LowerLayers, Row, Steps};
use std::ops::Range;
use store_base::{DocId, StoreError};
use store_format::{FOOTER_LEN, part};

/// Numbers of a store's file that a caller keeps beside rows of its index, as `StoreSlice::outline` gives them. By them
/// a get reads neither the footer nor where the layers end.
#[repr(C)]
#[derive(Clone, Copy)]
pub struct StoreHead {
    /// How many bytes of blocks come before the index.
    pub data_len: usize,
    /// How many rows there are.
    pub rows: usize,
    /// Where the layers below that of the rows lie in the index.
    pub lower: LayerMarks,
    /// How many checkpoints a full run of the index has.
    pub period: u8,
}

/// The marks of layers that can't be found: none begins at that place, so a seek in them returns `BadIndex`.
pub(crate) const NO_LAYERS: LayerMarks = LayerMarks {
    height: 1,
    place: usize::MAX,
    ends: 0,
    texts: 0,
};

impl StoreHead {
    // The layers below that of the rows. It returns `BadIndex` where no index lies there in the file.
    #[inline(always)]
    fn lower_in<'a>(&self, file: &'a [u8]) -> Result<LowerLayers<'a>, StoreError>
        ensures answer { (s : IsSomeStore file.entry.now) (rows : List Row) → IsOutline file.entry.now s self.now rows
            → IsOkAnd result (λ lower. lower
            ≡ lower_layers self.now.period self.now.lower.height (checkpoints_of s.blocks)) }
        ensures height { IfOk result (λ lower. lower.height ≡ self.now.lower.height) }
        ensures period { IfOk result (λ lower. lower.period ≡ self.now.period) }
        ensures data { IfOk result (λ _. self.now.data_len ≤ length file.entry.now) }
        ensures refused { IfErr result (λ e. e ≡ StoreError.BadIndex) }
    {
        if self.period < 2 || 64 < self.period {
            return Err(StoreError::BadIndex);
        }
        match file.len().checked_sub(FOOTER_LEN as usize) {
            Some(end) if self.data_len <= end => Ok(LowerLayers::at(
                part(file, self.data_len, end),
                self.period,
                &self.lower,
            )),
            _ => Err(StoreError::BadIndex),
        }
    }

    /// The block that has a document, in the file of which these are the numbers, by its rows. It counts the rows that
    /// it looks at, and each checkpoint that it decodes: at most a period for each layer below the rows'. It returns
    /// `InvalidArgument` where there is no such document. By other numbers or rows, or of a damaged file, it returns a
    /// block that has the document, which may be any part of the file, or one of the errors.
    #[inline(always)]
    pub fn block_of<'a>(
        &self,
        file: &'a [u8],
        rows: &[Row],
        doc_id: DocId,
        steps: &mut Steps,
    ) -> Result<BlockSlice<'a>, StoreError>
        ensures block { (s : IsSomeStore file.now) → IsOutline file.now s self.now rows.now → MatchResult result
            (λ b. (id : ℕ) → b.first ≤ id → id < b.end → IsBlockSlice file.now s id b.first b.end b.start b.bytes.now)
            (λ e. (e ≡ StoreError.InvalidArgument doc_id) × (first_past (checkpoints_of s.blocks) doc_id ≡ None)) }
        ensures most { (p : ℕ) → 2 ≤ p → steps.new
            ≤ steps.old + rows_looked_at p (length rows.now) + self.now.period * self.now.lower.height }
        ensures least { IfOk result (λ _. raised steps.old 1 ≤ steps.new) }
        ensures has { IfOk result (λ b. (b.first ≤ doc_id) × (doc_id < b.end)) }
        ensures part { IfOk result (λ b. b.bytes.now ≡ slice_range file.now b.start (b.start + length b.bytes.now)) }
        ensures within { IfOk result (λ b. b.start + length b.bytes.now ≤ length file.now) }
        ensures fits { IfOk result (λ b. b.start + length b.bytes.now < 2 ^ 64) }
        ensures refused { IfErr result (RefusesOne doc_id) }
    {
        let lower = self.lower_in(file)?;
        let Some(checkpoint) = lower.seek(rows, doc_id, steps)? else {
            return Err(StoreError::InvalidArgument(doc_id));
        };
        found_block(file, self.data_len, doc_id, checkpoint)
    }

    /// Where a document lies in the file, by rows as `block_of` takes them. It returns the errors of
    /// `StoreSlice::locate`.
    #[inline(always)]
    pub fn locate(
        &self,
        file: &[u8],
        rows: &[Row],
        doc_id: DocId,
    ) -> Result<Range<usize>, StoreError>
        ensures document { (s : IsSomeStore file.now) → IsOutline file.now s self.now rows.now
            → placed_in file.now result ≡ document_in file.now s doc_id }
        ensures order { IfOk result (λ r. r.start ≤ r.end) }
        ensures within { IfOk result (λ r. r.end ≤ length file.now) }
        ensures refused { IfErr result (RefusesOne doc_id) }
    {
        let mut steps = Steps::new();
        self.block_of(file, rows, doc_id, &mut steps)?
            .locate(doc_id)
    }
}

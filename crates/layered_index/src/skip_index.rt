//! The layered skip index of a store.
ghost use Rattle.std.specs.Prelude.{◌≡◌, ◌≤◌, ◌<◌, ◌+◌, ◌*◌, ℕ, length, slice_get, slice_range};
ghost use Rattle.std.specs.Prelude.{IfOk, IfErr, Some};
ghost use Rattle.store_base.specs.Counts.{raised};
ghost use Rattle.layered_index.specs.declared.checkpoint.Checkpoint.{Checkpoint};
ghost use Rattle.layered_index.specs.Checkpoint.{IsInLine, IsInLineFrom, first_past};
ghost use Rattle.layered_index.specs.Covering.{covered_to};
ghost use Rattle.layered_index.specs.Layers.{Index, digit_count, index_part};
ghost use Rattle.layered_index.specs.IndexReading.{IsIndexPart, HasIndex};
ghost use Rattle.layered_index.specs.Refusal.{RefusesOnlyUnless};
ghost use Rattle.layered_index.specs.Rows.{ends_in, start_in, checkpoints_from};

use crate::checkpoint::{CHECKPOINT_PERIOD, Checkpoint, USUAL_PERIOD};
use crate::checkpoint_range::CheckpointRange;
use crate::index_slice::IndexSlice;
use crate::layer_cursor::LayerCursor;
use crate::looks::{Looks, Steps, seek_near, seek_over};
use crate::row::{Row, RowEnd};
use crate::row_guide::{guess, write_guides};
use std::alloc::Global;
use std::marker::Model;
use std::ops::Range;
use store_base::{DocId, OwnedBytes, StoreError};

/// The checkpoints of a store, found by document. It keeps the bytes of the index, and a row for each checkpoint.
#[derive(Drop)]
pub struct SkipIndex {
    period: u8,
    source: OwnedBytes,
    covered: Option<(DocId, usize)>,
    start: RowEnd,
    rows: Vec<Row>,
}

impl Model for SkipIndex {
    ghost use Rattle.std.specs.Prelude.{◌≡◌, ◌≤◌};
    ghost use Rattle.layered_index.specs.Covering.{covered_to};
    ghost use Rattle.layered_index.specs.IndexReading.{IsIndexPart};
    ghost use Rattle.layered_index.specs.Layers.{Index};
    ghost use Rattle.layered_index.specs.Rows.{ends_in, checkpoints_from};

    ghost Value = { Index };

    ghost view = { λ a. record { period = a.period; checkpoints = checkpoints_from a.start (ends_in a.rows.items) } };

    ghost invariant = { λ a. let cs = checkpoints_from a.start (ends_in a.rows.items) in
        (2 ≤ a.period) × (a.period ≤ 64) × IsIndexPart a.period a.source cs × (a.covered ≡ covered_to 0 0 cs) };
}

// Where the first of these checkpoints begins.
fn start_of(mut checkpoints: LayerCursor<'_>) -> RowEnd
    requires { IsInLine checkpoints }
    ensures { IsInLineFrom result.end_doc result.end_byte checkpoints.entry }
{
    match checkpoints.next() {
        None => RowEnd::ZERO,
        Some(first) => RowEnd {
            end_doc: first.doc_range.start,
            end_byte: first.byte_range.start,
        },
    }
}

// Where the checkpoint at a position begins, the first of which begins at `start`.
#[inline(always)]
fn start_at(start: RowEnd, rows: &[Row], at: usize) -> RowEnd
    requires { at ≤ length rows.now }
    ensures { result ≡ start_in start (ends_in rows.now) at }
{
    match at.checked_sub(1) {
        Some(before) => rows[before].end(),
        None => start,
    }
}

// The checkpoint at a position.
#[inline(always)]
fn checkpoint_at(start: RowEnd, rows: &[Row], at: usize) -> Checkpoint
    requires { at < length rows.now }
    ensures { slice_get (checkpoints_from start (ends_in rows.now)) at ≡ Some result }
{
    let start = start_at(start, rows, at);
    let end = rows[at].end();
    Checkpoint {
        doc_range: start.end_doc..end.end_doc,
        byte_range: start.end_byte..end.end_byte,
    }
}

// Looks at the checkpoints of an index, counted.
#[derive(Drop)]
struct IndexLooks<'a> {
    index: &'a SkipIndex,
    count: u64,
}

impl<'a> Looks for IndexLooks<'a> {
    ghost list = { λ s. s.index.now.checkpoints };

    ghost looks = { λ s. s.count };

    fn len(&self) -> usize {
        let index = self.index;
        index.rows.len()
    }

    fn look(&mut self, i: usize) -> Checkpoint {
        self.count = self.count.saturating_add(1);
        self.index.at(i)
    }
}

impl SkipIndex {
    /// Reads an index with `CHECKPOINT_PERIOD`. It is refused unless the bytes are the index of a list
    /// in line.
    pub fn open(alloc: Global, source: OwnedBytes) -> Result<SkipIndex, StoreError>
        ensures ok { IfOk result (λ index. (index.period ≡ CHECKPOINT_PERIOD)
            × IsIndexPart CHECKPOINT_PERIOD source index.checkpoints) }
        ensures refused { IfErr result (RefusesOnlyUnless (HasIndex CHECKPOINT_PERIOD source)) }
    {
        SkipIndex::open_with_period(alloc, source, USUAL_PERIOD)
    }

    /// Reads an index whose full blocks have `period` checkpoints. It is refused unless the bytes are
    /// the index of a list in line.
    pub fn open_with_period(
        alloc: Global,
        source: OwnedBytes,
        period: u8,
    ) -> Result<SkipIndex, StoreError>
        requires least { 2 ≤ period }
        requires most { period ≤ 64 }
        ensures ok { IfOk result (λ index. (index.period ≡ period)
            × IsIndexPart period source index.checkpoints) }
        ensures refused { IfErr result (RefusesOnlyUnless (HasIndex period source)) }
    {
        let index = IndexSlice::new(source.as_slice(), period)?;
        let count = index.told_len()?;
        let mut rows = vec![in alloc; Row::new(RowEnd::ZERO); count]?;
        let Ok(checked) = index.check(&mut rows) else {
            return Err(StoreError::BadIndex);
        };
        write_guides(&mut rows);
        let start = start_of(index.checkpoints()?);
        Ok(SkipIndex {
            period,
            source,
            covered: checked.covered,
            start,
            rows,
        })
    }

    /// How many checkpoints its full blocks have.
    pub fn period(&self) -> u8
        ensures period { result ≡ self.now.period }
        ensures least { 2 ≤ result }
        ensures most { result ≤ 64 }
    {
        self.period
    }

    /// The first checkpoint whose documents end past the target.
    pub fn seek(&self, target: DocId) -> Option<Checkpoint>
        ensures { result ≡ first_past self.now.checkpoints target }
    {
        let mut steps = Steps::new();
        self.seek_guided(target, &mut steps)
    }

    /// Seeks as `seek` does, from where about the target is, and counts each checkpoint that it looks at. These are at
    /// most p for each base-p digit of the number of checkpoints, for every p from 2 on, and mostly a few.
    #[inline(always)]
    pub fn seek_guided(&self, target: DocId, steps: &mut Steps) -> Option<Checkpoint>
        ensures answer { result ≡ first_past self.now.checkpoints target }
        ensures most { (p : ℕ) → 2 ≤ p → steps.new
            ≤ steps.old + p * digit_count p (length self.now.checkpoints) }
        ensures least { 0 < length self.now.checkpoints → raised steps.old 1 ≤ steps.new }
    {
        let mut looks = IndexLooks {
            index: self,
            count: 0,
        };
        let found = seek_near(&mut looks, target, guess(&self.rows, target));
        steps.add(looks.count);
        found
    }

    /// Seeks by halving, without a guess, and counts each checkpoint that it looks at.
    pub fn seek_counted(&self, target: DocId, steps: &mut Steps) -> Option<Checkpoint>
        ensures answer { result ≡ first_past self.now.checkpoints target }
        ensures binary { steps.new ≤ steps.old + digit_count 2 (length self.now.checkpoints) }
        ensures most { (p : ℕ) → 2 ≤ p → steps.new
            ≤ steps.old + p * digit_count p (length self.now.checkpoints) }
        ensures least { 0 < length self.now.checkpoints → raised steps.old 1 ≤ steps.new }
    {
        let mut looks = IndexLooks {
            index: self,
            count: 0,
        };
        let found = seek_over(&mut looks, target);
        steps.add(looks.count);
        found
    }

    /// Where the checkpoints end, their documents and their bytes, if they begin at the first document
    /// and the first byte and none is empty.
    pub fn covered_to(&self) -> Option<(DocId, usize)>
        ensures { result ≡ covered_to 0 0 self.now.checkpoints }
    {
        self.covered
    }

    /// The checkpoints, in order.
    pub fn checkpoints(&self) -> LayerCursor<'_>
        ensures { result ≡ self.now.checkpoints }
    {
        let Ok(index) = IndexSlice::new(self.source.as_slice(), self.period) else {
            unreachable!()
        };
        let Ok(checkpoints) = index.checkpoints() else {
            unreachable!()
        };
        checkpoints
    }

    /// How many bytes the index has.
    pub fn byte_len(&self) -> usize
        ensures { result ≡ length (index_part self.now.period self.now.checkpoints) }
    {
        self.source.len()
    }

    /// How many checkpoints there are.
    pub fn len(&self) -> usize
        ensures { result ≡ length self.now.checkpoints }
    {
        self.rows.len()
    }

    // The checkpoint at this place of the list.
    #[inline(always)]
    pub(crate) fn at(&self, place: usize) -> Checkpoint
        requires { place < length self.now.checkpoints }
        ensures { slice_get self.now.checkpoints place ≡ Some result }
    {
        checkpoint_at(self.start, self.rows.as_slice(), place)
    }

    /// The checkpoint at this place of the list, if the list is so long. Nothing is sought.
    pub fn get(&self, place: usize) -> Option<Checkpoint>
        ensures { result ≡ slice_get self.now.checkpoints place }
    {
        if place >= self.rows.len() {
            return None;
        }
        Some(self.at(place))
    }

    /// The checkpoints at these places of the list, in order.
    pub fn range(&self, places: Range<usize>) -> CheckpointRange<'_>
        requires { places.end ≤ length self.now.checkpoints }
        ensures { result ≡ slice_range self.now.checkpoints places.start places.end }
    {
        CheckpointRange::new(self, places)
    }
}

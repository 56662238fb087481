//! The lowest layers of an index, and the seek that begins at a row of the layer above them.
ghost use Rattle.std.specs.Prelude.{◌≡◌, ◌≤◌, ◌<◌, ◌↔◌, ◌+◌, ◌*◌, ℕ, List, length, drop, IsTrue};
ghost use Rattle.std.specs.Prelude.{Ok, Some, None, IfOk, IfErr, IfSome, IsOkAnd};
ghost use Rattle.store_base.specs.Counts.{raised};
ghost use Rattle.layered_index.specs.declared.checkpoint.Checkpoint.{Checkpoint};
ghost use Rattle.layered_index.specs.Checkpoint.{IsInLine, IsInLineFrom, first_past};
ghost use Rattle.layered_index.specs.Rows.{AreRowsAbove, IsFoundIn, layer_at, lower_layers, rows_looked_at};
ghost use Rattle.layered_index.specs.Sought.{from_pointer, IsPast, AreOn, layers_left};

use crate::checkpoint::Checkpoint;
use crate::index_slice::next_layer;
use crate::looks::Steps;
use crate::row::Row;
use crate::rows::seek_rows;
use crate::run_seek::seek_layer;
use std::marker::Model;
use store_base::{DocId, StoreError};

/// Where the lowest layers of an index lie in its bytes: numbers that a caller keeps, by which `LowerLayers::at` finds
/// them again without reading how many layers there are and where they end.
#[repr(C)]
#[derive(Clone, Copy)]
pub struct LayerMarks {
    /// How many layers these are.
    pub height: usize,
    /// How many bytes of layers lie above them.
    pub place: usize,
    /// The byte of the index at which the numbers begin that say where they end.
    pub ends: usize,
    /// The byte of the index at which they begin.
    pub texts: usize,
}

/// The lowest layers of an index, in a slice of bytes. A seek begins at a row of the layer above them, and decodes a
/// run of each up to what it seeks. No call takes memory.
#[derive(Drop)]
pub struct LowerLayers<'a> {
    period: u8,
    height: usize,
    place: usize,
    ends: &'a [u8],
    texts: &'a [u8],
}

impl<'a> Model for LowerLayers<'a> {
    ghost use Rattle.std.specs.Prelude.{◌≤◌};
    ghost use Rattle.layered_index.specs.Rows.{LayersBelow};
    ghost use Rattle.layered_index.specs.Sought.{layers_left};

    ghost Value = { LayersBelow };

    ghost view = { λ a. record {
      period = a.period;
      height = a.height;
      texts = layers_left a.height a.place a.ends.now a.texts.now;
    } };

    ghost invariant = { λ a. (2 ≤ a.period) × (a.period ≤ 64) };
}

// The bytes from this one on; none where there are no more.
#[inline(always)]
pub(crate) fn from_byte(bytes: &[u8], byte: usize) -> &[u8]
    ensures { result.now ≡ drop byte bytes.now }
{
    &bytes[byte.min(bytes.len())..]
}

// The bytes of a layer from the run on that a pointer points to; without a pointer from the first run on.
#[inline(always)]
fn from_pointer<'a>(layer: &'a [u8], pointer: &Option<Checkpoint>) -> &'a [u8]
    ensures { result.now ≡ from_pointer layer.now pointer.now }
{
    match pointer {
        None => layer,
        Some(pointer) => from_byte(layer, pointer.byte_range.start),
    }
}

// What a descent found in the bottom layer, and the bytes of that layer from the run on in which it found it.
#[derive(Drop)]
pub(crate) struct Descent<'a> {
    pub found: Option<Checkpoint>,
    pub run: &'a [u8],
}

// Whether the checkpoint has the document, and isn't reversed.
fn has(checkpoint: &Checkpoint, doc_id: DocId) -> bool
    ensures { IsTrue result ↔ (checkpoint.now.doc_range.start ≤ doc_id) × (doc_id < checkpoint.now.doc_range.end)
        × (checkpoint.now.byte_range.start ≤ checkpoint.now.byte_range.end) }
{
    checkpoint.doc_range.start <= doc_id
        && doc_id < checkpoint.doc_range.end
        && checkpoint.byte_range.start <= checkpoint.byte_range.end
}

impl<'a> LowerLayers<'a> {
    /// The lowest layers of an index in these bytes, where the marks say that they lie. Marks that are not those of the
    /// index give other layers or none, and then a seek finds that out.
    pub fn at(bytes: &'a [u8], period: u8, marks: &LayerMarks) -> LowerLayers<'a>
        requires least { 2 ≤ period }
        requires most { period ≤ 64 }
        ensures { result ≡ record {
          period = period;
          height = marks.now.height;
          texts = layers_left marks.now.height marks.now.place (drop marks.now.ends bytes.now)
              (drop marks.now.texts bytes.now);
        } }
    {
        let ends = from_byte(bytes, marks.ends);
        let texts = from_byte(bytes, marks.texts);
        LowerLayers::new(period, marks.height, marks.place, ends, texts)
    }

    // This many layers: the first begins at this place, these bytes say where each ends, and these are theirs.
    pub(crate) fn new(
        period: u8,
        height: usize,
        place: usize,
        ends: &'a [u8],
        texts: &'a [u8],
    ) -> LowerLayers<'a>
        requires least { 2 ≤ period }
        requires most { period ≤ 64 }
        ensures { result ≡ record {
          period = period;
          height = height;
          texts = layers_left height place ends.now texts.now;
        } }
    {
        LowerLayers {
            period,
            height,
            place,
            ends,
            texts,
        }
    }

    // The first checkpoint of the lowest layer whose documents end past the target, from what was found in the layer
    // above the highest on: a pointer, or nothing where the highest is the top one. It decodes one run of each layer up
    // to what it seeks, and counts each checkpoint that it decodes.
    #[inline(always)]
    pub(crate) fn descend(
        &self,
        above: Option<Checkpoint>,
        target: DocId,
        steps: &mut Steps,
    ) -> Result<Descent<'a>, StoreError>
        requires past { IfSome above (IsPast target) }
        ensures answer { (cs : List Checkpoint) → IsInLine cs
            → self.now ≡ lower_layers self.now.period self.now.height cs
            → IsFoundIn self.now.period self.now.height cs target above
            → IsOkAnd result (λ d. d.found ≡ first_past cs target) }
        ensures run { (cs : List Checkpoint) → IsInLine cs
            → self.now ≡ lower_layers self.now.period self.now.height cs
            → IsFoundIn self.now.period self.now.height cs target above
            → above ≡ None → IfOk result (λ d. AreOn cs target d.found d.run.now) }
        ensures most { steps.new ≤ steps.old + self.now.period * self.now.height }
        ensures more { steps.old ≤ steps.new }
        ensures past { IfOk result (λ d. IfSome d.found (IsPast target)) }
        ensures least { above ≡ None
            → IfOk result (λ d. IfSome d.found (λ _. raised steps.old 1 ≤ steps.new)) }
        ensures refused { IfErr result (λ e. e ≡ StoreError.BadIndex) }
    {
        let period = self.period as usize;
        let mut found = above;
        let mut run = self.texts;
        let mut place = self.place;
        let mut ends = self.ends;
        let mut texts = self.texts;
        for _ in 0..self.height {
            let Some((layer, end, more_ends, more)) = next_layer(place, ends, texts) else {
                return Err(StoreError::BadIndex);
            };
            let Some(next) = seek_layer(period, target, layer, &found, steps) else {
                return Err(StoreError::BadIndex);
            };
            run = from_pointer(layer, &found);
            if next.is_none() {
                return Ok(Descent { found: None, run });
            }
            found = next;
            place = end;
            ends = more_ends;
            texts = more;
        }
        if !texts.is_empty() {
            return Err(StoreError::BadIndex);
        }
        Ok(Descent { found, run })
    }

    /// The first checkpoint whose documents end past the target, or `None` where there is none, by the rows of the
    /// layer above these. Without rows it begins at the top layer. It returns `BadIndex` where a run is not where the
    /// layer above points, or the rows are not those of the layer above. It counts the rows that it looks at, and each
    /// checkpoint that it decodes.
    pub fn seek(
        &self,
        rows: &[Row],
        target: DocId,
        steps: &mut Steps,
    ) -> Result<Option<Checkpoint>, StoreError>
        ensures answer { (cs : List Checkpoint) → IsInLineFrom 0 0 cs
            → self.now ≡ lower_layers self.now.period self.now.height cs
            → AreRowsAbove self.now.period self.now.height cs rows.now
            → result ≡ Ok (first_past cs target) }
        ensures most { (p : ℕ) → 2 ≤ p → steps.new
            ≤ steps.old + rows_looked_at p (length rows.now) + self.now.period * self.now.height }
        ensures more { steps.old ≤ steps.new }
        ensures least { IfOk result (λ found. IfSome found (λ _. raised steps.old 1 ≤ steps.new)) }
        ensures past { IfOk result (λ found. IfSome found (IsPast target)) }
        ensures refused { IfErr result (λ e. e ≡ StoreError.BadIndex) }
    {
        let height = self.height;
        if rows.is_empty() {
            return Ok(self.descend(None, target, steps)?.found);
        }
        let Some(pointer) = seek_rows(rows, target, steps) else {
            return Ok(None);
        };
        if !has(&pointer, target) {
            return Err(StoreError::BadIndex);
        }
        if height == 0 {
            return Ok(Some(pointer));
        }
        Ok(self.descend(Some(pointer), target, steps)?.found)
    }
}

//! Seeks in the bytes of an index: no table is made of them, and nothing takes memory.
ghost use Rattle.std.specs.Prelude.{◌≡◌, ◌<◌, ◌≤◌, ◌+◌, ◌*◌, List, length};
ghost use Rattle.std.specs.Prelude.{Ok, Some, None, IfOk, IfErr, IfSome, IsOkAnd};
ghost use Rattle.std.specs.Option.{option_map};
ghost use Rattle.store_base.specs.Counts.{raised};
ghost use Rattle.layered_index.specs.declared.checkpoint.Checkpoint.{Checkpoint};
ghost use Rattle.layered_index.specs.Checkpoint.{docs_end, first_past, IsInLine, checkpoint_block};
ghost use Rattle.layered_index.specs.Layers.{digit_count};
ghost use Rattle.layered_index.specs.IndexReading.{IsIndexPart, HasIndex};
ghost use Rattle.layered_index.specs.Rows.{AreMarksOf, lower_texts, lower_layers};
ghost use Rattle.layered_index.specs.LayerReading.{items};
ghost use Rattle.layered_index.specs.Sought.{layers_left, next_layer, after_numbers, past_on};
ghost use Rattle.layered_index.specs.Sought.{IsPast, IsRest, IndexBytes};

use crate::checkpoint::Checkpoint;
use crate::layer_cursor::LayerCursor;
use crate::looks::Steps;
use crate::lower_layers::{LayerMarks, LowerLayers};
use crate::run_reading::{heading_front, step_front};
use std::marker::Model;
use store_base::{DocId, StoreError, first_number};

// No list has more layers: its length is below 2^64.
pub(crate) const MOST_LAYERS: u64 = 64;

/// The index part of a store, in a slice of bytes. `new` reads how many layers it has. A seek decodes one run of each
/// layer, from the top layer down, and checks the bytes that it decodes. No call takes memory.
#[derive(Drop)]
pub struct IndexSlice<'a> {
    pub(crate) period: u8,
    pub(crate) bytes: &'a [u8],
    pub(crate) count: usize,
    pub(crate) ends: &'a [u8],
    pub(crate) texts: &'a [u8],
}

impl<'a> Model for IndexSlice<'a> {
    ghost use Rattle.layered_index.specs.Sought.{IndexBytes, IsHeaded};

    ghost Value = { IndexBytes };

    ghost view = { λ a. record { period = a.period; bytes = a.bytes.now } };

    ghost invariant = { λ a. IsHeaded a.period a.bytes.now a.count a.ends.now a.texts.now };
}

// The bytes after `count` numbers.
pub(crate) fn pass_numbers(count: usize, bytes: &[u8]) -> Option<&[u8]>
    ensures { option_map (λ x. x.now) result ≡ after_numbers count bytes.now }
{
    let mut rest = bytes;
    for _ in 0..count {
        let (_, after) = first_number(rest, u64::MAX)?;
        rest = after;
    }
    Some(rest)
}

// The next layer, where it ends, and, of the layers after it, the ends and the bytes.
#[inline(always)]
#[tactic(auto, unfolding(crate::specs::Sought::next_layer))]
pub(crate) fn next_layer<'a>(
    place: usize,
    ends: &'a [u8],
    texts: &'a [u8],
) -> Option<(&'a [u8], usize, &'a [u8], &'a [u8])>
    ensures { option_map (λ x. (x.0.now, x.1, x.2.now, x.3.now)) result
        ≡ next_layer place ends.now texts.now }
{
    let (end, more_ends) = first_number(ends, u64::MAX)?;
    let end = end as usize;
    if end < place {
        return None;
    }
    let len = end - place;
    if texts.len() < len {
        return None;
    }
    let (layer, more) = texts.split_at(len);
    Some((layer, end, more_ends, more))
}

// The last layer that was passed over, if any; and of those after it where they begin, the ends and the bytes.
#[derive(Drop)]
struct Passed<'a> {
    last: &'a [u8],
    place: usize,
    ends: &'a [u8],
    texts: &'a [u8],
}

// Where the documents of a block end that fills the bytes and has at most `most` checkpoints.
fn block_docs_end(most: usize, bytes: &[u8]) -> Option<DocId>
    requires { most ≤ 64 }
    ensures { (cs : List Checkpoint) → IsInLine cs → 0 < length cs → length cs ≤ most
        → bytes.now ≡ checkpoint_block cs → result ≡ Some (docs_end 0 cs) }
{
    let (heading, steps) = heading_front(bytes)?;
    if most < heading.count {
        return None;
    }
    let mut rest = steps;
    let mut doc_end = heading.doc;
    let mut byte_end = heading.byte;
    for _ in 0..heading.count {
        let (checkpoint, after) = step_front(false, doc_end, byte_end, rest)?;
        doc_end = checkpoint.doc_range.end;
        byte_end = checkpoint.byte_range.end;
        rest = after;
    }
    if rest.is_empty() { Some(doc_end) } else { None }
}

impl<'a> IndexSlice<'a> {
    /// The index in these bytes. It reads how many layers there are and skips the numbers that say where each ends. It
    /// returns `BadIndex` where these numbers are missing; damage after them is found by the calls that meet it.
    pub fn new(bytes: &'a [u8], period: u8) -> Result<IndexSlice<'a>, StoreError>
        requires least { 2 ≤ period }
        requires most { period ≤ 64 }
        ensures ok { IfOk result (λ index. index ≡ record { period = period; bytes = bytes.now }) }
        ensures refused { IfErr result (λ e. (e ≡ StoreError.BadIndex) × (HasIndex period bytes.now → ⊥)) }
    {
        let Some((count, ends)) = first_number(bytes, MOST_LAYERS) else {
            return Err(StoreError::BadIndex);
        };
        let count = count as usize;
        let Some(texts) = pass_numbers(count, ends) else {
            return Err(StoreError::BadIndex);
        };
        Ok(IndexSlice {
            period,
            bytes,
            count,
            ends,
            texts,
        })
    }

    /// How many checkpoints a full run of the index has, at least 2 and at most 64.
    pub fn period(&self) -> u8
        ensures period { result ≡ self.now.period }
        ensures least { 2 ≤ result }
        ensures most { result ≤ 64 }
    {
        self.period
    }

    // All its layers, with nothing above them.
    fn whole(&self) -> LowerLayers<'a>
        ensures whole { (cs : List Checkpoint) → IsIndexPart self.now.period self.now.bytes cs
            → (result ≡ lower_layers result.period result.height cs)
            × (result.height ≡ digit_count result.period (length cs)) }
        ensures period { result.period ≡ self.now.period }
        ensures few { result.height ≤ 64 }
    {
        LowerLayers::new(self.period, self.count, 0, self.ends, self.texts)
    }

    /// The first checkpoint whose documents end past the target, or `None` where there is none. It returns `BadIndex`
    /// where a run is not where the layer above points. It decodes each run up to what it seeks.
    pub fn seek(&self, target: DocId) -> Result<Option<Checkpoint>, StoreError>
        ensures answer { (cs : List Checkpoint) → IsIndexPart self.now.period self.now.bytes cs
            → result ≡ Ok (first_past cs target) }
        ensures past { IfOk result (λ found. IfSome found (IsPast target)) }
        ensures refused { IfErr result (λ e. e ≡ StoreError.BadIndex) }
    {
        let mut steps = Steps::new();
        Ok(self.whole().descend(None, target, &mut steps)?.found)
    }

    /// The first checkpoint whose documents end past the target, and a cursor over those after it; or `None` where
    /// there is none. It returns `BadIndex` where a run is not where the layer above points. It seeks as `seek` does,
    /// also in bytes that are no index, and then decodes the run of the bottom layer again up to the checkpoint.
    pub fn seek_on(
        &self,
        target: DocId,
    ) -> Result<Option<(Checkpoint, LayerCursor<'a>)>, StoreError>
        ensures answer { (cs : List Checkpoint) → IsIndexPart self.now.period self.now.bytes cs
            → IsOkAnd result (λ found. found ≡ past_on cs target) }
        ensures past { IfOk result (λ found. IfSome found (λ x. IsPast target x.0)) }
        ensures refused { IfErr result (λ e. e ≡ StoreError.BadIndex) }
    {
        let mut steps = Steps::new();
        let descent = self.whole().descend(None, target, &mut steps)?;
        let Some(found) = descent.found else {
            return Ok(None);
        };
        let mut cursor = LayerCursor::new(descent.run);
        while let Some(checkpoint) = cursor.next() {
            if target < checkpoint.doc_range.end {
                return Ok(Some((found, cursor)));
            }
        }
        Err(StoreError::BadIndex)
    }

    /// Seeks as `seek` does, and counts each checkpoint that it decodes: at most a period for each layer. There are as
    /// many layers as the number of checkpoints has digits in the base of the period.
    pub fn seek_counted(
        &self,
        target: DocId,
        steps: &mut Steps,
    ) -> Result<Option<Checkpoint>, StoreError>
        ensures answer { (cs : List Checkpoint) → IsIndexPart self.now.period self.now.bytes cs
            → result ≡ Ok (first_past cs target) }
        ensures most { (cs : List Checkpoint) → IsIndexPart self.now.period self.now.bytes cs
            → steps.new ≤ steps.old + self.now.period * digit_count self.now.period (length cs) }
        ensures always { steps.new ≤ steps.old + self.now.period * 64 }
        ensures past { IfOk result (λ found. IfSome found (IsPast target)) }
        ensures least { IfOk result (λ found. IfSome found (λ _. raised steps.old 1 ≤ steps.new)) }
        ensures refused { IfErr result (λ e. e ≡ StoreError.BadIndex) }
    {
        Ok(self.whole().descend(None, target, steps)?.found)
    }

    // Passes over the layers above the lowest ones, which are as many as the height says. It decodes nothing but where
    // each ends.
    fn pass_to(&self, height: usize) -> Result<Passed<'a>, StoreError>
        ensures left { (cs : List Checkpoint) → IsIndexPart self.now.period self.now.bytes cs
            → height ≤ digit_count self.now.period (length cs)
            → IsOkAnd result (λ p. layers_left height p.place p.ends.now p.texts.now
            ≡ Some (lower_texts self.now.period height cs)) }
        ensures bottom { (cs : List Checkpoint) → IsIndexPart self.now.period self.now.bytes cs
            → height ≡ 0 → IfOk result (λ p. items 0 0 0 p.last.now ≡ cs) }
        ensures ends { IfOk result (λ p. IsRest self.now.bytes p.ends.now) }
        ensures texts { IfOk result (λ p. IsRest self.now.bytes p.texts.now) }
        ensures refused { IfErr result (λ e. e ≡ StoreError.BadIndex) }
    {
        if self.count < height {
            return Err(StoreError::BadIndex);
        }
        let mut left = self.count;
        let mut last: &'a [u8] = &self.texts[..0];
        let mut place = 0;
        let mut ends = self.ends;
        let mut texts = self.texts;
        while left > height {
            let Some((layer, end, more_ends, more)) = next_layer(place, ends, texts) else {
                return Err(StoreError::BadIndex);
            };
            left -= 1;
            last = layer;
            place = end;
            ends = more_ends;
            texts = more;
        }
        Ok(Passed {
            last,
            place,
            ends,
            texts,
        })
    }

    /// Where the lowest layers lie, as many as the height says: `LowerLayers::at` finds them by it. It passes over the
    /// layers above them, and decodes nothing but where each ends. It returns `BadIndex` where there are fewer layers.
    pub fn marks(&self, height: usize) -> Result<LayerMarks, StoreError>
        ensures answer { (cs : List Checkpoint) → IsIndexPart self.now.period self.now.bytes cs
            → height ≤ digit_count self.now.period (length cs)
            → IsOkAnd result (λ m. AreMarksOf self.now.period self.now.bytes cs m) }
        ensures height { IfOk result (λ m. m.height ≡ height) }
        ensures refused { IfErr result (λ e. e ≡ StoreError.BadIndex) }
    {
        let passed = self.pass_to(height)?;
        Ok(LayerMarks {
            height,
            place: passed.place,
            ends: self.bytes.len() - passed.ends.len(),
            texts: self.bytes.len() - passed.texts.len(),
        })
    }

    /// The id after the last document. It decodes the top layer, which is one run.
    pub fn docs_end(&self) -> Result<DocId, StoreError>
        ensures answer { (cs : List Checkpoint) → IsIndexPart self.now.period self.now.bytes cs
            → result ≡ Ok (docs_end 0 cs) }
        ensures refused { IfErr result (λ e. e ≡ StoreError.BadIndex) }
    {
        if self.count == 0 {
            return Ok(0);
        }
        let Some((top, _, _, _)) = next_layer(0, self.ends, self.texts) else {
            return Err(StoreError::BadIndex);
        };
        let Some(end) = block_docs_end(self.period as usize, top) else {
            return Err(StoreError::BadIndex);
        };
        Ok(end)
    }

    /// The checkpoints, in order. It finds the bottom layer at once; the cursor decodes a checkpoint when it is asked
    /// for.
    pub fn checkpoints(&self) -> Result<LayerCursor<'a>, StoreError>
        ensures answer { (cs : List Checkpoint) → IsIndexPart self.now.period self.now.bytes cs
            → IsOkAnd result (λ cursor. cursor ≡ cs) }
        ensures refused { IfErr result (λ e. e ≡ StoreError.BadIndex) }
    {
        let passed = self.pass_to(0)?;
        if !passed.texts.is_empty() {
            return Err(StoreError::BadIndex);
        }
        Ok(LayerCursor::new(passed.last))
    }
}

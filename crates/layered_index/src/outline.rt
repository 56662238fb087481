//! Rows of the deepest layer that a caller has room for.
ghost use Rattle.std.specs.Prelude.{◌≡◌, ◌<◌, ◌≤◌, ◌-◌, ◌*◌, List, length, take, drop, IfOk, IfErr, IsOkAnd};
ghost use Rattle.layered_index.specs.declared.checkpoint.Checkpoint.{Checkpoint};
ghost use Rattle.layered_index.specs.Checkpoint.{IsInLine};
ghost use Rattle.layered_index.specs.Layers.{layer_text, layer_above, digit_count};
ghost use Rattle.layered_index.specs.IndexReading.{IsIndexPart, HasIndex};
ghost use Rattle.layered_index.specs.LayerReading.{items};
ghost use Rattle.layered_index.specs.Rows.{AreRowsOf, AreRowsAbove, HasEnd, IsDeepest, layer_at};

use crate::index_slice::{IndexSlice, next_layer};
use crate::layer_cursor::LayerCursor;
use crate::lower_layers::from_byte;
use crate::row::{Row, RowEnd};
use crate::row_guide::write_guides;
use store_base::StoreError;

/// How many rows there are of a layer, and how many layers lie below it.
#[derive(Clone, Copy)]
pub struct Outline {
    pub rows: usize,
    pub height: usize,
}

/// How many checkpoints a layer has, and where the last of them begins in the layer below.
#[derive(Clone, Copy)]
pub(crate) struct LayerEnd {
    pub count: usize,
    pub start: usize,
}

// The lowest layer that there is room for: how many layers lie below it, its bytes, and how many checkpoints it has.
#[derive(Clone, Copy)]
struct Deepest<'a> {
    height: usize,
    layer: &'a [u8],
    count: usize,
}

// The end of a layer, by that of the layer above it, whose last checkpoint points to the last run. It decodes at most a
// period of checkpoints.
fn end_below(period: usize, layer: &[u8], above: LayerEnd) -> LayerEnd
    requires least { 1 ≤ period }
    requires most { period ≤ 64 }
    ensures { (cs : List Checkpoint) → IsInLine cs → 0 < length cs → layer.now ≡ layer_text period cs
        → HasEnd (layer_above period cs) above → HasEnd cs result }
{
    let mut run = LayerCursor::new(from_byte(layer, above.start));
    let mut count = above.count.saturating_sub(1).saturating_mul(period);
    let mut start = 0;
    for _ in 0..period {
        let Some(checkpoint) = run.next() else {
            break;
        };
        count = count.saturating_add(1);
        start = checkpoint.byte_range.start;
    }
    LayerEnd { count, start }
}

/// Writes the rows of checkpoints over the front of these, as many as there is room for. It returns how many it wrote.
pub(crate) fn fill(checkpoints: LayerCursor<'_>, rows: &mut [Row]) -> usize
    ensures room { result ≤ length rows.old }
    ensures filled { length checkpoints.entry ≤ length rows.old → AreRowsOf checkpoints.entry (take result rows.new) }
    ensures rest { drop result rows.new ≡ drop result rows.old }
{
    let mut count = 0;
    for checkpoint in checkpoints {
        if count == rows.len() {
            return count;
        }
        rows[count] = Row::new(RowEnd {
            end_doc: checkpoint.doc_range.end,
            end_byte: checkpoint.byte_range.end,
        });
        count += 1;
    }
    count
}

impl<'a> IndexSlice<'a> {
    // The lowest layer that has no more checkpoints than there is room for, from the top down. It has no bytes where
    // the top layer has more. It decodes of each layer the last run.
    fn deepest(&self, room: usize) -> Result<Deepest<'a>, StoreError>
        ensures answer { (cs : List Checkpoint) → IsIndexPart self.now.period self.now.bytes cs
            → IsOkAnd result (λ x. IsDeepest self.now.period room cs x.height (items 0 0 0 x.layer.now)) }
        ensures counted { (cs : List Checkpoint) → IsIndexPart self.now.period self.now.bytes cs
            → IfOk result (λ x. x.count ≡ length (items 0 0 0 x.layer.now)) }
        ensures fits { IfOk result (λ x. x.count ≤ room) }
        ensures few { IfOk result (λ x. x.height ≤ 64) }
        ensures refused { IfErr result (λ e. e ≡ StoreError.BadIndex) }
    {
        let period = self.period as usize;
        let mut deepest = Deepest {
            height: self.count,
            layer: &self.texts[..0],
            count: 0,
        };
        // A layer above the top one would have a checkpoint that points to its only run.
        let mut layer_end = LayerEnd { count: 1, start: 0 };
        let mut place = 0;
        let mut ends = self.ends;
        let mut texts = self.texts;
        while deepest.height > 0 {
            let Some((layer, end, more_ends, more)) = next_layer(place, ends, texts) else {
                return Err(StoreError::BadIndex);
            };
            layer_end = end_below(period, layer, layer_end);
            if layer_end.count > room {
                return Ok(deepest);
            }
            deepest = Deepest {
                height: deepest.height - 1,
                layer,
                count: layer_end.count,
            };
            place = end;
            ends = more_ends;
            texts = more;
        }
        if !texts.is_empty() {
            return Err(StoreError::BadIndex);
        }
        Ok(deepest)
    }

    /// How many checkpoints there are, if the bytes are an index. It decodes of each layer the last run. It never says
    /// more than half as many as there are bytes, since a checkpoint takes two.
    pub(crate) fn told_len(&self) -> Result<usize, StoreError>
        ensures answer { (cs : List Checkpoint) → IsIndexPart self.now.period self.now.bytes cs
            → IsOkAnd result (λ n. n ≡ length cs) }
        ensures most { IfOk result (λ n. 2 * n ≤ length self.now.bytes) }
        ensures refused { IfErr result (λ e. (e ≡ StoreError.BadIndex)
            × (HasIndex self.now.period self.now.bytes → ⊥)) }
    {
        Ok(self.deepest(self.bytes.len() / 2)?.count)
    }

    /// Fills the front of the rows with those of the lowest layer that has no more checkpoints than there are rows, and
    /// says how many it filled and how many layers lie below that layer. It fills none where the top layer has more. It
    /// decodes that layer, and of the layers above it and of the next one the last run.
    ///
    /// It returns `BadIndex` where the layers aren't where the index says they end, and then the rows stay.
    pub fn outline(&self, rows: &mut [Row]) -> Result<Outline, StoreError>
        ensures answer { (cs : List Checkpoint) → IsIndexPart self.now.period self.now.bytes cs
            → IsOkAnd result (λ o. AreRowsAbove self.now.period o.height cs (take o.rows rows.new)) }
        ensures deepest { (cs : List Checkpoint) → IsIndexPart self.now.period self.now.bytes cs
            → IfOk result (λ o. 0 < o.height
            → length rows.old < length (layer_at self.now.period (o.height - 1) cs)) }
        ensures height { (cs : List Checkpoint) → IsIndexPart self.now.period self.now.bytes cs
            → IfOk result (λ o. o.height ≤ digit_count self.now.period (length cs)) }
        ensures few { IfOk result (λ o. o.height ≤ 64) }
        ensures room { IfOk result (λ o. o.rows ≤ length rows.old) }
        ensures rest { IfOk result (λ o. drop o.rows rows.new ≡ drop o.rows rows.old) }
        ensures refused { IfErr result (λ e. (e ≡ StoreError.BadIndex) × (rows.new ≡ rows.old)) }
    {
        let _ = &self.period;
        let deepest = self.deepest(rows.len())?;
        let count = fill(LayerCursor::new(deepest.layer), rows);
        write_guides(&mut rows[..count]);
        Ok(Outline {
            rows: count,
            height: deepest.height,
        })
    }
}

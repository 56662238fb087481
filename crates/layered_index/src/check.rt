//! The check of an index: each layer is decoded once, and compared with the pointers of the layer above.
ghost use Rattle.std.specs.Prelude.{◌≡◌, ◌≤◌, ℕ, List, [], length, Some, None, IfOk, IfErr, IfSome, IsNone, IsSome};
ghost use Rattle.std.specs.Prelude.{MatchResult, is_some};
ghost use Rattle.store_base.specs.Serialize.{IsBytes};
ghost use Rattle.layered_index.specs.IndexReading.{AreLayersBelow, last_items, HasIndex};
ghost use Rattle.layered_index.specs.Faults.{HasFault, IsFirstFault};
ghost use Rattle.layered_index.specs.Sought.{layers_left};
ghost use Rattle.layered_index.specs.Tallies.{no_tally, kept, IsChecked};

use crate::index_fault::IndexFault;
use crate::index_slice::{IndexSlice, MOST_LAYERS, next_layer, pass_numbers};
use crate::layer_cursor::LayerCursor;
use crate::layers::{digit_count, walk_layer};
use crate::row::Row;
use crate::tally::Tally;
use store_base::{DocId, first_number};

/// What the check of an index found of its checkpoints.
#[derive(Clone, Copy)]
pub struct CheckedIndex {
    /// How many there are.
    pub count: usize,
    /// Where they end, their documents and their bytes, if they begin at the first document and the first byte and each
    /// has a document and a byte.
    pub covered: Option<(DocId, usize)>,
}

// Whether this many layers can be cut off, and no byte follows them.
fn is_cut(count: usize, ends: &[u8], texts: &[u8]) -> bool
    ensures { result ≡ is_some (layers_left count 0 ends.now texts.now) }
{
    let mut place = 0;
    let mut ends_left = ends;
    let mut texts_left = texts;
    for _ in 0..count {
        let Some((_, end, more_ends, more)) = next_layer(place, ends_left, texts_left) else {
            return false;
        };
        place = end;
        ends_left = more_ends;
        texts_left = more;
    }
    texts_left.is_empty()
}

// Walks over layers from the top down, the last ones of an index of these bytes. What is kept in the end are the
// checkpoints of the last one.
fn walk_down(
    period: usize,
    bytes: &[u8],
    count: usize,
    ends: &[u8],
    texts: &[u8],
    rows: &mut [Row],
) -> Result<Tally, IndexFault>
    requires cut { IsSome (layers_left count 0 ends.now texts.now) }
    requires within { length texts.now ≤ length bytes.now }
    ensures bytes { IsBytes bytes.now }
    ensures walked { (ts : List (List ℕ)) → layers_left count 0 ends.now texts.now ≡ Some ts → MatchResult result
        (λ tally. AreLayersBelow period None ts
        × ((tally, rows.new) ≡ kept (no_tally, rows.old) (last_items [] ts)))
        (λ fault. (AreLayersBelow period None ts → ⊥) × HasFault period (length bytes.now) None ts fault) }
{
    let mut left = count;
    let mut place = 0;
    let mut ends_left = ends;
    let mut texts_left = texts;
    let mut above = None;
    let mut tally = Tally::NONE;
    while left > 0 {
        let Some((layer, end, more_ends, more)) = next_layer(place, ends_left, texts_left) else {
            unreachable!()
        };
        let room = if left == 1 { rows.len() } else { 0 };
        match walk_layer(period, layer, above, &mut rows[..room]) {
            Ok(walked) => tally = walked,
            Err(byte) => {
                return Err(IndexFault {
                    layer: Some(left - 1),
                    byte: bytes.len() - texts_left.len() + byte,
                });
            }
        }
        above = Some(LayerCursor::new(layer));
        left -= 1;
        place = end;
        ends_left = more_ends;
        texts_left = more;
    }
    Ok(tally)
}

impl<'a> IndexSlice<'a> {
    /// Checks that the bytes are the index of a list in line. Each layer is decoded once, from the top down, and
    /// compared with the pointers of the layer above. It takes no memory.
    ///
    /// It writes the rows of the bottom layer over the front of these, as many as there is room for, with no guides. It
    /// returns the first fault where the bytes break a rule, and then the rows may be anything.
    pub fn check(&self, rows: &mut [Row]) -> Result<CheckedIndex, IndexFault>
        ensures checked { IfOk result (λ x. IsChecked self.now.period self.now.bytes x rows.old rows.new) }
        ensures broken { IfErr result (λ fault. (HasIndex self.now.period self.now.bytes → ⊥)
            × IsFirstFault self.now.period self.now.bytes fault) }
    {
        let period = self.period as usize;
        if !is_cut(self.count, self.ends, self.texts) {
            return Err(IndexFault::OF_LIST);
        }
        let tally = walk_down(period, self.bytes, self.count, self.ends, self.texts, rows)?;
        if digit_count(period, tally.count) != self.count {
            return Err(IndexFault::OF_LIST);
        }
        Ok(CheckedIndex {
            count: tally.count,
            covered: tally.covered(),
        })
    }
}

/// Where the bytes first break a rule of an index whose full blocks have `period` checkpoints. It is `None` exactly if
/// they are the index of a list in line.
pub fn find_fault(bytes: &[u8], period: u8) -> Option<IndexFault>
    requires least { 2 ≤ period }
    requires most { period ≤ 64 }
    ensures sound { IsNone result → HasIndex period bytes.now }
    ensures broken { IsSome result → HasIndex period bytes.now → ⊥ }
    ensures first { IfSome result (IsFirstFault period bytes.now) }
{
    let Some((count, ends)) = first_number(bytes, MOST_LAYERS) else {
        return Some(IndexFault::OF_LIST);
    };
    let count = count as usize;
    let Some(texts) = pass_numbers(count, ends) else {
        return Some(IndexFault::OF_LIST);
    };
    let index = IndexSlice {
        period,
        bytes,
        count,
        ends,
        texts,
    };
    index.check(&mut []).err()
}

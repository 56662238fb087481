//! What is kept of the checkpoints of a layer: how many there are, where they end, and their rows.
ghost use Rattle.std.specs.Prelude.{◌≡◌, ◌<◌, ◌+◌, ◌^◌, [], ◌∷◌};
ghost use Rattle.layered_index.specs.Covering.{goes_on};
ghost use Rattle.layered_index.specs.Tallies.{no_tally, kept, covered_by};

use crate::checkpoint::Checkpoint;
use crate::row::{Row, RowEnd};
use store_base::DocId;

/// How many checkpoints there are, where the last ends, and whether the first begins at the first document and the
/// first byte and each goes on where the one before it ends, with a document and a byte.
#[derive(Clone, Copy)]
pub(crate) struct Tally {
    pub count: usize,
    pub end: RowEnd,
    pub covers: bool,
}

// Whether a checkpoint begins here, and has a document and a byte.
fn goes_on(end: RowEnd, checkpoint: &Checkpoint) -> bool
    ensures { result ≡ goes_on end.end_doc end.end_byte checkpoint.now }
{
    checkpoint.doc_range.start == end.end_doc
        && checkpoint.byte_range.start == end.end_byte
        && end.end_doc < checkpoint.doc_range.end
        && end.end_byte < checkpoint.byte_range.end
}

impl Tally {
    /// That of no checkpoints.
    pub(crate) const NONE: Tally = Tally {
        count: 0,
        end: RowEnd::ZERO,
        covers: true,
    };

    /// One more checkpoint. Its row is written over the one with its index, if there is one.
    #[inline(always)]
    pub(crate) fn add(&mut self, checkpoint: &Checkpoint, rows: &mut [Row])
        requires { self.old.count + 1 < 2 ^ 64 }
        ensures { (self.new, rows.new) ≡ kept (self.old, rows.old) (checkpoint.now ∷ []) }
    {
        let end = RowEnd {
            end_doc: checkpoint.doc_range.end,
            end_byte: checkpoint.byte_range.end,
        };
        if self.count < rows.len() {
            rows[self.count] = Row::new(end);
        }
        self.covers = self.covers && goes_on(self.end, checkpoint);
        self.end = end;
        self.count += 1;
    }

    /// Where the checkpoints end, if they cover all that is before.
    pub(crate) fn covered(&self) -> Option<(DocId, usize)>
        ensures { result ≡ covered_by self.now }
    {
        if self.covers {
            Some((self.end.end_doc, self.end.end_byte))
        } else {
            None
        }
    }
}

//! Where blocks of documents lie, and how they are found.
ghost use Rattle.std.specs.Prelude.{◌≡◌, ◌↔◌, IsTrue};
ghost use Rattle.layered_index.specs.Checkpoint.{Follows};

use std::fmt;
use std::ops::Range;
use store_base::DocId;

/// How many checkpoints a full block of a layer has, where nothing else is said.
pub const CHECKPOINT_PERIOD: usize = 8;

/// The same number, of the type that periods have.
pub const USUAL_PERIOD: u8 = CHECKPOINT_PERIOD as u8;

/// The ids of a block's documents, and the place of its bytes; both half open.
#[derive(Clone, PartialEq, Eq, Default, Drop)]
pub struct Checkpoint {
    pub doc_range: Range<DocId>,
    pub byte_range: Range<usize>,
}

impl fmt::Debug for Checkpoint {
    fn fmt<W: fmt::Write>(&self, f: &mut fmt::Formatter<W>) -> fmt::Result {
        write!(f, "(doc={:?}, bytes={:?})", self.doc_range, self.byte_range)
    }
}

impl Checkpoint {
    /// Whether it begins where the other ends.
    pub fn follows(&self, other: &Checkpoint) -> bool
        ensures { IsTrue result ↔ Follows self.now other.now }
    {
        self.doc_range.start == other.doc_range.end && self.byte_range.start == other.byte_range.end
    }

    // The same again. Unlike `clone` it can't fail.
    pub(crate) fn copied(&self) -> Checkpoint
        ensures { result ≡ self.now }
    {
        Checkpoint {
            doc_range: self.doc_range.start..self.doc_range.end,
            byte_range: self.byte_range.start..self.byte_range.end,
        }
    }
}

//! A row: where a checkpoint of a layer ends.
ghost use Rattle.std.specs.Prelude.{◌≡◌};
ghost use Rattle.layered_index.specs.Rows.{end_of, row_of};

use store_base::DocId;

/// Where a checkpoint ends. It begins where the one before it ends, and the first one at 0.
#[derive(Clone, Copy)]
pub struct RowEnd {
    /// One more than the number of its last document.
    pub end_doc: DocId,
    /// How many bytes come before its end: of the data, or of the layer below.
    pub end_byte: usize,
}

/// Where a checkpoint of a layer ends, and a number that makes seeks quick.
#[repr(C)]
#[derive(Clone, Copy)]
pub struct Row {
    /// One more than the number of the checkpoint's last document.
    pub end_doc: DocId,
    /// How many checkpoints end before a stretch of the documents: of those into which a seek parts them, the one with
    /// the row's index. A seek begins there, or at an even share of the rows where it is 0. It may be anything.
    pub guide: u32,
    /// How many bytes come before its end: of the data, or of the layer below.
    pub end_byte: usize,
}

impl RowEnd {
    /// Where the first checkpoint begins.
    pub const ZERO: RowEnd = RowEnd {
        end_doc: 0,
        end_byte: 0,
    };
}

impl Row {
    /// The row of a checkpoint that ends here, with no guide.
    pub fn new(end: RowEnd) -> Row
        ensures { result ≡ row_of end }
    {
        Row {
            end_doc: end.end_doc,
            guide: 0,
            end_byte: end.end_byte,
        }
    }

    /// Where the checkpoint ends.
    pub fn end(&self) -> RowEnd
        ensures { result ≡ end_of self.now }
    {
        RowEnd {
            end_doc: self.end_doc,
            end_byte: self.end_byte,
        }
    }
}

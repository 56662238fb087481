//! Why a call that reads was refused.
ghost use Rattle.std.specs.Prelude.{◌≡◌};
ghost use Rattle.store_c.specs.Calls.{refusal_number};

/// Why a call that reads was refused, by the number that C gets. Up to 16 these are those of `StoreError`.
#[derive(Clone, Copy, PartialEq, Eq)]
pub enum Refusal {
    /// The store has no document of this number.
    NoDocument = 6,
    /// The document's block doesn't say where the document lies.
    Damaged = 7,
    /// The table has fewer rows than the store has blocks.
    NoRoom = 32,
    /// The table is not that of the file.
    OtherTable = 33,
    /// The end of the file lacks the footer or a part of the index.
    TailTooShort = 36,
    /// The place is of no block with this document and this many bytes.
    OtherBlock = 37,
}

impl Refusal {
    /// The number that C is given.
    pub(crate) fn number(self) -> u32
        ensures { result ≡ refusal_number self }
    {
        self as u32
    }
}

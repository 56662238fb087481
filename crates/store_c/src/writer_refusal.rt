//! Why a call that writes was refused.
ghost use Rattle.std.specs.Prelude.{◌≡◌};
ghost use Rattle.store_c.specs.Writing.{writer_number};

/// Why a call that writes was refused, by the number that C gets. Up to 16 these are those of `StoreError`.
#[derive(Clone, Copy, PartialEq, Eq)]
pub enum WriterRefusal {
    /// A growth was refused.
    NoMemory = 10,
    /// The documents of the store to be stacked may be in an older form.
    OldVersion = 11,
    /// The block of the open documents with this one has no place in 32 bits.
    BlockTooLarge = 13,
    /// The documents can't be numbered.
    TooManyDocs = 14,
    /// The period is below 2 or above 64.
    BadPeriod = 16,
    /// What is to be written has no room in the caller's memory.
    NoRoom = 32,
    /// The open block has documents, and must be ended first.
    OpenBlock = 34,
    /// The writer's numbers and its table are not as these calls left them.
    OtherWriter = 35,
}

impl WriterRefusal {
    /// The number that C is given.
    pub(crate) fn number(self) -> u32
        ensures { result ≡ writer_number self }
    {
        self as u32
    }
}

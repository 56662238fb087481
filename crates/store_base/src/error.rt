//! Why a call on a store was refused.

ghost use Rattle.std.specs.Prelude.{◌≡◌};
ghost use Rattle.store_base.specs.Outcome.{number_of};

use crate::DocId;
use crate::fault::{NoMemory, ReadFault, WriteFault};
use std::alloc::{AllocError, AllocFailed};
use thiserror::Error;

/// Why a writer has failed for good.
#[derive(Clone, Copy, Debug, PartialEq, Eq, Error)]
pub enum Cause {
    /// The output refused a write, or its end.
    #[error("a write failed")]
    Write,
    /// Memory ran out after bytes of the call were written.
    #[error("no memory")]
    Memory,
}

/// Why a call on a store was refused. Each has a number of its own, which never changes.
#[derive(Clone, Copy, Debug, PartialEq, Eq, Error)]
pub enum StoreError {
    /// The file has fewer bytes than a footer; it carries how many.
    #[error("file of {0} bytes is shorter than a footer")]
    ShortFile(u64),
    /// The footer has a version that isn't known.
    #[error("unknown store version {0}")]
    BadVersion(u32),
    /// The footer names a kind of block that isn't read here.
    #[error("block kind {0} is not raw")]
    BadBlockKind(u8),
    /// The footer's offset is past the bytes before it.
    #[error("index offset is past the body")]
    BadOffset,
    /// The bytes are not the one spelling of checkpoints in line, or these don't cover the data.
    #[error("index is not the encoding of a list of checkpoints")]
    BadIndex,
    /// The store has no document of this number.
    #[error("no document {0}")]
    InvalidArgument(DocId),
    /// The document's block doesn't say where the document lies.
    #[error("document {0} is damaged")]
    DamagedDocument(DocId),
    /// The bytes are no document of the type asked for.
    #[error("document bytes can't be read")]
    BadDocument,
    /// The file refused a read.
    #[error("a read failed")]
    Read,
    /// A growth was refused.
    #[error("no memory")]
    Memory,
    /// The store's documents may be in an older form, which nothing translates.
    #[error("a version 1 store can't be stacked")]
    OldVersion,
    /// The document names a field that the schema lacks.
    #[error("document has no bytes in this schema")]
    Unserializable,
    /// The pending block with this document would reach 2^32 bytes.
    #[error("block would reach 2^32 bytes")]
    BlockTooLarge,
    /// The store would pass 2^32 - 1 documents.
    #[error("store would pass 4294967295 documents")]
    TooManyDocs,
    /// The writer had failed before, or fails now.
    #[error("writer has failed")]
    Failed(Cause),
    /// The footer of version 3 has a period below 2 or above 64.
    #[error("bad checkpoint period {0}")]
    BadPeriod(u8),
}

impl StoreError {
    /// The refusal's number, for programs that print it. 17 was given up and is never used.
    pub fn number(&self) -> u32
        ensures { result ≡ number_of self.now }
    {
        match self {
            StoreError::ShortFile(_) => 1,
            StoreError::BadVersion(_) => 2,
            StoreError::BadBlockKind(_) => 3,
            StoreError::BadOffset => 4,
            StoreError::BadIndex => 5,
            StoreError::InvalidArgument(_) => 6,
            StoreError::DamagedDocument(_) => 7,
            StoreError::BadDocument => 8,
            StoreError::Read => 9,
            StoreError::Memory => 10,
            StoreError::OldVersion => 11,
            StoreError::Unserializable => 12,
            StoreError::BlockTooLarge => 13,
            StoreError::TooManyDocs => 14,
            StoreError::Failed(_) => 15,
            StoreError::BadPeriod(_) => 16,
        }
    }
}

impl From<Cause> for StoreError {
    ghost use Rattle.std.specs.Prelude.{◌≡◌};
    ghost use Rattle.store_base.specs.declared.error.StoreError.TheVariants.{Failed};

    ghost from_gives = { λ cause e. e ≡ Failed cause };

    fn from(cause: Cause) -> StoreError {
        StoreError::Failed(cause)
    }
}

impl From<NoMemory> for StoreError {
    ghost use Rattle.std.specs.Prelude.{◌≡◌};
    ghost use Rattle.store_base.specs.declared.error.StoreError.TheVariants.{Memory};

    ghost from_gives = { λ _ e. e ≡ Memory };

    fn from(_: NoMemory) -> StoreError {
        StoreError::Memory
    }
}

impl From<AllocError> for StoreError {
    ghost use Rattle.std.specs.Prelude.{◌≡◌};
    ghost use Rattle.store_base.specs.declared.error.StoreError.TheVariants.{Memory};

    ghost from_gives = { λ _ e. e ≡ Memory };

    fn from(_: AllocError) -> StoreError {
        StoreError::Memory
    }
}

impl<T: Drop> From<AllocFailed<T>> for StoreError {
    ghost use Rattle.std.specs.Prelude.{◌≡◌};
    ghost use Rattle.store_base.specs.declared.error.StoreError.TheVariants.{Memory};

    ghost from_gives = { λ _ e. e ≡ Memory };

    fn from(_: AllocFailed<T>) -> StoreError {
        StoreError::Memory
    }
}

impl From<WriteFault> for StoreError {
    ghost use Rattle.std.specs.Prelude.{◌≡◌};
    ghost use Rattle.store_base.specs.declared.error.Cause.TheVariants.{Write};
    ghost use Rattle.store_base.specs.declared.error.StoreError.TheVariants.{Failed};

    ghost from_gives = { λ _ e. e ≡ Failed Write };

    fn from(_: WriteFault) -> StoreError {
        StoreError::Failed(Cause::Write)
    }
}

impl From<ReadFault> for StoreError {
    ghost use Rattle.std.specs.Prelude.{◌≡◌};
    ghost use Rattle.store_base.specs.Outcome.{read_refusal};

    ghost from_gives = { λ fault e. e ≡ read_refusal fault };

    fn from(fault: ReadFault) -> StoreError {
        match fault {
            ReadFault::Device => StoreError::Read,
            ReadFault::Memory => StoreError::Memory,
        }
    }
}

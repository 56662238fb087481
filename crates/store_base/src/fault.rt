//! Why a call was refused. Each type closes the list of causes that its calls have.

use std::alloc::{AllocError, AllocFailed};
use thiserror::Error;

/// Why bytes were not read as a value.
#[derive(Clone, Copy, Debug, PartialEq, Eq, Error)]
pub enum DecodeFault {
    /// The bytes end too early: more bytes could make a value of them.
    #[error("bytes end too early")]
    Short,
    /// The bytes are another spelling, or a value past the type.
    #[error("bytes spell no value")]
    Malformed,
    /// The version is not one of the known ones.
    #[error("unknown version {0}")]
    Version(u32),
    /// The kind of block is not one of the known ones.
    #[error("unknown block kind {0}")]
    Kind(u8),
    /// The period of an index is below 2 or above 64.
    #[error("bad checkpoint period {0}")]
    Period(u8),
    /// A growth was refused.
    #[error("no memory")]
    Memory,
}

/// Why a file was not read.
#[derive(Clone, Copy, Debug, PartialEq, Eq, Error)]
pub enum ReadFault {
    /// The device failed, which its count of failures shows.
    #[error("the device failed")]
    Device,
    /// A growth was refused.
    #[error("no memory")]
    Memory,
}

/// A write, or the end of an output, failed. Its count of failures shows it.
#[derive(Clone, Copy, Debug, PartialEq, Eq, Error)]
#[error("the output failed")]
pub struct WriteFault;

/// Why a document was not written as bytes, or bytes were not read as a document.
#[derive(Clone, Copy, Debug, PartialEq, Eq, Error)]
pub enum DocFault {
    /// The document has no bytes in the schema, or the bytes are no document.
    #[error("no document")]
    Refused,
    /// A growth was refused.
    #[error("no memory")]
    Memory,
}

/// A growth was refused: the only error of a call that returns this.
#[derive(Clone, Copy, Debug, PartialEq, Eq, Error)]
#[error("no memory")]
pub struct NoMemory;

impl From<AllocError> for NoMemory {
    fn from(_: AllocError) -> NoMemory {
        NoMemory
    }
}

impl<T: Drop> From<AllocFailed<T>> for NoMemory {
    fn from(_: AllocFailed<T>) -> NoMemory {
        NoMemory
    }
}

impl From<AllocError> for DecodeFault {
    ghost use Rattle.std.specs.Prelude.{◌≡◌};
    ghost use Rattle.store_base.specs.declared.fault.DecodeFault.TheVariants.{Memory};

    ghost from_gives = { λ _ e. e ≡ Memory };

    fn from(_: AllocError) -> DecodeFault {
        DecodeFault::Memory
    }
}

impl<T: Drop> From<AllocFailed<T>> for DecodeFault {
    ghost use Rattle.std.specs.Prelude.{◌≡◌};
    ghost use Rattle.store_base.specs.declared.fault.DecodeFault.TheVariants.{Memory};

    ghost from_gives = { λ _ e. e ≡ Memory };

    fn from(_: AllocFailed<T>) -> DecodeFault {
        DecodeFault::Memory
    }
}

impl From<NoMemory> for ReadFault {
    ghost use Rattle.std.specs.Prelude.{◌≡◌};
    ghost use Rattle.store_base.specs.declared.fault.ReadFault.TheVariants.{Memory};

    ghost from_gives = { λ _ e. e ≡ Memory };

    fn from(_: NoMemory) -> ReadFault {
        ReadFault::Memory
    }
}

impl From<NoMemory> for DocFault {
    ghost use Rattle.std.specs.Prelude.{◌≡◌};
    ghost use Rattle.store_base.specs.declared.fault.DocFault.TheVariants.{Memory};

    ghost from_gives = { λ _ e. e ≡ Memory };

    fn from(_: NoMemory) -> DocFault {
        DocFault::Memory
    }
}

impl From<AllocError> for DocFault {
    ghost use Rattle.std.specs.Prelude.{◌≡◌};
    ghost use Rattle.store_base.specs.declared.fault.DocFault.TheVariants.{Memory};

    ghost from_gives = { λ _ e. e ≡ Memory };

    fn from(_: AllocError) -> DocFault {
        DocFault::Memory
    }
}

impl<T: Drop> From<AllocFailed<T>> for DocFault {
    ghost use Rattle.std.specs.Prelude.{◌≡◌};
    ghost use Rattle.store_base.specs.declared.fault.DocFault.TheVariants.{Memory};

    ghost from_gives = { λ _ e. e ≡ Memory };

    fn from(_: AllocFailed<T>) -> DocFault {
        DocFault::Memory
    }
}

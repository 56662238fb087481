//! Errors of requests to a store.

use docstore::{DocId, NoMemory, ReadFault, StoreError};
use std::alloc::{AllocError, AllocFailed};
use thiserror::Error;

/// Why a request to a store failed.
#[derive(Debug, Drop, Error)]
pub enum RequestError {
    /// Words name no documents; it carries why.
    #[error("{0}")]
    NoRange(String),
    /// No document has this number: they have those from `first` to before `end`, in a store from 0 on.
    #[error("no document {number}; the store has {end}, numbered from 0")]
    NoDocument { number: u64, first: u64, end: u64 },
    /// The store claims at least eight documents for each of its bytes, so some of them are damaged, and a set of those
    /// that are kept would take more memory than the file.
    #[error("it claims {num_docs} documents in {bytes} bytes of blocks and index, so some of them are damaged")]
    TooManyDocuments { num_docs: DocId, bytes: u64 },
    /// A call on the store was refused.
    #[error("{0}")]
    Store(StoreError),
}

impl From<StoreError> for RequestError {
    ghost use Rattle.std.specs.Prelude.{◌≡◌};
    ghost use Rattle.store_commands.specs.declared.request_error.RequestError.TheVariants.{Store};

    ghost from_gives = { λ error e. e ≡ Store error };

    fn from(error: StoreError) -> RequestError {
        RequestError::Store(error)
    }
}

impl From<ReadFault> for RequestError {
    ghost use Rattle.std.specs.Prelude.{◌≡◌};
    ghost use Rattle.store_base.specs.Outcome.{read_refusal};
    ghost use Rattle.store_commands.specs.declared.request_error.RequestError.TheVariants.{Store};

    ghost from_gives = { λ fault e. e ≡ Store (read_refusal fault) };

    fn from(fault: ReadFault) -> RequestError {
        RequestError::Store(StoreError::from(fault))
    }
}

impl From<NoMemory> for RequestError {
    ghost use Rattle.std.specs.Prelude.{◌≡◌};
    ghost use Rattle.store_base.specs.declared.error.StoreError.TheVariants.{Memory};
    ghost use Rattle.store_commands.specs.declared.request_error.RequestError.TheVariants.{Store};

    ghost from_gives = { λ _ e. e ≡ Store Memory };

    fn from(_: NoMemory) -> RequestError {
        RequestError::Store(StoreError::Memory)
    }
}

impl From<AllocError> for RequestError {
    ghost use Rattle.std.specs.Prelude.{◌≡◌};
    ghost use Rattle.store_base.specs.declared.error.StoreError.TheVariants.{Memory};
    ghost use Rattle.store_commands.specs.declared.request_error.RequestError.TheVariants.{Store};

    ghost from_gives = { λ _ e. e ≡ Store Memory };

    fn from(_: AllocError) -> RequestError {
        RequestError::Store(StoreError::Memory)
    }
}

impl<T: Drop> From<AllocFailed<T>> for RequestError {
    ghost use Rattle.std.specs.Prelude.{◌≡◌};
    ghost use Rattle.store_base.specs.declared.error.StoreError.TheVariants.{Memory};
    ghost use Rattle.store_commands.specs.declared.request_error.RequestError.TheVariants.{Store};

    ghost from_gives = { λ _ e. e ≡ Store Memory };

    fn from(_: AllocFailed<T>) -> RequestError {
        RequestError::Store(StoreError::Memory)
    }
}

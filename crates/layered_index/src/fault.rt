//! Why bytes were refused, inside the crate.

use std::alloc::{AllocError, AllocFailed};
use store_base::{NoMemory, StoreError};

/// A part that was read by itself. Two cases, where a `StoreError` has many.
#[derive(Clone, Copy, Debug, PartialEq, Eq)]
pub(crate) enum ReadFault {
    Malformed,
    OutOfMemory,
}

impl From<ReadFault> for StoreError {
    ghost use Rattle.std.specs.Prelude.{◌≡◌};
    ghost use Rattle.layered_index.specs.Refusal.{refusal_of};

    ghost from_gives = { λ fault e. e ≡ refusal_of fault };

    fn from(fault: ReadFault) -> StoreError {
        match fault {
            ReadFault::Malformed => StoreError::BadIndex,
            ReadFault::OutOfMemory => StoreError::Memory,
        }
    }
}

impl From<NoMemory> for ReadFault {
    ghost use Rattle.std.specs.Prelude.{◌≡◌};
    ghost use Rattle.layered_index.specs.declared.fault.ReadFault.TheVariants.{OutOfMemory};

    ghost from_gives = { λ _ e. e ≡ OutOfMemory };

    fn from(_: NoMemory) -> ReadFault {
        ReadFault::OutOfMemory
    }
}

impl From<AllocError> for ReadFault {
    ghost use Rattle.std.specs.Prelude.{◌≡◌};
    ghost use Rattle.layered_index.specs.declared.fault.ReadFault.TheVariants.{OutOfMemory};

    ghost from_gives = { λ _ e. e ≡ OutOfMemory };

    fn from(_: AllocError) -> ReadFault {
        ReadFault::OutOfMemory
    }
}

impl<T: Drop> From<AllocFailed<T>> for ReadFault {
    ghost use Rattle.std.specs.Prelude.{◌≡◌};
    ghost use Rattle.layered_index.specs.declared.fault.ReadFault.TheVariants.{OutOfMemory};

    ghost from_gives = { λ _ e. e ≡ OutOfMemory };

    fn from(_: AllocFailed<T>) -> ReadFault {
        ReadFault::OutOfMemory
    }
}

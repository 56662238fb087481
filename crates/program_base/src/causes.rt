//! What went wrong where a library returns an error.

use crate::failure::FailureCause;
use crate::store_file::explained;
use docstore::{NoMemory, StoreError};
use document_framing::{FramingFault, ShowError};
use std::alloc::{AllocError, AllocFailed};
use std::io;
use store_commands::RequestError;
use store_commands::block_walk::GivingError;
use store_commands::merging::MergeFailure;
use store_files::{CreateError, DiskFile, ReadAt};

impl From<io::Error> for FailureCause {
    fn from(error: io::Error) -> FailureCause {
        FailureCause::System(error)
    }
}

impl From<FramingFault> for FailureCause {
    fn from(fault: FramingFault) -> FailureCause {
        match fault {
            FramingFault::Io(error) => FailureCause::System(error),
            FramingFault::Cut => FailureCause::CutInput,
            FramingFault::Endless => FailureCause::System(io::ErrorKind::InvalidData.into()),
        }
    }
}

impl From<CreateError> for FailureCause {
    fn from(error: CreateError) -> FailureCause {
        FailureCause::Create(error)
    }
}

impl From<StoreError> for FailureCause {
    fn from(error: StoreError) -> FailureCause {
        FailureCause::Store(error)
    }
}

impl From<RequestError> for FailureCause {
    fn from(error: RequestError) -> FailureCause {
        match error {
            RequestError::NoRange(text) => FailureCause::Words(text),
            RequestError::Store(error) => FailureCause::Store(error),
            error => FailureCause::Request(error),
        }
    }
}

impl From<ShowError> for FailureCause {
    fn from(error: ShowError) -> FailureCause {
        match error {
            ShowError::Memory => FailureCause::Store(StoreError::Memory),
            ShowError::Output(error) => FailureCause::Output(error),
        }
    }
}

impl From<GivingError<ShowError>> for FailureCause {
    fn from(error: GivingError<ShowError>) -> FailureCause {
        match error {
            GivingError::Store(error) => FailureCause::Store(error),
            GivingError::Target(error) => FailureCause::from(error),
        }
    }
}

impl<F: ReadAt> From<MergeFailure<DiskFile<F>>> for FailureCause {
    fn from(failure: MergeFailure<DiskFile<F>>) -> FailureCause {
        match failure {
            MergeFailure::Request(error) => FailureCause::from(error),
            MergeFailure::Refused { error, reader } => {
                explained(reader.file(), FailureCause::Store(error))
            }
        }
    }
}

impl From<NoMemory> for FailureCause {
    fn from(_: NoMemory) -> FailureCause {
        FailureCause::Store(StoreError::Memory)
    }
}

impl From<AllocError> for FailureCause {
    fn from(_: AllocError) -> FailureCause {
        FailureCause::Store(StoreError::Memory)
    }
}

impl<T: Drop> From<AllocFailed<T>> for FailureCause {
    fn from(_: AllocFailed<T>) -> FailureCause {
        FailureCause::Store(StoreError::Memory)
    }
}

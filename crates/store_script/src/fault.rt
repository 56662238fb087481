//! Why a run ended early.
use docstore::{NoMemory, StoreError};
use std::alloc::AllocError;
use std::io;
use thiserror::Error;

/// Why a run ended before its input did. What a store refuses is an answer, and ends nothing.
#[derive(Clone, Copy, Debug, PartialEq, Eq, Error)]
pub enum ToolFault {
    /// The input refused a read, or did not end. Nothing was written.
    #[error("the input can't be read")]
    Input,
    /// The output refused a write.
    #[error("the output can't be written")]
    Output,
    /// The run's own lists found no memory.
    #[error("no memory")]
    Memory,
}

impl From<io::Error> for ToolFault {
    // A failed read is reported at its place: all other streams are written.
    fn from(_: io::Error) -> ToolFault {
        ToolFault::Output
    }
}

impl From<AllocError> for ToolFault {
    fn from(_: AllocError) -> ToolFault {
        ToolFault::Memory
    }
}

impl From<NoMemory> for ToolFault {
    fn from(_: NoMemory) -> ToolFault {
        ToolFault::Memory
    }
}

/// Why a store gives no answer. Its own error is an answer, and a fault of the tool ends the run.
#[derive(Clone, Copy)]
pub enum NoAnswer {
    Store(StoreError),
    Tool(ToolFault),
}

impl From<StoreError> for NoAnswer {
    fn from(error: StoreError) -> NoAnswer {
        NoAnswer::Store(error)
    }
}

impl From<AllocError> for NoAnswer {
    fn from(_: AllocError) -> NoAnswer {
        NoAnswer::Tool(ToolFault::Memory)
    }
}

impl From<NoMemory> for NoAnswer {
    fn from(_: NoMemory) -> NoAnswer {
        NoAnswer::Tool(ToolFault::Memory)
    }
}

//! Why a call on a log failed.

ghost use Rattle.std.specs.Prelude.{◌≡◌};
ghost use Rattle.segmented_log.specs.declared.error.LogError.TheVariants.{Memory};

use std::alloc::{AllocError, AllocFailed};
use std::error::Error;
use std::io::ErrorKind;
use std::{fmt, io};

/// Why a call failed on a log or on its folder.
#[derive(Clone, Copy, Debug)]
pub enum LogError {
    /// A growth was refused.
    Memory,
    /// A call of the folder failed, or a read of one of its files: what the system said.
    Failed(io::Error),
    /// A sync of a segment failed, or its writer was killed in it, so the disk may not have what is read of it.
    Unsynced,
    /// The log's numbers are used up, its tail is as long as it can be, or a store takes no more of its records.
    Full,
    /// The batch is as long as it can be: sync first.
    BatchFull,
    /// The record is longer than a record can be.
    TooLong,
    /// A call of the folder failed before: open the log again.
    Broken,
    /// The folder's files are no log.
    NoLog,
    /// The block of a segment does not say where the record lies.
    Damaged,
    /// The tail has bytes that are no whole batch, though they were written whole: another batch follows them, or the
    /// tail was on the disk. `repair` cuts them off.
    DamagedTail,
    /// A writer changed the log's files while they were read: open the log once more.
    Changed,
}

impl fmt::Display for LogError {
    fn fmt<W: fmt::Write>(&self, f: &mut fmt::Formatter<W>) -> fmt::Result {
        f.write_str(match self {
            LogError::Failed(reason) => return reason.fmt(f),
            LogError::Memory => "no memory",
            LogError::Unsynced => "a sync of a segment has failed",
            LogError::Full => "the log is full",
            LogError::BatchFull => "the batch is full",
            LogError::TooLong => "the record is too long",
            LogError::Broken => "the log must be opened again",
            LogError::NoLog => "there is no log",
            LogError::Damaged => "the record is damaged",
            LogError::DamagedTail => "the tail is damaged",
            LogError::Changed => "the log was changed while it was read",
        })
    }
}

impl Error for LogError {}

impl From<AllocError> for LogError {
    ghost from_gives = { λ _ e. e ≡ Memory };

    fn from(_: AllocError) -> Self {
        LogError::Memory
    }
}

impl<T: Drop> From<AllocFailed<T>> for LogError {
    ghost from_gives = { λ _ e. e ≡ Memory };

    fn from(_: AllocFailed<T>) -> Self {
        LogError::Memory
    }
}

impl From<io::Error> for LogError {
    ghost use Rattle.segmented_log.specs.Causes.{IsOfSystem};

    ghost from_gives = { λ error e. IsOfSystem error e };

    fn from(error: io::Error) -> Self {
        if error.kind() == ErrorKind::OutOfMemory {
            LogError::Memory
        } else {
            LogError::Failed(error)
        }
    }
}

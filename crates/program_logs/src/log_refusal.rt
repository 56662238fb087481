//! What the program reports where a log refuses a call.

use framed_logs::{PrintError, ReadError};
use program_base::failure::FailureCause;
use program_base::log_refusal::LogRefusal;
use segmented_log::LogError;
use store_commands::RequestError;

/// Why a call failed that a log refuses with this error.
pub fn refused(error: LogError) -> FailureCause {
    FailureCause::Log(match error {
        LogError::Failed(reason) => return FailureCause::System(reason),
        LogError::Memory => LogRefusal::Memory,
        LogError::Unsynced => LogRefusal::Unsynced,
        LogError::Full => LogRefusal::Full,
        LogError::BatchFull => LogRefusal::BatchFull,
        LogError::TooLong => LogRefusal::TooLong,
        LogError::Broken | LogError::Changed => LogRefusal::Reopen,
        LogError::NoLog => LogRefusal::BrokenFiles,
        LogError::Damaged => LogRefusal::DamagedRecord,
        LogError::DamagedTail => LogRefusal::DamagedTail,
    })
}

/// Why a log was not opened to be read, or no record of it read.
pub fn unread(error: ReadError) -> FailureCause {
    match error {
        ReadError::NoRecord { number, first, end } => FailureCause::NoRecord { number, first, end },
        ReadError::Damaged(number) => FailureCause::DamagedRecord(number),
        ReadError::Busy => FailureCause::Log(LogRefusal::Busy),
        ReadError::Log(error) => refused(error),
    }
}

/// Why a log has not all records of a range, or a word names none.
pub fn unnamed(error: RequestError) -> FailureCause {
    match error {
        RequestError::NoDocument { number, first, end } => {
            FailureCause::NoRecord { number, first, end }
        }
        error => error.into(),
    }
}

/// Why not all records were printed.
pub fn unprinted(error: PrintError) -> FailureCause {
    match error {
        PrintError::Read(error) => unread(error),
        PrintError::Show(error) => error.into(),
    }
}

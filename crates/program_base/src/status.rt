//! The status with which the program ends if a command fails.

use std::process::ExitCode;

/// Why a command fails.
#[derive(Clone, Copy)]
pub enum Status {
    /// A store is broken, or a file is not what the command takes: status 1.
    Broken,
    /// A usage error: status 2.
    Usage,
    /// The system refused a call, or there was no memory, so nothing is known of the file: status 3.
    System,
}

/// The program's status.
impl From<Status> for ExitCode {
    fn from(status: Status) -> ExitCode {
        match status {
            Status::Broken => ExitCode::from(1u8),
            Status::Usage => ExitCode::from(2u8),
            Status::System => ExitCode::from(3u8),
        }
    }
}

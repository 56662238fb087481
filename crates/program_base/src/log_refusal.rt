//! Why a log refuses a call, and what is said of it.

use crate::status::Status;

// What to do where files or a record of a log are broken.
const VERIFY: &str = "; 'zevkhadun log verify' says where";

// What to do where bytes of the tail are damaged.
const REPAIR: &str = "; get it from a copy, or see 'zevkhadun log repair --help'";

/// Why a log refuses a call.
#[derive(Clone, Copy)]
pub enum LogRefusal {
    /// There is no log in the folder, and no place for a new one.
    NotLog,
    /// Another process writes the log.
    Busy,
    /// A folder has segments of a log, and no tail.
    NoTail,
    Memory,
    /// A sync of a segment failed.
    Unsynced,
    Full,
    BatchFull,
    TooLong,
    /// A call on its folder failed before.
    Reopen,
    /// Its files are no log's.
    BrokenFiles,
    DamagedRecord,
    DamagedTail,
}

impl LogRefusal {
    /// What is wrong, what to do, where there is something to do, and the status.
    pub(crate) fn says(self) -> (&'static str, &'static str, Status) {
        match self {
            LogRefusal::NotLog => (
                "not a log",
                "; 'zevkhadun log append' begins one in a new or empty folder",
                Status::Broken,
            ),
            LogRefusal::Busy => (
                "the log is being written by another",
                "; wait until it ends, or stop it",
                Status::System,
            ),
            LogRefusal::NoTail => (
                "tail.log is missing",
                "; get it from a copy, or make an empty one as docs/LOG.md says",
                Status::Broken,
            ),
            LogRefusal::Memory => ("no memory", "", Status::System),
            LogRefusal::Unsynced => ("a sync of a segment has failed", "", Status::System),
            LogRefusal::Full => ("the log is full", "", Status::Broken),
            LogRefusal::BatchFull => (
                "the batch is full",
                "; use '--sync batch', without '--expect'",
                Status::Broken,
            ),
            LogRefusal::TooLong => ("the record is too long", "", Status::Broken),
            LogRefusal::Reopen => ("the log must be opened again", "", Status::System),
            LogRefusal::BrokenFiles => ("the log's files are broken", VERIFY, Status::Broken),
            LogRefusal::DamagedRecord => ("a record is damaged", VERIFY, Status::Broken),
            LogRefusal::DamagedTail => ("the tail is damaged", REPAIR, Status::Broken),
        }
    }
}

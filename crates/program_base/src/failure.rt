//! Why a command failed, and the line that reports it.

ghost use Rattle.std.specs.Prelude.{◌≡◌, Ok, IfOk};

use crate::log_refusal::LogRefusal;
use crate::progress::Things;
use crate::status::Status;
use docstore::StoreError;
use std::alloc::{AllocError, AllocFailed, Global};
use std::fmt::Display;
use std::{fmt, io};
use store_commands::RequestError;
use store_files::CreateError;

/// What went wrong. It has no texts: what owns a `&'static str` is proved in more time.
#[derive(Drop)]
pub enum FailureCause {
    /// The words of the command line are wrong.
    Words(String),
    /// A line of the standard input, counted from 1, is wrong.
    Line {
        number: u64,
        text: String,
    },
    /// The words are not UTF-8.
    NoText,
    /// The system refused a call.
    System(io::Error),
    /// The standard output refused a write.
    Output(io::Error),
    /// The output can't be begun.
    Create(CreateError),
    /// An input is the file that is written.
    InputIsOutput,
    /// A call on a store was refused.
    Store(StoreError),
    /// A request to a store was refused.
    Request(RequestError),
    /// The bytes after the store are not those that tantivy's directory leaves.
    NoTantivyTail,
    /// The input of lengths and documents ends within one.
    CutInput,
    /// Another number of documents or records came than was expected.
    OtherCount {
        things: Things,
        expected: u64,
        came: u64,
    },
    /// A call on a log was refused.
    Log(LogRefusal),
    /// The log has no record of this number: its records have the numbers from `first` to before `end`.
    NoRecord {
        number: u64,
        first: u64,
        end: u64,
    },
    /// The record of this number is damaged.
    DamagedRecord(u64),
    /// It was reported already, and has this status.
    Reported(Status),
}

impl FailureCause {
    /// Why the system refused a call on an output.
    pub fn of_output(error: io::Error) -> FailureCause {
        if error.kind() == io::ErrorKind::AlreadyExists {
            return FailureCause::Create(CreateError::Exists);
        }
        FailureCause::System(error)
    }

    // What is said of a cause that carries nothing which is printed.
    fn text(&self) -> &'static str {
        match self {
            FailureCause::NoText => "file names and other arguments have to be UTF-8",
            FailureCause::InputIsOutput => "this input is the output too",
            FailureCause::NoTantivyTail => "no footer of tantivy's directory at the end",
            FailureCause::CutInput => "the input ends inside a document",
            FailureCause::Log(refusal) => refusal.says().0,
            _ => "",
        }
    }

    // What to do, where there is something to do.
    fn advice(&self) -> &'static str {
        match self {
            FailureCause::Words(_) => "; try '--help'",
            FailureCause::Create(CreateError::Busy(_)) => "; wait until it ends, or stop it",
            FailureCause::DamagedRecord(_) => "; 'zevkhadun log verify' says where",
            FailureCause::Log(refusal) => refusal.says().1,
            FailureCause::Create(CreateError::Exists) =>
                "; choose another name, or give '--replace'",
            FailureCause::InputIsOutput => "; write to another name, and rename that file",
            FailureCause::NoTantivyTail =>
                "; leave '--tantivy' out for a file that is only a store",
            FailureCause::CutInput => "; does it have another framing?",
            FailureCause::Request(error) => advice_for_request(error),
            FailureCause::Store(error) => advice_for(error),
            _ => "",
        }
    }

    // The status with which the program ends.
    fn status(&self) -> Status {
        match self {
            FailureCause::Words(_) | FailureCause::NoText => Status::Usage,
            FailureCause::Create(error) => status_of_output(error),
            FailureCause::System(_) | FailureCause::Output(_) => Status::System,
            FailureCause::Log(refusal) => refusal.says().2,
            FailureCause::Store(error) => status_of(error),
            FailureCause::Request(RequestError::Store(error)) => status_of(error),
            FailureCause::Line { .. }
            | FailureCause::InputIsOutput
            | FailureCause::Request(_)
            | FailureCause::NoTantivyTail
            | FailureCause::CutInput
            | FailureCause::OtherCount { .. }
            | FailureCause::NoRecord { .. }
            | FailureCause::DamagedRecord(_) => Status::Broken,
            FailureCause::Reported(status) => *status,
        }
    }
}

// The status where an output can't be begun.
fn status_of_output(error: &CreateError) -> Status {
    match error {
        CreateError::Exists
        | CreateError::NotPlainFile
        | CreateError::Reserved
        | CreateError::Blocked(_) => Status::Broken,
        CreateError::Busy(_) | CreateError::Folder(_) | CreateError::System(_) => Status::System,
    }
}

// The status where a store refuses a call.
fn status_of(error: &StoreError) -> Status {
    match error {
        StoreError::Read | StoreError::Memory | StoreError::Failed(_) => Status::System,
        _ => Status::Broken,
    }
}

// What to do where a request to a store is refused.
fn advice_for_request(error: &RequestError) -> &'static str {
    match error {
        RequestError::TooManyDocuments { .. } => "; 'zevkhadun verify' says where",
        _ => "",
    }
}

// What to do where a store refuses a call.
fn advice_for(error: &StoreError) -> &'static str {
    match error {
        StoreError::ShortFile(_) | StoreError::BadOffset | StoreError::BadVersion(_) => {
            "; not a store, or its end is missing"
        }
        StoreError::BadBlockKind(_) => "; only uncompressed stores can be read",
        StoreError::BadIndex | StoreError::DamagedDocument(_) => "; 'zevkhadun verify' says where",
        StoreError::OldVersion => "; pack the output of 'cat' instead",
        StoreError::BlockTooLarge => "; use a smaller '--block-size', or split the document",
        StoreError::TooManyDocs => "; write several stores",
        _ => "",
    }
}

// How tantivy compresses blocks of a kind.
fn compression_of(kind: u8) -> Option<&'static str> {
    match kind {
        1 => Some("LZ4"),
        4 => Some("Zstd"),
        _ => None,
    }
}

// That blocks are of a kind that is not read.
fn write_kind<W: fmt::Write>(f: &mut fmt::Formatter<W>, kind: u8) -> fmt::Result {
    match compression_of(kind) {
        Some(compression) => write!(f, "blocks are compressed (kind {kind}, {compression})"),
        None => write!(f, "blocks are compressed (kind {kind})"),
    }
}

/// Writes what is said where a store's error is the cause. Its kind of blocks and its index are named in the program's
/// words.
pub fn write_store_error<W: fmt::Write>(
    f: &mut fmt::Formatter<W>,
    error: &StoreError,
) -> fmt::Result {
    match error {
        StoreError::BadBlockKind(kind) => write_kind(f, *kind),
        StoreError::BadIndex => f.write_str("the index is damaged"),
        error => error.fmt(f),
    }
}

// That a log has no record of a number.
fn write_no_record<W: fmt::Write>(
    f: &mut fmt::Formatter<W>,
    number: u64,
    first: u64,
    end: u64,
) -> fmt::Result {
    if first == end {
        return write!(f, "no record {number}; the log has none");
    }
    let last = end.saturating_sub(1);
    write!(
        f,
        "no record {number}; the log has the records {first} to {last}"
    )
}

impl Display for FailureCause {
    fn fmt<W: fmt::Write>(&self, f: &mut fmt::Formatter<W>) -> fmt::Result {
        match self {
            FailureCause::Words(text) => f.write_str(text.as_str()),
            FailureCause::System(error) => error.fmt(f),
            FailureCause::Output(error) => write!(f, "standard output: {error}"),
            FailureCause::Create(error) => error.fmt(f),
            FailureCause::Line { number, text } => write!(
                f,
                "standard input: line {number}: {text}"
            ),
            FailureCause::Store(error) => write_store_error(f, error),
            FailureCause::Request(error) => error.fmt(f),
            FailureCause::OtherCount {
                things,
                expected,
                came,
            } => {
                write!(
                    f,
                    "{expected} {things} were expected and {came} came; nothing was written"
                )
            }
            FailureCause::NoRecord { number, first, end } => {
                write_no_record(f, *number, *first, *end)
            }
            FailureCause::DamagedRecord(number) => write!(f, "record {number} is damaged"),
            cause => f.write_str(cause.text()),
        }
    }
}

/// What went wrong, and at which file, if at one.
#[derive(Drop)]
pub struct Failure {
    file: Option<String>,
    cause: FailureCause,
}

/// At no file.
impl From<FailureCause> for Failure {
    fn from(cause: FailureCause) -> Failure {
        Failure { file: None, cause }
    }
}

/// At no file.
impl From<AllocError> for Failure {
    fn from(error: AllocError) -> Failure {
        Failure::from(FailureCause::from(error))
    }
}

/// At no file.
impl<T: Drop> From<AllocFailed<T>> for Failure {
    fn from(error: AllocFailed<T>) -> Failure {
        Failure::from(FailureCause::from(error))
    }
}

impl Failure {
    /// At this file. What is wrong with the words, the standard input or the standard output is at none.
    pub fn at_file(alloc: Global, path: &str, cause: FailureCause) -> Failure {
        if let FailureCause::Words(_)
        | FailureCause::Line { .. }
        | FailureCause::Output(_) = &cause
        {
            return Failure::from(cause);
        }
        Failure {
            file: String::from_str(alloc, path).ok(),
            cause,
        }
    }

    /// Whether the standard output refused a write.
    pub fn is_of_output(&self) -> bool {
        matches!(self.cause, FailureCause::Output(_))
    }

    // Prints the line.
    fn print<R: Eprint>(&self, rt: &R) {
        let cause = &self.cause;
        let advice = cause.advice();
        let (file, colon) = match &self.file {
            Some(file) => (file.as_str(), ": "),
            None => ("", ""),
        };
        let _ = eprintln!(rt; "zevkhadun: {file}{colon}{cause}{advice}");
    }

    /// Prints one line on the standard error, unless it was printed already, and returns the status. A closed pipe ends
    /// the program quietly, without one.
    pub fn report<R: Eprint>(&self, rt: &R) -> Option<Status> {
        match &self.cause {
            FailureCause::Output(error) if error.kind() == io::ErrorKind::BrokenPipe => {
                return None;
            }
            FailureCause::Reported(_) => {}
            _ => self.print(rt),
        }
        Some(self.cause.status())
    }
}

/// The result of a call on the file of this name: an error names the file.
pub fn with_file<T: Drop, E: Into<FailureCause> + Drop>(
    alloc: Global,
    path: &str,
    given: Result<T, E>,
) -> Result<T, Failure>
    ensures { IfOk result (λ value. given ≡ Ok value) }
{
    match given {
        Ok(value) => Ok(value),
        Err(error) => Err(Failure::at_file(alloc, path, error.into())),
    }
}

/// The result of a write to the standard output: an error says so.
#[inline(always)]
pub fn to_output(written: io::Result<()>) -> Result<(), FailureCause> {
    match written {
        Ok(()) => Ok(()),
        Err(error) => Err(FailureCause::Output(error)),
    }
}

//! Logs of records that are delimited in inputs, the numbers of these records, and the records in an output again.
#![tactic(auto)]

pub mod appending;
pub mod number_lines;
pub mod printing;
pub mod read_log;
pub mod sync_policy;
pub mod whole_inputs;
mod writing;

pub use appending::Appending;
pub use number_lines::NumberLines;
pub use printing::{PrintError, print_records};
pub use read_log::{ReadError, ReadLog};
pub use sync_policy::SyncPolicy;
pub use whole_inputs::{AppendError, append_inputs};

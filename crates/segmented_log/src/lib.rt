//! A log of records in a folder: sealed segments, which are ordinary stores, and one tail.
#![tactic(auto)]

pub mod commit;
mod compacting;
mod dropping;
pub mod error;
mod found_files;
mod found_log;
mod found_tail;
mod joining;
pub mod laws;
mod loading;
pub mod log;
pub mod names;
pub mod numbers;
mod opening;
pub mod reader;
mod reading;
pub mod records;
pub mod removing;
pub mod repairing;
pub mod runs;
pub mod sealing;
mod segment;
mod syncing;
mod tail;
mod tail_buffer;
mod tail_file;

pub use commit::Commit;
pub use compacting::MAX_JOINED;
pub use error::LogError;
pub use log::{MAX_RECORD, SegmentedLog};
pub use names::{TAIL, segment_file};
pub use numbers::segment_number;
pub use reader::LogReader;
pub use records::Records;
pub use removing::drop_segments;
pub use repairing::repair;
pub use runs::{Call, call_all, open_and_call};

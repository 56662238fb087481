//! Merges stores with live sets: appends the documents that are alive in each of some stores, in order, to those of a
//! writer.
//!
//! A store of at least six blocks of which nothing is deleted is stacked, block by block, read as a whole or in parts;
//! the documents of every other one are copied one by one. That rule is this project's own.
#![tactic(auto)]

pub mod choosing;
pub mod copying;
pub mod input;
pub mod merge_error;
pub mod merging;
pub mod stacking;
pub mod taking;

pub use input::MergeInput;
pub use merge_error::MergeError;
pub use merging::{merge, merge_in_parts};

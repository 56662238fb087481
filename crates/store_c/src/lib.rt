//! Stores for C: read from bytes that stay the caller's, by a table that stays the caller's too, and written in memory
//! that is the caller's.
//!
//! A call returns 0, or the number of a refusal: that of `StoreError` up to 16, and from 32 on that of `Refusal`.
#![tactic(auto)]

pub mod block_place;
pub mod checking;
mod ending;
pub mod fault;
pub mod getting;
mod locating;
mod open_block;
mod opening;
pub mod outlining;
pub mod place;
pub mod ranges;
pub mod reading;
pub mod refusal;
pub mod refusal_text;
mod stacking;
pub mod writer;
pub mod writer_refusal;
pub mod writing;

// What a call returns that did what it was called for.
const DONE: u32 = 0;

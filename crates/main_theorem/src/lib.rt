//! The main theorem, as functions by the public contracts alone.
#![tactic(auto)]

pub mod index;
pub mod lists;
mod opening;
pub mod stacking;

pub use index::{CountedBlock, IndexAnswer, LookSource, index_read_and_written};
pub use lists::{Answered, Asked, Workload, written_and_asked};
pub use stacking::stacked_in_two_orders;

//! Stores of documents that are delimited in inputs, and these documents in an output again.
#![tactic(auto)]

pub mod packing;
pub mod printing;

pub use packing::{PackError, PackedInputs};
pub use printing::{PrintError, print_range, print_store};

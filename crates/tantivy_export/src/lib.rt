//! Stores as files of version 2, which tantivy's own code opens.
//!
//! Such a file has the blocks of the store, an index of period 8 and a footer of version 2. What tantivy's directory
//! adds after a file on disk is no part of it and is not written.
#![tactic(auto)]

pub mod export;
mod file_end;
mod period;

pub use export::export_store;

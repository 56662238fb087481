//! Scripts over numbered stores in memory, and the text of a store's documents. A program calls `run` or `dump` with
//! what it reads and where it writes.
#![tactic(auto)]

mod answer;
mod command;
mod fault;
mod input;
mod merging;
mod scripts;
mod store;
mod tool;

pub use fault::ToolFault;
pub use scripts::{dump, run};

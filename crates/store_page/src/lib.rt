//! A store drawn as a page of HTML: its numbers, its parts, the path of a seek, how its sizes spread, and documents.
//! The page is made of plain numbers and bytes: this crate knows no store.
#![tactic(auto)]

mod block_starts;
pub mod excerpts;
mod histogram;
mod page;
mod script;
mod seek_drawing;

pub use block_starts::BlockStarts;
pub use excerpts::{Beginning, Excerpt, MOST_EXCERPTS, excerpt_bytes};
pub use histogram::Histogram;
pub use page::Page;

//! The reader of a document store: its cache of blocks, gets, iterations, and whole lists of reading calls.
#![tactic(auto)]

mod block_request;
mod block_slice;
mod block_slices;
mod cache;
mod cache_stats;
mod call_list;
mod data_part;
mod document_reading;
mod iter;
pub mod laws;
mod look_up;
mod opening;
mod reader;
mod slice_documents;
mod slot;
mod store_check;
mod store_head;
mod store_slice;
mod store_tail;
mod tail_error;
mod two_reads;
mod walk;

pub use block_slice::BlockSlice;
pub use block_slices::BlockSlices;
pub use cache_stats::CacheStats;
pub use call_list::{Answer, ReadCall, answer_all, any_lacks_memory};
pub use data_part::DataPart;
pub use iter::{DocIter, Items, RawIter};
pub use reader::parts::StorePart;
pub use reader::{DOCSTORE_CACHE_CAPACITY, StoreReader};
pub use slice_documents::SliceDocuments;
pub use slot::document_at;
pub use store_check::{CheckedStore, StoreFault};
pub use store_head::StoreHead;
pub use store_slice::StoreSlice;
pub use store_tail::StoreTail;
pub use tail_error::TailError;
pub use walk::{DocWalk, Walk};

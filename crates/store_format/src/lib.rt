//! What the bytes of a store's file are: versions, kinds of blocks, the footer and a block's table, each written and
//! read in one place; and the definitions of blocks, slots and whole files, with their laws.
#![tactic(auto)]

pub mod block_layout;
pub mod block_size;
pub mod file_reading;
pub mod footer;
pub mod footer_reading;
pub mod kinds;
pub mod laws;
pub mod open_error;
pub mod version;

pub use block_layout::{append_table, block_read_index, likely_read_index, part, u32_at};
pub use block_size::{BLOCK_LIMIT, block_len, table_len, weight_of};
pub use file_reading::read_part;
pub use footer::DocStoreFooter;
pub use footer_reading::{FOOTER_LEN, footer_in, read_footer};
pub use kinds::{Compressor, Decompressor};
pub use open_error::OpenError;
pub use version::{DOC_STORE_VERSION, DocStoreVersion};

//! The answers of the program's commands about stores, and ranges of numbers as arguments name them.
#![tactic(auto)]

pub mod block_documents;
pub mod block_walk;
pub mod broken_part;
pub mod checking;
pub mod copied_store;
pub mod damaged_documents;
pub mod kept_documents;
pub mod laws;
pub mod left_out;
pub mod merging;
pub mod number_range;
pub mod request_error;
pub mod store_numbers;
pub mod store_part;
pub mod store_shape;

pub use number_range::{NumberRange, ranges_of};
pub use request_error::RequestError;
pub use store_shape::StoreShape;

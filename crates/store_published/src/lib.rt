//! Stores that are published in a folder: what a crash leaves of them.
#![tactic(auto)]

pub mod documents;
pub mod exporting;
pub mod filling;
pub mod publishing;

pub use documents::{DocumentList, store_document};
pub use exporting::publish_export;
pub use filling::Filling;
pub use publishing::{FillError, Written, publish_store};

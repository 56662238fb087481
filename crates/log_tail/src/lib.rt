//! The bytes of a log's tail: a header, and batches of records after it, as `docs/FORMAT.md` describes them. They are
//! written and read in memory; `segmented_log` keeps them in a file.
#![tactic(auto)]

pub mod batches;
pub mod heads;
pub mod tail;
pub mod view;

pub use batches::Place;
pub use tail::new_tail;
pub use view::TailView;

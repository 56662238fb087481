//! The layered skip index of a store: checkpoints, their blocks and layers, and the seek.
#![tactic(auto)]

pub mod check;
pub mod checkpoint;
pub mod checkpoint_block;
pub mod checkpoint_range;
mod fault;
pub mod index_fault;
pub mod index_slice;
pub mod laws;
pub mod layer_cursor;
mod layers;
pub mod looks;
pub mod lower_layers;
pub mod outline;
pub mod row;
mod row_guide;
pub mod rows;
mod run_reading;
mod run_seek;
mod short_number;
pub mod skip_index;
pub mod skip_index_builder;
mod tally;

pub use check::{CheckedIndex, find_fault};
pub use checkpoint::{CHECKPOINT_PERIOD, Checkpoint, USUAL_PERIOD};
pub use checkpoint_block::CheckpointBlock;
pub use checkpoint_range::CheckpointRange;
pub use index_fault::IndexFault;
pub use index_slice::IndexSlice;
pub use layer_cursor::LayerCursor;
pub use looks::{Looks, Steps, seek_near, seek_over};
pub use lower_layers::{LayerMarks, LowerLayers};
pub use outline::Outline;
pub use row::{Row, RowEnd};
pub use row_guide::write_guides;
pub use rows::{docs_of, seek_rows, start_of};
pub use skip_index::SkipIndex;
pub use skip_index_builder::SkipIndexBuilder;

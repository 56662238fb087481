//! How documents are delimited in inputs and outputs: by line ends, by zero bytes, by lengths, or by files.
#![tactic(auto)]

mod fault;
pub mod feeding;
pub mod form;
pub mod framing;
pub mod input_files;
pub mod inputs;
pub mod laws;
mod lengths;
pub mod other_count;
mod pieces;

pub use fault::FramingFault;
pub use feeding::{DocumentSink, FeedError, FeedProgress, feed};
pub use form::{DocumentForm, ShowError};
pub use framing::Framing;
pub use input_files::{HostInputs, InputFiles};
pub use inputs::{InputFault, feed_inputs};
pub use other_count::{OtherCount, check_count};

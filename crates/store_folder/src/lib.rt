//! A folder of files as a model: what a look sees, and what a crash may leave. Files that are published in it, and
//! outputs that take their name only once they are whole.
#![tactic(auto)]

pub mod beside;
pub mod calls;
pub mod folder;
pub mod memory;
pub mod publication;
pub mod publishing;
pub mod readable_folder;
mod sent;

pub use beside::{Beside, Origin};
pub use calls::{FolderCall, carry_out};
pub use folder::Folder;
pub use memory::MemFolder;
pub use publication::Publication;
pub use publishing::{publish, replace};
pub use readable_folder::ReadableFolder;

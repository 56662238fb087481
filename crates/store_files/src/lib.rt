//! Files on disk: one that is read in parts, one that is loaded whole, an output that takes its name only once it is
//! whole, and a folder that has one writer.
#![tactic(auto)]

pub mod create_error;
pub mod disk_file;
pub mod disk_folder;
pub mod disk_sink;
pub mod file_pool;
pub mod host;
pub mod knowledge;
pub mod laws;
pub mod loading;
pub mod lock_mark;
mod locking;
pub mod mark;
mod names;
mod open_file;
pub mod output_folder;
mod paths;
pub mod read_at;
mod reading;
mod shared;
pub mod system_files;
mod writing;

pub use create_error::CreateError;
pub use disk_file::DiskFile;
pub use disk_folder::DiskFolder;
pub use disk_sink::DiskSink;
pub use file_pool::PooledFile;
pub use host::HostFiles;
pub use loading::{load, read_all};
pub use lock_mark::is_left_synced;
pub use read_at::{OsFile, ReadAt};
pub use system_files::{FileKind, FoundFile, FoundMark, SystemFiles};

//! Why the end of a file wasn't opened.
use store_base::StoreError;

/// Why the end of a file wasn't opened.
#[derive(Clone, Copy, Debug, PartialEq, Eq)]
pub enum TailError {
    /// The tail is too short; it carries how many of the last bytes of the file are wanted.
    Short(usize),
    /// The tail is that of no store's file.
    Store(StoreError),
}

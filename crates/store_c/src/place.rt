//! Where a document lies.

/// Where a document lies in the file of its store.
#[repr(C)]
#[derive(Clone, Copy)]
pub struct Place {
    /// How many bytes of the file come before it.
    pub start: usize,
    /// How many bytes it has.
    pub len: usize,
}

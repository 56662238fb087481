//! Where a block lies.

/// Where a block of documents lies in the file of its store, and which documents it has.
#[repr(C)]
#[derive(Clone, Copy)]
pub struct BlockPlace {
    /// The number of its first document.
    pub first_doc: u32,
    /// One more than the number of its last document.
    pub end_doc: u32,
    /// How many bytes of the file come before it.
    pub start: usize,
    /// How many bytes it has.
    pub len: usize,
}

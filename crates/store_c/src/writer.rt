//! What C keeps of a store that is written.

/// The numbers of a store that is written. The caller also keeps the starts of the documents of its open block, and the
/// table of its blocks.
#[repr(C)]
#[derive(Clone, Copy)]
pub struct Writer {
    /// A block is ended once its documents exceed this: their bytes and eight for each.
    pub block_size: usize,
    /// How many blocks were ended.
    pub blocks: usize,
    /// How many documents the open block has.
    pub docs: usize,
    /// How many bytes they have.
    pub bytes: usize,
}

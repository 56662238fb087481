//! Where a file breaks what the format says.

/// Where a file first breaks what the format says of it.
#[repr(C)]
#[derive(Clone, Copy)]
pub struct Fault {
    /// Of an index that is refused, the byte of the file at which its first run begins that breaks a rule; of the list
    /// of layers, and of an index whose blocks don't cover the data, the byte at which the index begins.
    pub byte: usize,
    /// Of an index that is refused, the layer of that run, the bottom one at 0; `LAYER_LIST` for the list of layers,
    /// and `LAYER_COVER` for an index whose blocks don't cover the data.
    pub layer: u32,
    /// Of a document that is damaged, its number.
    pub doc_id: u32,
}

/// The layer of a fault in the list of the layers' ends.
pub(crate) const LAYER_LIST: u32 = u32::MAX;

/// The layer of the fault of an index that is sound, but whose blocks don't cover the data.
pub(crate) const LAYER_COVER: u32 = u32::MAX - 1;

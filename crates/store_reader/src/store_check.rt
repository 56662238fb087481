//! What the check of a store's file finds.
use layered_index::IndexFault;
use store_base::DocId;

/// What the check of a store's file found.
#[derive(Clone, Copy)]
pub struct CheckedStore {
    /// How many blocks the store has.
    pub blocks: usize,
    /// How many documents it has.
    pub docs: DocId,
}

/// Where the index of a file breaks a rule.
#[derive(Clone, Copy)]
pub struct StoreFault {
    /// How many bytes of the file come before the index.
    pub start: usize,
    /// The first fault of the index, whose byte counts from its start. `None` stands for the index of checkpoints in
    /// line that do not cover the data.
    pub index: Option<IndexFault>,
}

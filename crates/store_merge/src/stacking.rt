//! How the stores of a merge are stacked.

/// How the data of a store that is stacked is read.
#[derive(Clone, Copy)]
pub enum Stacking {
    /// A store is read by one read of its whole data.
    Whole,
    /// It is read in parts: as many whole blocks at a time as this many bytes hold, at least one.
    InParts(usize),
}

//! The shapes of stores, as the names of workloads have them.
use std::fmt;

/// How many documents a store has, how long each is, and the store's block size; and how many blocks the cache keeps of
/// a reader, if it is read by one.
#[derive(Clone, Copy)]
pub struct StoreShape {
    pub documents: u64,
    pub length: u64,
    pub block_size: u64,
    pub capacity: Option<u64>,
}

impl fmt::Display for StoreShape {
    fn fmt<W: fmt::Write>(&self, f: &mut fmt::Formatter<W>) -> fmt::Result {
        let (documents, length, block_size) = (self.documents, self.length, self.block_size);
        write!(f, "n={documents}/l={length}/bs={block_size}")?;
        match self.capacity {
            Some(capacity) => write!(f, "/cap={capacity}"),
            None => Ok(()),
        }
    }
}

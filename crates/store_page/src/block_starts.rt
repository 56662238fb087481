//! Where the blocks of a store begin.

/// The first document of each block, and the number of documents.
#[derive(Drop)]
pub struct BlockStarts {
    starts: Vec<u32>,
    documents: u32,
}

impl BlockStarts {
    /// Of blocks whose first documents are these, in a store of `documents` documents.
    pub fn new(starts: Vec<u32>, documents: u32) -> BlockStarts {
        BlockStarts { starts, documents }
    }

    /// How many blocks there are.
    pub fn len(&self) -> u64 {
        self.starts.len() as u64
    }

    /// The first document of a block; after the last block, the number of documents.
    pub fn start(&self, block: u64) -> u32 {
        match usize::try_from(block) {
            Ok(place) => self.starts.get(place).copied().unwrap_or(self.documents),
            Err(_) => self.documents,
        }
    }
}

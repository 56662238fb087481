//! The stores that are written and opened.
use crate::documents::Documents;
use crate::measure::Run;
use docstore::{
    Compressor, FileHandle, FileSlice, StoreError, StoreReader, StoreWriter, TerminatingWrite,
};
use std::alloc::Global;
use std::time::Duration;

/// A store to write: its documents are the first `count` of these.
#[derive(Drop)]
pub struct StorePlan {
    pub documents: Documents,
    pub count: usize,
    pub block_size: usize,
}

impl StorePlan {
    /// Writes the store to this output.
    pub fn write<W: TerminatingWrite>(&self, alloc: Global, output: W) -> Result<W, StoreError> {
        let mut writer = StoreWriter::new(alloc, output, Compressor::None, self.block_size);
        for i in 0..self.count {
            writer.store_bytes(self.documents.get(i))?;
        }
        Ok(writer.close()?)
    }

    /// A repetition that wrote it.
    pub fn run(&self, time: Duration, check: u64) -> Run {
        Run::of_documents(time, self.count, self.documents.len(), check)
    }
}

/// Opens a file, with a cache of this many blocks.
pub fn open_store<H: FileHandle>(
    alloc: Global,
    file: H,
    capacity: usize,
) -> Result<StoreReader<H>, StoreError> {
    match StoreReader::open(alloc, FileSlice::new(file), capacity) {
        Ok(reader) => Ok(reader),
        Err(refusal) => Err(refusal.error),
    }
}

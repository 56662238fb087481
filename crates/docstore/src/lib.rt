//! A document store with a layered skip index: its writer and its reader, and all that their users need of the
//! crates below.
#![tactic(auto)]

mod block_index;
mod close_error;
mod current_block;
pub mod laws;
mod run;
mod store_compressor;
mod writer;

pub use close_error::CloseError;
pub use layered_index::{
    CHECKPOINT_PERIOD, CheckedIndex, Checkpoint, CheckpointBlock, CheckpointRange, IndexFault,
    IndexSlice, LayerCursor, LayerMarks, Looks, LowerLayers, Outline, Row, SkipIndex,
    SkipIndexBuilder, Steps, USUAL_PERIOD, find_fault, seek_near, seek_over,
};
pub use run::{StoreCommand, WriteReport, write_store, write_store_with_period};
pub use store_base::{
    AliveBitSet, BinarySerializable, Cause, CountingWriter, DecodeFault, DocFault, DocId, Document,
    DocumentDeserialize, Field, FileHandle, FileSlice, FixedSize, HasLen, MemFile, MemSink,
    NoMemory, OwnedBytes, ReadFault, RecordDocument, Schema, StoreError, StoreSpaceUsage,
    StoredDocument, TerminatingWrite, VInt, WriteFault,
};
pub use store_compressor::BlockCompressor;
pub use store_format::{
    BLOCK_LIMIT, Compressor, DOC_STORE_VERSION, Decompressor, DocStoreFooter, DocStoreVersion,
    FOOTER_LEN, OpenError, block_len, block_read_index, likely_read_index, read_footer, table_len,
    u32_at, weight_of,
};
pub use store_reader::{
    Answer, BlockSlice, BlockSlices, CacheStats, CheckedStore, DOCSTORE_CACHE_CAPACITY, DataPart,
    DocIter, DocWalk, Items, RawIter, ReadCall, SliceDocuments, StoreFault, StoreHead, StorePart,
    StoreReader, StoreSlice, StoreTail, TailError, Walk, answer_all, any_lacks_memory, document_at,
};
pub use writer::StoreWriter;

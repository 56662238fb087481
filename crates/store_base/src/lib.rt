//! The base of a document store: numbers as bytes, shared bytes, files, outputs, live sets and documents; and the
//! errors of its calls.
#![tactic(auto)]

pub mod alive_bitset;
pub mod counting_writer;
pub mod document;
pub mod error;
pub mod fault;
pub mod file_slice;
pub mod laws;
pub mod mem_file;
pub mod mem_sink;
pub mod owned_bytes;
pub mod record;
pub mod schema;
pub mod serialize;
pub mod space_usage;
pub mod vint;

pub use alive_bitset::AliveBitSet;
pub use counting_writer::{CountingWriter, TerminatingWrite};
pub use document::{Document, DocumentDeserialize, StoredDocument};
pub use error::{Cause, StoreError};
pub use fault::{DecodeFault, DocFault, NoMemory, ReadFault, WriteFault};
pub use file_slice::{FileHandle, FileSlice, HasLen};
pub use mem_file::MemFile;
pub use mem_sink::MemSink;
pub use owned_bytes::OwnedBytes;
pub use record::RecordDocument;
pub use schema::{Field, Schema};
pub use serialize::{BinarySerializable, FixedSize};
pub use space_usage::StoreSpaceUsage;
pub use vint::{GROUP, STOP_BIT, VInt, first_number, read_u32_vint};

/// The number of a document in its store: the first is 0.
pub type DocId = u32;

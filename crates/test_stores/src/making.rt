//! Makes stores, and asks them for documents.

use docstore::{
    Compressor, FileHandle, FileSlice, MemFile, MemSink, StoreError, StoreReader, StoreWriter,
};
use std::alloc::Global;

/// The file of these documents.
pub fn written(
    alloc: Global,
    block_size: usize,
    documents: &[&[u8]],
) -> Result<Vec<u8>, StoreError> {
    let mut writer = StoreWriter::new(alloc, MemSink::new(alloc), Compressor::None, block_size);
    for document in documents {
        writer.store_bytes(document)?;
    }
    Ok(writer.close()?.into_bytes())
}

/// Opens a whole file, with no cache.
pub fn opened<H: FileHandle>(alloc: Global, file: H) -> Result<Box<StoreReader<H>>, StoreError> {
    opened_with_cache(alloc, file, 0)
}

/// Opens a whole file, with a cache of `capacity` blocks. The reader is in a box, so that what owns it is proved at
/// less cost.
pub fn opened_with_cache<H: FileHandle>(
    alloc: Global,
    file: H,
    capacity: usize,
) -> Result<Box<StoreReader<H>>, StoreError> {
    match StoreReader::open(alloc, FileSlice::new(file), capacity) {
        Ok(reader) => Ok(Box::new(alloc, reader)?),
        Err(refusal) => Err(refusal.error),
    }
}

/// Opens a file of these bytes.
pub fn opened_bytes(
    alloc: Global,
    bytes: Vec<u8>,
) -> Result<Box<StoreReader<MemFile>>, StoreError> {
    opened(alloc, MemFile::new(alloc, bytes)?)
}

/// Whether a get returns this document.
pub fn is_found<H: FileHandle>(
    alloc: Global,
    reader: &mut StoreReader<H>,
    doc_id: u32,
    document: &[u8],
) -> bool {
    match reader.get_document_bytes(alloc, doc_id) {
        Ok(bytes) => bytes.as_slice() == document,
        Err(_) => false,
    }
}

/// The items of an iteration over all documents: each document's bytes and a semicolon; for an error `!`, its number
/// as a byte, and a semicolon.
pub fn listed<H: FileHandle>(
    alloc: Global,
    reader: &mut StoreReader<H>,
) -> Result<Vec<u8>, StoreError> {
    let mut text = Vec::new(alloc);
    for item in reader.iter_raw(alloc, None) {
        match item {
            Ok(bytes) => text.extend_from_slice(bytes.as_slice())?,
            Err(error) => text.extend_from_slice(&[b'!', (error.number() & 0xff) as u8])?,
        }
        text.push(b';')?;
    }
    Ok(text)
}

/// Whether an iteration over all documents is listed as this text.
pub fn is_listed<H: FileHandle>(alloc: Global, reader: &mut StoreReader<H>, text: &[u8]) -> bool {
    match listed(alloc, reader) {
        Ok(listed) => listed.as_slice() == text,
        Err(_) => false,
    }
}

//! Writes a store to a file, and gets a document of it.

use crate::in_memory::print_text;
use docstore::{Compressor, DocId, FileSlice, OwnedBytes, StoreReader, StoreWriter};
use std::fs;
use store_files::{DiskFile, DiskSink, HostFiles, OsFile};

type Reader = StoreReader<DiskFile<OsFile>>;

// The file has its name only once it is whole, and after the system was asked to keep it.
fn write(rt: &HostRuntime, path: &str, documents: &[&str]) -> anyhow::Result<()> {
    let output = DiskSink::create(rt.alloc(), HostFiles::new(rt)?, path)?;
    let mut writer = StoreWriter::new(rt.alloc(), output, Compressor::None, 16384);
    for document in documents {
        writer.store_bytes(document.as_bytes())?;
    }
    writer.close().map_err(|refusal| refusal.error)?;
    Ok(())
}

// This reads the footer and the index. A get makes one read at most.
fn open(rt: &HostRuntime, path: &str) -> anyhow::Result<Box<Reader>> {
    let file = FileSlice::new(DiskFile::new(OsFile::open(rt, path)?)?);
    let reader = StoreReader::open(rt.alloc(), file, 100).map_err(|refusal| refusal.error)?;
    Ok(Box::new(rt.alloc(), reader)?)
}

// Opens a store to get one document of it.
fn document(rt: &HostRuntime, path: &str, doc_id: DocId) -> anyhow::Result<OwnedBytes> {
    Ok(open(rt, path)?.get_document_bytes(rt.alloc(), doc_id)?)
}

/// Writes a store to a file of the current folder, removes it, and prints a document that it had.
pub fn write_and_read(rt: &HostRuntime) -> anyhow::Result<()> {
    let path = "fruits.store";
    write(rt, path, &["apple", "banana", "cherry"])?;
    let cherry = document(rt, path, 2)?;
    fs::remove_file(rt, path)?;
    print_text(rt, "on disk", cherry.as_slice())
}

//! Writes a store into memory, stacks it after another document, and reads what came.

use docstore::{
    AliveBitSet, Compressor, FileSlice, MemFile, MemSink, StoreError, StoreReader, StoreWriter,
};
use std::alloc::Global;

pub type Reader = StoreReader<MemFile>;

/// The file of these documents.
pub fn written(alloc: Global, documents: &[&str]) -> Result<Vec<u8>, StoreError> {
    let mut writer = StoreWriter::new(alloc, MemSink::new(alloc), Compressor::None, 16384);
    for document in documents {
        writer.store_bytes(document.as_bytes())?;
    }
    Ok(writer.close()?.into_bytes())
}

/// A reader of the file of these bytes, with a cache of 100 blocks.
pub fn opened(alloc: Global, bytes: Vec<u8>) -> Result<Box<Reader>, StoreError> {
    let file = FileSlice::new(MemFile::new(alloc, bytes)?);
    let reader = StoreReader::open(alloc, file, 100).map_err(|refusal| refusal.error)?;
    Ok(Box::new(alloc, reader)?)
}

/// Prints a document, which is text, after these words.
pub fn print_text<R: Print>(rt: &R, words: &str, document: &[u8]) -> anyhow::Result<()> {
    println!(rt; "{words}: {}", str::from_utf8(document)?)?;
    Ok(())
}

fn stacked(alloc: Global, front: &str, store: &mut Reader) -> Result<Vec<u8>, StoreError> {
    let mut writer = StoreWriter::new(alloc, MemSink::new(alloc), Compressor::None, 16384);
    writer.store_bytes(front.as_bytes())?;
    writer.stack(store)?;
    Ok(writer.close()?.into_bytes())
}

fn print_live<R: Print>(rt: &R, alloc: Global, store: &mut Reader) -> anyhow::Result<()> {
    let alive = AliveBitSet::from_deleted_docs(alloc, &[0], store.num_docs())?;
    for document in store.iter_raw(alloc, Some(&alive)) {
        println!(rt; "alive: {}", str::from_utf8(document?.as_slice())?)?;
    }
    Ok(())
}

fn print_store<R: Print>(rt: &R, alloc: Global, store: &mut Reader) -> anyhow::Result<()> {
    let banana = store.get_document_bytes(alloc, 2)?;
    println!(rt; "document 2: {}", str::from_utf8(banana.as_slice())?)?;
    print_live(rt, alloc, store)
}

// The file of a document and then those of a file.
fn stacked_file(alloc: Global, file: Vec<u8>) -> Result<Vec<u8>, StoreError> {
    let mut store = opened(alloc, file)?;
    stacked(alloc, "almond", &mut store)
}

fn print_file<R: Print>(rt: &R, alloc: Global, file: Vec<u8>) -> anyhow::Result<()> {
    let mut store = opened(alloc, file)?;
    print_store(rt, alloc, &mut store)
}

/// Prints the size of a file, and what is in the store that was stacked.
pub fn write_and_read(rt: &HostRuntime) -> anyhow::Result<()> {
    let fruits = written(rt.alloc(), &["apple", "banana", "cherry"])?;
    println!(rt; "a file of {} bytes", fruits.len())?;
    print_file(rt, rt.alloc(), stacked_file(rt.alloc(), fruits)?)
}

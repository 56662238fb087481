//! Stores that are filled and published in one call, in folders in memory.

use docstore::{Compressor, MemSink, StoreError, StoreWriter};
use std::alloc::Global;
use std::test::Fail;
use store_folder::{Folder, MemFolder, ReadableFolder};
use store_published::{DocumentList, FillError, Written, publish_store};
use torn_folder::TornFolder;

// Two documents.
fn documents(alloc: Global) -> Result<Vec<Vec<u8>>, StoreError> {
    let mut documents = Vec::new(alloc);
    documents.push(b"x".to_vec(alloc)?)?;
    documents.push(b"abc".to_vec(alloc)?)?;
    Ok(documents)
}

// The file of a store of these.
fn file(alloc: Global, documents: &[Vec<u8>]) -> Result<Vec<u8>, StoreError> {
    let mut writer = StoreWriter::new(alloc, MemSink::new(alloc), Compressor::None, 16384);
    for document in documents {
        writer.store_bytes(document)?;
    }
    Ok(writer.close()?.into_bytes())
}

// Publishes a store of these in a folder.
fn published<F: Folder>(
    alloc: Global,
    folder: &mut F,
    documents: &[Vec<u8>],
) -> Result<Written, FillError<StoreError>> {
    publish_store(
        alloc,
        folder,
        "a.store",
        16384,
        8,
        &mut DocumentList { documents },
    )
}

// Whether a folder has this file and nothing beside it, and the call counted two documents.
fn has_two(
    alloc: Global,
    folder: &MemFolder,
    written: Written,
    file: Vec<u8>,
) -> Result<bool, Fail> {
    let is_counted = written.documents == 2
        && written.blocks == 1
        && written.bytes == file.len() as u64;
    Ok(
        is_counted
            && folder.read(alloc, "a.store")? == Some(file)
            && folder.read(alloc, "a.store.part")?.is_none(),
    )
}

#[test]
fn documents_are_published(rt: HostRuntime) -> Result<(), Fail> {
    let alloc = rt.alloc();
    let documents = documents(alloc)?;
    let mut folder = MemFolder::new(alloc);
    let Ok(written) = published(alloc, &mut folder, &documents) else {
        panic!(rt; "not published");
    };
    assert!(rt; has_two(alloc, &folder, written, file(alloc, &documents)?)?);
    assert!(rt; published(alloc, &mut TornFolder::new(alloc), &documents).is_ok());
    Ok(())
}

//! Stores merged without their deleted documents.

use crate::making::{is_found, opened_bytes, written};
use crate::merge_inputs::{Source, inputs, six_blocks};
use docstore::{Compressor, MemFile, MemSink, StoreError, StoreReader, StoreWriter};
use std::alloc::Global;
use std::test::Fail;
use store_merge::merge;

// The file of a merge of these stores.
fn merged(alloc: Global, sources: &[Source<'_>]) -> Result<Vec<u8>, StoreError> {
    let mut inputs = inputs(alloc, sources)?;
    let mut writer = StoreWriter::new(alloc, MemSink::new(alloc), Compressor::None, 16384);
    match merge(alloc, &mut writer, &mut inputs) {
        Ok(_) => Ok(writer.close()?.into_bytes()),
        Err(refusal) => Err(refusal.error),
    }
}

#[test]
fn blocks_are_copied_where_a_document_is_deleted(rt: HostRuntime) -> Result<(), Fail> {
    let alloc = rt.alloc();
    let (six, one) = (six_blocks(alloc)?, written(alloc, 16384, &[b"abc"])?);
    let copied = merged(alloc, &[(&six, 0, &[5]), (&one, 0, &[])])?;
    assert!(rt;
        copied.len() == 71 && copied.get(36..43) == Some(b"\x81\x85\x81\x80\x80\x86\xa4".as_slice())
    );
    Ok(())
}

// 20 documents of 26000 bytes, and a second store with a short one, which is deleted, and 10 more of these.
fn long_merged(alloc: Global, long: &[u8]) -> Result<Vec<u8>, StoreError> {
    let first = written(alloc, 16384, &[long; 20])?;
    let mut documents = [long; 11];
    documents[0] = b"testb";
    let second = written(alloc, 16384, &documents)?;
    merged(alloc, &[(&first, 0, &[]), (&second, 0, &[0])])
}

// Whether a store has 30 long documents, each in a block of its own.
fn has_long_documents(alloc: Global, reader: &mut StoreReader<MemFile>, long: &[u8]) -> bool {
    reader.num_docs() == 30
        && reader.space_usage().data_usage() == 780240
        && reader.block_checkpoints().nth(29).is_some()
        && reader.block_checkpoints().nth(30).is_none()
        && is_found(alloc, reader, 29, long)
}

// As tantivy's test of the same name: the first store whole, and the second without its short document.
#[test]
fn merge_store_with_stacking_reproducing_issue969(rt: HostRuntime) -> Result<(), Fail> {
    let alloc = rt.alloc();
    let long = vec![in alloc; b'x'; 26000]?;
    let mut reader = opened_bytes(alloc, long_merged(alloc, &long)?)?;
    assert!(rt; has_long_documents(alloc, &mut reader, &long));
    Ok(())
}

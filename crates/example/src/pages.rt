//! A page of results: some documents, in the order of a search.

use crate::in_memory::{opened, print_text, written};
use docstore::{DocId, FileHandle, OwnedBytes, StoreError, StoreReader};
use std::alloc::Global;

/// The documents of these ids, in this order.
fn page<H: FileHandle>(
    alloc: Global,
    reader: &mut StoreReader<H>,
    ids: &[DocId],
) -> Result<Vec<OwnedBytes>, StoreError> {
    let mut documents = Vec::new(alloc);
    for doc_id in ids {
        let document = reader.get_document_bytes(alloc, *doc_id)?;
        documents.push(document)?;
    }
    Ok(documents)
}

fn print_documents<R: Print>(rt: &R, documents: &[OwnedBytes]) -> anyhow::Result<()> {
    for document in documents {
        print_text(rt, "on the page", document.as_slice())?;
    }
    Ok(())
}

// A page of two documents.
fn page_of_two(alloc: Global) -> Result<Vec<OwnedBytes>, StoreError> {
    let file = written(alloc, &["apple", "banana", "cherry"])?;
    let mut reader = opened(alloc, file)?;
    page(alloc, &mut reader, &[2, 0])
}

/// Prints a page of two documents.
pub fn print_page(rt: &HostRuntime) -> anyhow::Result<()> {
    print_documents(rt, &page_of_two(rt.alloc())?)
}

//! Stores in slices of bytes, and records that are read.

use crate::making::{opened_bytes, written};
use docstore::{MemFile, RecordDocument, Row, StoreError, StoreReader, StoreSlice};
use std::alloc::Global;
use std::test::Fail;

// Whether an iteration gives these documents.
fn gives(store: &StoreSlice<'_>, documents: &[&[u8]]) -> Result<bool, StoreError> {
    let mut expected = documents.iter();
    for document in store.iter()? {
        if document.ok() != expected.next().copied() {
            return Ok(false);
        }
    }
    Ok(expected.next().is_none())
}

// Whether a slice of this file has three documents, `a`, `bc` and one of no bytes.
fn has_three(alloc: Global, file: &[u8]) -> Result<bool, StoreError> {
    let store = StoreSlice::new(alloc, file)?;
    Ok(
        store.get(1) == Ok(b"bc".as_slice())
            && store.get(3) == Err(StoreError::InvalidArgument(3))
            && store.locate(1) == Ok(9..11)
            && gives(&store, &[b"a", b"bc", b""])?,
    )
}

#[test]
fn a_slice_gives_documents(rt: HostRuntime) -> Result<(), Fail> {
    let file = written(rt.alloc(), 0, &[b"a", b"bc", b""])?;
    assert!(rt; has_three(rt.alloc(), &file)?);
    Ok(())
}

// Whether a document lies at 9 to 11 by as many rows of the file as there are.
fn is_outlined(alloc: Global, file: &[u8], rows: &mut [Row]) -> Result<bool, StoreError> {
    let head = StoreSlice::new(alloc, file)?.outline(rows)?;
    let Some(rows) = rows.get(..head.rows) else {
        return Ok(false);
    };
    Ok(head.locate(file, rows, 1) == Ok(9..11))
}

#[test]
fn a_document_is_found_by_every_number_of_rows(rt: HostRuntime) -> Result<(), Fail> {
    let file = written(rt.alloc(), 0, &[b"a", b"bc", b""])?;
    let mut rows = [Row {
        end_doc: 0,
        guide: 0,
        end_byte: 0,
    }; 4];
    for room in 0..5usize {
        assert!(rt; is_outlined(rt.alloc(), &file, &mut rows[..room])?);
    }
    Ok(())
}

// How many fields the records of a store have.
fn count(alloc: Global, reader: &mut StoreReader<MemFile>) -> Result<usize, StoreError> {
    let mut count = 0usize;
    for record in reader.iter::<RecordDocument>(alloc, None) {
        count = count.saturating_add(record?.fields().len());
    }
    Ok(count)
}

// How many fields the first record of a file has.
fn first_count(alloc: Global, file: &[u8]) -> Result<usize, StoreError> {
    Ok(
        StoreSlice::new(alloc, file)?
            .get_document::<RecordDocument>(alloc, 0)?
            .fields()
            .len(),
    )
}

#[test]
fn records_are_read_by_a_slice_and_by_an_iteration(rt: HostRuntime) -> Result<(), Fail> {
    let alloc = rt.alloc();
    let file = written(alloc, 0, &[b"\x81\x85\x81x", b"\x80"])?;
    assert!(rt; first_count(alloc, &file)? == 1);
    let mut reader = opened_bytes(alloc, file)?;
    assert!(rt; count(alloc, &mut reader)? == 1);
    Ok(())
}

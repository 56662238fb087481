//! Documents as values, read from the bytes that a store has of them.
ghost use Rattle.std.specs.Prelude.{◌≡◌, Ok};
ghost use Rattle.store_reader.specs.Documents.{document_version, ReadsFrom};

use std::alloc::Global;
use store_base::{DocFault, DocumentDeserialize, OwnedBytes, StoreError};
use store_format::DocStoreVersion;

// How the documents of a store are spelled: version 3 has another index alone.
fn document_version(version: DocStoreVersion) -> u32
    ensures { result ≡ document_version version }
{
    match version {
        DocStoreVersion::V1 => 1,
        DocStoreVersion::V2 | DocStoreVersion::V3 => 2,
    }
}

// Reads a document from its bytes.
pub(crate) fn read_bytes<D: DocumentDeserialize>(
    alloc: Global,
    version: DocStoreVersion,
    bytes: &[u8],
) -> Result<D, StoreError>
    ensures { ReadsFrom (D.reading (document_version version)) (Ok bytes.now) result }
{
    match D::deserialize(alloc, bytes, document_version(version)) {
        Ok(document) => Ok(document),
        Err(DocFault::Refused) => Err(StoreError::BadDocument),
        Err(DocFault::Memory) => Err(StoreError::Memory),
    }
}

// Reads a document from its bytes, if they came.
pub(crate) fn read_document<D: DocumentDeserialize>(
    alloc: Global,
    version: DocStoreVersion,
    bytes: Result<OwnedBytes, StoreError>,
) -> Result<D, StoreError>
    ensures { ReadsFrom (D.reading (document_version version)) bytes result }
{
    let bytes = bytes?;
    read_bytes(alloc, version, bytes.as_slice())
}

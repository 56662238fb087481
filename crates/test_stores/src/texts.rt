//! The texts of errors, versions and checkpoints, and the numbers of errors and kinds.

use docstore::{
    CHECKPOINT_PERIOD, Cause, Checkpoint, Compressor, DOC_STORE_VERSION, DOCSTORE_CACHE_CAPACITY,
    DecodeFault, Decompressor, DocFault, DocStoreFooter, DocStoreVersion, FixedSize, NoMemory,
    ReadFault, StoreError, WriteFault,
};
use std::alloc::Global;
use std::fmt::Display;
use std::test::Fail;

const ERRORS: [StoreError; 17] = [
    StoreError::ShortFile(27),
    StoreError::BadVersion(9),
    StoreError::BadBlockKind(1),
    StoreError::BadOffset,
    StoreError::BadIndex,
    StoreError::InvalidArgument(7),
    StoreError::DamagedDocument(8),
    StoreError::BadDocument,
    StoreError::Read,
    StoreError::Memory,
    StoreError::OldVersion,
    StoreError::Unserializable,
    StoreError::BlockTooLarge,
    StoreError::TooManyDocs,
    StoreError::Failed(Cause::Write),
    StoreError::BadPeriod(65),
    StoreError::Failed(Cause::Memory),
];

const NUMBERS: [u32; 17] = [1, 2, 3, 4, 5, 6, 7, 8, 9, 10, 11, 12, 13, 14, 15, 16, 15];

const ERROR_TEXTS: &str = "\
file of 27 bytes is shorter than a footer
unknown store version 9
block kind 1 is not raw
index offset is past the body
index is not the encoding of a list of checkpoints
no document 7
document 8 is damaged
document bytes can't be read
a read failed
no memory
a version 1 store can't be stacked
document has no bytes in this schema
block would reach 2^32 bytes
store would pass 4294967295 documents
writer has failed
bad checkpoint period 65
writer has failed
";

// Whether these values are printed as this text, each on a line.
fn are_printed<D: Display>(alloc: Global, values: &[D], text: &str) -> Result<bool, Fail> {
    let mut lines = String::new(alloc);
    for value in values {
        lines.push_str(format!(in alloc; "{value}\n")?.as_str())?;
    }
    Ok(lines.as_str() == text)
}

// Whether the errors have their numbers.
fn have_numbers() -> bool {
    for (error, number) in ERRORS.iter().zip(NUMBERS) {
        if error.number() != number {
            return false;
        }
    }
    true
}

#[test]
fn errors_have_their_numbers_and_texts(rt: HostRuntime) -> Result<(), Fail> {
    assert!(rt; have_numbers() && are_printed(rt.alloc(), &ERRORS, ERROR_TEXTS)?);
    Ok(())
}

const FAULTS: [DecodeFault; 6] = [
    DecodeFault::Short,
    DecodeFault::Malformed,
    DecodeFault::Version(9),
    DecodeFault::Kind(1),
    DecodeFault::Period(65),
    DecodeFault::Memory,
];

const FAULT_TEXTS: &str = "\
bytes end too early
bytes spell no value
unknown version 9
unknown block kind 1
bad checkpoint period 65
no memory
";

#[test]
fn faults_have_their_texts(rt: HostRuntime) -> Result<(), Fail> {
    let alloc = rt.alloc();
    let causes = [Cause::Write, Cause::Memory];
    let reads = [ReadFault::Device, ReadFault::Memory];
    let documents = [DocFault::Refused, DocFault::Memory];
    assert!(rt;
        are_printed(alloc, &FAULTS, FAULT_TEXTS)?
            && are_printed(alloc, &causes, "a write failed\nno memory\n")?
            && are_printed(alloc, &reads, "the device failed\nno memory\n")?
            && are_printed(alloc, &documents, "no document\nno memory\n")?
            && are_printed(alloc, &[WriteFault], "the output failed\n")?
            && are_printed(alloc, &[NoMemory], "no memory\n")?
    );
    Ok(())
}

#[test]
fn versions_and_checkpoints_have_their_texts(rt: HostRuntime) -> Result<(), Fail> {
    let (one, two) = (DocStoreVersion::V1, DocStoreVersion::V2);
    let checkpoint = Checkpoint {
        doc_range: 0..3,
        byte_range: 0..9,
    };
    let text = format!(in rt.alloc(); "{one} {two} {DOC_STORE_VERSION} {checkpoint:?}")?;
    assert!(rt; text.as_str() == "V1 V2 V3 (doc=0..3, bytes=0..9)");
    Ok(())
}

#[test]
fn constants_have_their_numbers(rt: HostRuntime) {
    assert!(rt;
        CHECKPOINT_PERIOD == 8
            && DOCSTORE_CACHE_CAPACITY == 100
            && DOC_STORE_VERSION == DocStoreVersion::V3
            && u8::SIZE_IN_BYTES == 1
            && u32::SIZE_IN_BYTES == 4
            && u64::SIZE_IN_BYTES == 8
            && DocStoreFooter::SIZE_IN_BYTES == 28
            && Compressor::default() == Compressor::None
            && Decompressor::from(Compressor::None).get_id() == 0
            && Decompressor::from_id(1) == Err(DecodeFault::Kind(1))
            && DocStoreVersion::V1 < DocStoreVersion::V2
            && DocStoreVersion::V2 < DocStoreVersion::V3
    );
}

//! Reading the footer of a file.
ghost use Rattle.std.specs.Prelude.{◌≡◌, ◌≢◌, ◌-◌, length, slice_range, Ok, Err, IfErr, MatchResult};
ghost use Rattle.store_base.specs.Files.{Part};
ghost use Rattle.store_format.specs.Extraction.{ExtractsFooter, narrowed, Says};

use crate::file_reading::read_part;
use crate::footer::DocStoreFooter;
use crate::open_error::OpenError;
use std::alloc::Global;
use store_base::{BinarySerializable, DecodeFault, FileHandle, FileSlice, FixedSize, StoreError};

/// How many bytes a footer has.
pub const FOOTER_LEN: u64 = DocStoreFooter::SIZE_IN_BYTES as u64;

/// What the 28 bytes of a footer say. It takes no memory.
pub fn footer_in(alloc: Global, bytes: &[u8]) -> Result<DocStoreFooter, StoreError>
    requires { length bytes.now ≡ 28 }
    ensures says { Says bytes.now result }
    ensures causes { IfErr result (λ e. e ≢ StoreError.Memory) }
{
    let mut rest: &[u8] = bytes;
    match DocStoreFooter::deserialize(alloc, &mut rest) {
        Ok(footer) => Ok(footer),
        Err(DecodeFault::Version(version)) => Err(StoreError::BadVersion(version)),
        Err(DecodeFault::Kind(kind)) => Err(StoreError::BadBlockKind(kind)),
        Err(DecodeFault::Period(period)) => Err(StoreError::BadPeriod(period)),
        // 28 bytes are enough for a footer, each of its numbers has one spelling, and nothing grows. The proof shows
        // it.
        Err(DecodeFault::Short | DecodeFault::Malformed | DecodeFault::Memory) => unreachable!(),
    }
}

/// Reads the footer at the end of a file. The file keeps its range.
pub fn read_footer<H: FileHandle>(
    file: &mut FileSlice<H>,
    alloc: Global,
) -> Result<DocStoreFooter, StoreError>
    ensures { ExtractsFooter file.old result file.new }
{
    let len = file.len();
    if len < FOOTER_LEN {
        return Err(StoreError::ShortFile(len));
    }
    let bytes = read_part(file, alloc, len - FOOTER_LEN..len)?;
    footer_in(alloc, bytes.as_slice())
}

impl DocStoreFooter {
    /// Reads the footer of a file: the footer, and what is before it. A refusal returns the file: a
    /// file too short for a footer, a read that failed, no memory, and then the first of a version, a
    /// kind and a period that are none.
    pub fn extract_footer<H: FileHandle>(
        alloc: Global,
        mut file: FileSlice<H>,
    ) -> Result<(DocStoreFooter, FileSlice<H>), OpenError<H>>
        ensures extracts { MatchResult result
            (λ r. (mid : Part) × ExtractsFooter file (Ok r.0) mid
            × (r.1 ≡ narrowed mid (slice_range mid.content 0 (length mid.content - 28))))
            (λ e. ExtractsFooter file (Err e.error) e.file) }
        ensures given_back { IfErr result (λ e. e.file.content ≡ file.content) }
    {
        match read_footer(&mut file, alloc) {
            Ok(footer) => {
                let body = file.len() - FOOTER_LEN;
                Ok((footer, file.narrow(0..body)))
            }
            Err(error) => Err(OpenError { error, file }),
        }
    }
}

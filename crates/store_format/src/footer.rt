//! The last bytes of a file: its version, where its index begins, and how its blocks and its index are read.

ghost use Rattle.std.specs.Prelude.{◌≡◌, ◌≤◌};

use crate::kinds::Decompressor;
use crate::version::{DOC_STORE_VERSION, DocStoreVersion};
use layered_index::{CHECKPOINT_PERIOD, USUAL_PERIOD};
use std::alloc::Global;
use store_base::{BinarySerializable, DecodeFault, FixedSize, TerminatingWrite, WriteFault};

/// What the last bytes of a file say.
#[derive(Clone, Copy, Debug, PartialEq)]
pub struct DocStoreFooter {
    /// Where the index begins.
    pub offset: u64,
    pub doc_store_version: DocStoreVersion,
    pub decompressor: Decompressor,
    /// How many checkpoints a full block of the index has. Versions 1 and 2 have 8.
    pub period: u8,
    pub ghost least: { 2 ≤ period },
    pub ghost most: { period ≤ 64 },
}

impl DocStoreFooter {
    /// The footer of an index of the usual period.
    pub fn new(
        offset: u64,
        decompressor: Decompressor,
        doc_store_version: DocStoreVersion,
    ) -> DocStoreFooter
        ensures offset { result.offset ≡ offset }
        ensures version { result.doc_store_version ≡ doc_store_version }
        ensures decompressor { result.decompressor ≡ decompressor }
        ensures period { result.period ≡ CHECKPOINT_PERIOD }
    {
        DocStoreFooter::with_period(offset, decompressor, doc_store_version, USUAL_PERIOD)
    }

    /// The footer of an index of this period.
    pub fn with_period(
        offset: u64,
        decompressor: Decompressor,
        doc_store_version: DocStoreVersion,
        period: u8,
    ) -> DocStoreFooter
        requires least { 2 ≤ period }
        requires most { period ≤ 64 }
        ensures offset { result.offset ≡ offset }
        ensures version { result.doc_store_version ≡ doc_store_version }
        ensures decompressor { result.decompressor ≡ decompressor }
        ensures period { result.period ≡ period }
    {
        DocStoreFooter {
            offset,
            doc_store_version,
            decompressor,
            period,
        }
    }
}

/// Version 3 is written, whatever version the footer names; the period as it is.
impl BinarySerializable for DocStoreFooter {
    ghost use Rattle.store_format.specs.FooterReading.{footer_bytes, IsFooter, ReadsFooter};
    ghost use Rattle.store_format.specs.FooterLemmas.{footer_keeps, footer_reads_back};

    ghost is_value = { IsFooter };

    ghost encoding = { footer_bytes };

    ghost reads = { ReadsFooter };

    ghost keeps = { footer_keeps };

    ghost read_back = { footer_reads_back };

    fn serialize<W: TerminatingWrite>(&self, output: &mut W) -> Result<(), WriteFault> {
        let mut last = [0u8; 16];
        last[0] = self.decompressor.get_id();
        last[1] = self.period;
        DOC_STORE_VERSION.serialize(output)?;
        self.offset.serialize(output)?;
        output.write_all(&last)
    }

    fn deserialize(alloc: Global, bytes: &mut &[u8]) -> Result<DocStoreFooter, DecodeFault> {
        let mut rest: &[u8] = *bytes;
        if rest.len() < DocStoreFooter::SIZE_IN_BYTES {
            return Err(DecodeFault::Short);
        }
        let doc_store_version = DocStoreVersion::deserialize(alloc, &mut rest)?;
        let offset = u64::deserialize(alloc, &mut rest)?;
        let decompressor = Decompressor::from_id(rest[0])?;
        let period = doc_store_version.period(rest[1])?;
        *bytes = &rest[16..];
        Ok(DocStoreFooter {
            offset,
            doc_store_version,
            decompressor,
            period,
        })
    }
}

impl FixedSize for DocStoreFooter {
    ghost use Rattle.store_format.specs.FooterLemmas.{length-footer_bytes};

    ghost SIZE_IN_BYTES = { 28 };

    const SIZE_IN_BYTES: usize = 28;

    ghost sized = { length-footer_bytes };
}

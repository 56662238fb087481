//! The versions of a file.

ghost use Rattle.std.specs.Prelude.{◌≡◌, ◌≤◌, ◌<◌, ◌+◌, length, OnOk, IfOk, IfErr};
ghost use Rattle.store_format.specs.Footer.{version_number};

use layered_index::USUAL_PERIOD;
use std::alloc::Global;
use std::fmt;
use store_base::{BinarySerializable, DecodeFault, TerminatingWrite, WriteFault};

/// How a file is read: version 1 has another form of documents, and version 3 a period of its own.
#[derive(Clone, Copy, Debug, PartialEq, PartialOrd)]
pub enum DocStoreVersion {
    V1,
    V2,
    V3,
}

/// The version that is written.
pub const DOC_STORE_VERSION: DocStoreVersion = DocStoreVersion::V3;

impl fmt::Display for DocStoreVersion {
    fn fmt<W: fmt::Write>(&self, f: &mut fmt::Formatter<W>) -> fmt::Result {
        match self {
            DocStoreVersion::V1 => f.write_str("V1"),
            DocStoreVersion::V2 => f.write_str("V2"),
            DocStoreVersion::V3 => f.write_str("V3"),
        }
    }
}

impl DocStoreVersion {
    ghost use Rattle.store_format.specs.FooterReading.{IsPeriodOf};

    /// Its number in a file.
    pub fn number(&self) -> u32
        ensures { result ≡ version_number self.now }
    {
        match self {
            DocStoreVersion::V1 => 1,
            DocStoreVersion::V2 => 2,
            DocStoreVersion::V3 => 3,
        }
    }

    /// The period of a file of this version, by the first reserved byte.
    pub(crate) fn period(&self, byte: u8) -> Result<u8, DecodeFault>
        ensures ok { IfOk result (λ period. IsPeriodOf self.now byte period) }
        ensures least { IfOk result (λ period. 2 ≤ period) }
        ensures most { IfOk result (λ period. period ≤ 64) }
        ensures err { IfErr result (λ fault. (fault ≡ DecodeFault.Period byte)
            × (version_number self.now ≡ 3) × (2 ≤ byte → 64 < byte)) }
    {
        match self {
            DocStoreVersion::V1 => Ok(USUAL_PERIOD),
            DocStoreVersion::V2 => Ok(USUAL_PERIOD),
            DocStoreVersion::V3 if byte < 2 || byte > 64 => Err(DecodeFault::Period(byte)),
            DocStoreVersion::V3 => Ok(byte),
        }
    }
}

impl BinarySerializable for DocStoreVersion {
    ghost use Rattle.store_format.specs.FooterReading.{version_bytes, ReadsVersion};
    ghost use Rattle.store_format.specs.FooterLemmas.{IsVersion, version_keeps, version_reads_back};

    ghost is_value = { IsVersion };

    ghost encoding = { version_bytes };

    ghost reads = { ReadsVersion };

    ghost keeps = { version_keeps };

    ghost read_back = { version_reads_back };

    fn serialize<W: TerminatingWrite>(&self, output: &mut W) -> Result<(), WriteFault> {
        self.number().serialize(output)
    }

    fn deserialize(alloc: Global, bytes: &mut &[u8]) -> Result<DocStoreVersion, DecodeFault>
        ensures reads { ReadsVersion bytes.old.now result bytes.new.now }
        ensures taken { OnOk result (4 + length bytes.new.now ≡ length bytes.old.now) }
    {
        let mut rest: &[u8] = *bytes;
        if rest.len() < 4 {
            return Err(DecodeFault::Short);
        }
        let version = match u32::deserialize(alloc, &mut rest)? {
            1 => DocStoreVersion::V1,
            2 => DocStoreVersion::V2,
            3 => DocStoreVersion::V3,
            number => return Err(DecodeFault::Version(number)),
        };
        *bytes = rest;
        Ok(version)
    }
}

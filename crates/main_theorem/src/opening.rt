//! Files in memory, opened.
ghost use Rattle.std.specs.Prelude.{◌≡◌, ◌⊎◌, IfOk, IfErr, IsTrue};
ghost use Rattle.store_format.specs.Footer.{version_number};
ghost use Rattle.store_reader.specs.CachedBlocks.{no_blocks};
ghost use Rattle.store_reader.specs.Opening.{IsSomeStore};
ghost use Rattle.store_reader.specs.Reading.{IsSeen, store_of};
ghost use Rattle.store_format.specs.StoreFile.{IsStore};

use docstore::{FileSlice, MemFile, StoreError, StoreReader};
use std::alloc::Global;

// Opens the file of these bytes.
pub(crate) fn opened(
    alloc: Global,
    bytes: &[u8],
    capacity: usize,
) -> Result<StoreReader<MemFile>, StoreError>
    ensures honest { IfOk result (λ reader. IsTrue reader.file.honest) }
    ensures failures { IfOk result (λ reader. reader.file.failures ≡ 0) }
    ensures store { IfOk result (λ reader.
        IsStore reader.period bytes.now (version_number reader.version) (store_of reader)) }
    ensures seen { IfOk result IsSeen }
    ensures cache { IfOk result (λ reader. reader.cache ≡ no_blocks capacity) }
    ensures refused { IfErr result (λ e. (e ≡ StoreError.Memory) ⊎ (IsSomeStore bytes.now → ⊥)) }
{
    let file = MemFile::new(alloc, Vec::from_slice(alloc, bytes)?)?;
    match StoreReader::open(alloc, FileSlice::new(file), capacity) {
        Ok(reader) => Ok(reader),
        Err(refusal) => Err(refusal.error),
    }
}

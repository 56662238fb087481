//! Opening a store in a file: the footer, then where the index lies, then the index. The first error is returned.
ghost use Rattle.std.specs.Prelude.{◌≡◌, ◌≢◌, ◌≤◌, ◌<◌, ◌-◌, length, IfOk, IfErr, MatchResult};
ghost use Rattle.layered_index.specs.Refusal.{RefusesOnlyUnless};
ghost use Rattle.store_reader.specs.Covering.{IsIndexOf, HasIndexOf};
ghost use Rattle.store_reader.specs.Opening.{ReadsIndex, Opens};
ghost use Rattle.store_reader.specs.Finding.{FindsFooter};

use layered_index::SkipIndex;
use std::alloc::Global;
use std::ops::Range;
use store_base::{FileHandle, FileSlice, OwnedBytes, StoreError};
use store_format::{DocStoreFooter, FOOTER_LEN, footer_in, read_footer, read_part};

/// Where the index lies in a file of `file_len` bytes: between the offset and the footer. It returns `BadOffset` where
/// the offset is past that.
pub(crate) fn index_range(footer: &DocStoreFooter, file_len: u64) -> Result<Range<u64>, StoreError>
    requires { 28 ≤ file_len }
    ensures start { IfOk result (λ r. r.start ≡ footer.now.offset) }
    ensures end { IfOk result (λ r. r.end ≡ file_len - 28) }
    ensures order { IfOk result (λ r. footer.now.offset ≤ file_len - 28) }
    ensures past { IfErr result (λ e. file_len - 28 < footer.now.offset) }
    ensures cause { IfErr result (λ e. e ≡ StoreError.BadOffset) }
{
    let end = file_len - FOOTER_LEN;
    if end < footer.offset {
        return Err(StoreError::BadOffset);
    }
    Ok(footer.offset..end)
}

// The index in these bytes. It is refused unless they are the index of checkpoints that cover this many bytes.
fn index_in(
    alloc: Global,
    bytes: OwnedBytes,
    period: u8,
    covered: u64,
) -> Result<SkipIndex, StoreError>
    requires least { 2 ≤ period }
    requires most { period ≤ 64 }
    ensures { MatchResult result
        (λ index. (index.period ≡ period) × IsIndexOf period bytes covered index.checkpoints)
        (RefusesOnlyUnless (HasIndexOf period bytes covered)) }
{
    let index = SkipIndex::open_with_period(alloc, bytes, period)?;
    let Some((_num_docs, end)) = index.covered_to() else {
        return Err(StoreError::BadIndex);
    };
    if end as u64 != covered {
        return Err(StoreError::BadIndex);
    }
    Ok(index)
}

// Reads the index of a file with this footer.
fn read_index<H: FileHandle>(
    file: &mut FileSlice<H>,
    alloc: Global,
    footer: &DocStoreFooter,
) -> Result<SkipIndex, StoreError>
    requires long { 28 ≤ length file.old.content }
    requires least { 2 ≤ footer.now.period }
    requires most { footer.now.period ≤ 64 }
    ensures { ReadsIndex file.old footer.now result file.new }
{
    let range = index_range(footer, file.len())?;
    let bytes = read_part(file, alloc, range)?;
    index_in(alloc, bytes, footer.period, footer.offset)
}

/// Reads the footer and the index of a file. The file keeps its range.
pub(crate) fn read_store<H: FileHandle>(
    file: &mut FileSlice<H>,
    alloc: Global,
) -> Result<(DocStoreFooter, SkipIndex), StoreError>
    ensures { Opens file.old result file.new }
{
    let footer = read_footer(file, alloc)?;
    let index = read_index(file, alloc, &footer)?;
    Ok((footer, index))
}

/// The footer of a file whose bytes, or the last of them, these are.
pub(crate) fn footer_of(alloc: Global, bytes: &[u8]) -> Result<DocStoreFooter, StoreError>
    ensures found { FindsFooter bytes.now result }
    ensures long { IfOk result (λ _. 28 ≤ length bytes.now) }
    ensures causes { IfErr result (λ e. e ≢ StoreError.Memory) }
{
    let len = bytes.len();
    if len < FOOTER_LEN as usize {
        return Err(StoreError::ShortFile(len as u64));
    }
    footer_in(alloc, &bytes[len - FOOTER_LEN as usize..len])
}

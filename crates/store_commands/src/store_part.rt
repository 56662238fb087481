//! Parts of a file: a range of its bytes, and where the store ends in a file of tantivy's directory.

ghost use Rattle.std.specs.Prelude.{◌≡◌, ◌≢◌, ◌<◌, ◌≤◌, ◌-◌, ◌^◌, ◌⊎◌, ℕ, Err, IfOk, IfErr, IsErrOf};
ghost use Rattle.std.specs.Prelude.{MatchOption, length};
ghost use Rattle.layered_index.specs.IndexHeads.{ReadsAtMost};
ghost use Rattle.store_format.specs.FileReading.{Comes};
ghost use Rattle.store_commands.specs.Tails.{IsNoRange, tail_of, HasLooked, FailsLook};

use docstore::{BinarySerializable, FileHandle, FileSlice, OwnedBytes, StoreError};
use std::alloc::Global;

// How many bytes follow the JSON text of tantivy's directory, and what the last four of them say.
const TANTIVY_TAIL_LEN: u64 = 8;

const TANTIVY_MAGIC: u32 = 1337;

/// The bytes of a range of a file, by one read. A range that is none of the file's is a failed read, without one.
pub fn part_of<H: FileHandle>(
    alloc: Global,
    file: &mut FileSlice<H>,
    start: u64,
    end: u64,
) -> Result<OwnedBytes, StoreError>
    ensures comes { start ≤ end → end ≤ length file.old.content → Comes file.old start end result file.new }
    ensures none { IsNoRange start end (length file.old.content)
        → (result ≡ Err StoreError.Read) × (file.new ≡ file.old) }
    ensures causes { IfErr result (λ e. (e ≡ StoreError.Read) ⊎ (e ≡ StoreError.Memory)) }
    ensures steady { IsErrOf result StoreError.Read ⊎ (file.new.failures ≡ file.old.failures) }
    ensures kept { ReadsAtMost 1 (end - start) file.old file.new }
{
    if start > end || end > file.len() {
        return Err(StoreError::Read);
    }
    Ok(file.read_range(alloc, start..end)?)
}

// The length of the JSON text before these bytes, if they are the last eight of tantivy's directory.
fn tail_length(alloc: Global, tail: &[u8]) -> Option<u64>
    requires { length tail.now ≡ 8 }
    ensures { MatchOption result ((len : ℕ) → len < 2 ^ 32 → tail.now ≢ tail_of len)
        (λ len. (len < 2 ^ 32) × (tail.now ≡ tail_of len)) }
{
    let mut rest = tail;
    let Ok(length) = u32::deserialize(alloc, &mut rest) else {
        return None;
    };
    let Ok(magic) = u32::deserialize(alloc, &mut rest) else {
        return None;
    };
    if magic != TANTIVY_MAGIC {
        return None;
    }
    Some(u64::from(length))
}

/// Where the store of a file ends to which tantivy's directory appended its bytes, by one read of the last eight of
/// them. None where the file has no such bytes: a store ends in bytes that are written as 0, and so is never taken for
/// one that they follow.
pub fn store_end<H: FileHandle>(
    alloc: Global,
    file: &mut FileSlice<H>,
) -> Result<Option<u64>, StoreError>
    ensures end { IfOk result (HasLooked file.old file.new) }
    ensures failed { IfErr result (FailsLook file.old file.new) }
{
    let len = file.len();
    if len < TANTIVY_TAIL_LEN {
        return Ok(None);
    }
    let body = len - TANTIVY_TAIL_LEN;
    let tail = file.read_range(alloc, body..len)?;
    let Some(length) = tail_length(alloc, tail.as_slice()) else {
        return Ok(None);
    };
    if length > body {
        return Ok(None);
    }
    Ok(Some(body - length))
}

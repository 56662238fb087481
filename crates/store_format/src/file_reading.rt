//! Reading a range of a file.
ghost use Rattle.std.specs.Prelude.{◌≤◌, length};
ghost use Rattle.store_format.specs.FileReading.{Comes};

use std::alloc::Global;
use std::ops::Range;
use store_base::{FileHandle, FileSlice, OwnedBytes, StoreError};

/// Reads a range of a file, by one read.
pub fn read_part<H: FileHandle>(
    file: &mut FileSlice<H>,
    alloc: Global,
    range: Range<u64>,
) -> Result<OwnedBytes, StoreError>
    requires order { range.start ≤ range.end }
    requires within { range.end ≤ length file.old.content }
    ensures { Comes file.old range.start range.end result file.new }
{
    Ok(file.read_range(alloc, range)?)
}

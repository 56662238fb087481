//! Files that are read in parts.
//!
//! A file may lie, and its reads may fail. Ghost members say what it holds, whether it is honest, how often it failed
//! and was read, and for how many bytes. So a caller's promise can say "where the file is honest", "only where
//! a read failed" and "no more than this block".

ghost use Rattle.std.specs.Prelude.{◌≡◌, ◌≤◌, ◌-◌, ◌⊎◌, ℕ, List, Bool, length, IfOk, IsTrue, IsErrOf, slice_range};
ghost use Rattle.store_base.specs.Counts.{HasRisen, raised};
ghost use Rattle.store_base.specs.Files.{ReadsOnce};

use crate::fault::ReadFault;
use crate::owned_bytes::OwnedBytes;
use std::alloc::Global;
use std::marker::Model;
use std::ops::Range;

/// What has a length in bytes.
pub trait HasLen {
    /// How many bytes it has.
    ghost length_of: { Self → ℕ };

    /// The length in bytes.
    fn len(&self) -> u64
        ensures { result ≡ length_of self.now };
}

/// A file that is read in parts. No call changes what it holds, whether it is honest, or its length.
///
/// A type that implements it counts each read and the bytes that it asks for, also where the read fails; it counts a
/// failure exactly where a read returns `Device`, so `Memory` is never a fault of the device.
pub trait FileHandle: Drop {
    /// What it holds.
    ghost content: { Self → List ℕ };

    /// Whether its reads give what it holds.
    ghost honest: { Self → Bool };

    /// How often it failed. A count that has its greatest value is taken to have risen.
    ghost failures: { Self → ℕ };

    /// How often it was read, up to the greatest u64.
    ghost reads: { Self → ℕ };

    /// How many bytes its reads asked for, up to the greatest u64.
    ghost asked: { Self → ℕ };

    /// The length in bytes.
    fn len(&self) -> u64
        ensures { result ≡ length (content self.now) };

    /// Reads the bytes of a range. Ok has exactly the range's length, whatever the file does.
    fn read_bytes(&mut self, alloc: Global, range: Range<u64>) -> Result<OwnedBytes, ReadFault>
        requires order { range.start ≤ range.end }
        requires within { range.end ≤ length (content self.old) }
        ensures length { IfOk result (λ bytes. length bytes ≡ range.end - range.start) }
        ensures bytes { IsTrue (honest self.old)
            → IfOk result (λ bytes. bytes ≡ slice_range (content self.old) range.start range.end) }

        ensures device { IsErrOf result ReadFault.Device → HasRisen (failures self.old) (failures self.new) }
        ensures steady { IsErrOf result ReadFault.Device ⊎ (failures self.new ≡ failures self.old) }
        ensures failures { failures self.old ≤ failures self.new }
        ensures reads { reads self.new ≡ raised (reads self.old) 1 }
        ensures asked { asked self.new ≡ raised (asked self.old) (range.end - range.start) }

        ensures content { content self.new ≡ content self.old }
        ensures honest { honest self.new ≡ honest self.old };
}

/// A part of a file, which owns the file. Ranges count from the part's first byte.
#[derive(Drop)]
pub struct FileSlice<H: FileHandle> {
    handle: H,
    start: u64,
    end: u64,
}

/// Clauses see the part's bytes, and the ghost members of the file.
impl<H: FileHandle> Model for FileSlice<H> {
    ghost use Rattle.std.specs.Prelude.{◌≤◌, ◌<◌, ◌^◌, length, slice_range};
    ghost use Rattle.store_base.specs.Files.{Part};

    ghost Value = { Part };

    ghost view = { λ s. record {
      content = slice_range (H.content s.handle) s.start s.end;
      honest = H.honest s.handle;
      failures = H.failures s.handle;
      reads = H.reads s.handle;
      asked = H.asked s.handle;
    } };

    ghost invariant = { λ s. (s.start ≤ s.end) × (s.end ≤ length (H.content s.handle)) × (s.end < 2 ^ 64) };
}

impl<H: FileHandle> FileSlice<H> {
    /// The whole file.
    pub fn new(handle: H) -> FileSlice<H>
        ensures content { result.content ≡ H.content handle }
        ensures honest { result.honest ≡ H.honest handle }
        ensures failures { result.failures ≡ H.failures handle }
        ensures reads { result.reads ≡ H.reads handle }
        ensures asked { result.asked ≡ H.asked handle }
    {
        let end = handle.len();
        FileSlice {
            handle,
            start: 0,
            end,
        }
    }

    pub fn len(&self) -> u64
        ensures { result ≡ length self.now.content }
    {
        self.end - self.start
    }

    /// The file that it is a part of.
    pub fn handle(&self) -> &H
        ensures honest { H.honest result.now ≡ self.now.honest }
        ensures failures { H.failures result.now ≡ self.now.failures }
        ensures reads { H.reads result.now ≡ self.now.reads }
        ensures asked { H.asked result.now ≡ self.now.asked }
    {
        &self.handle
    }

    /// Reads the whole part, by one read of the file.
    pub fn read_bytes(&mut self, alloc: Global) -> Result<OwnedBytes, ReadFault>
        ensures length { IfOk result (λ bytes. length bytes ≡ length self.old.content) }
        ensures bytes { IsTrue self.old.honest → IfOk result (λ bytes. bytes ≡ self.old.content) }
        ensures device { IsErrOf result ReadFault.Device → HasRisen self.old.failures self.new.failures }
        ensures steady { IsErrOf result ReadFault.Device ⊎ (self.new.failures ≡ self.old.failures) }
        ensures once { ReadsOnce (length self.old.content) self.old self.new }
    {
        self.handle.read_bytes(alloc, self.start..self.end)
    }

    /// Reads the bytes of a range of the part, by one read of the file.
    pub fn read_range(&mut self, alloc: Global, range: Range<u64>) -> Result<OwnedBytes, ReadFault>
        requires order { range.start ≤ range.end }
        requires within { range.end ≤ length self.old.content }
        ensures length { IfOk result (λ bytes. length bytes ≡ range.end - range.start) }
        ensures bytes { IsTrue self.old.honest
            → IfOk result (λ bytes. bytes ≡ slice_range self.old.content range.start range.end) }
        ensures device { IsErrOf result ReadFault.Device → HasRisen self.old.failures self.new.failures }
        ensures steady { IsErrOf result ReadFault.Device ⊎ (self.new.failures ≡ self.old.failures) }
        ensures once { ReadsOnce (range.end - range.start) self.old self.new }
    {
        self.handle
            .read_bytes(alloc, self.start + range.start..self.start + range.end)
    }

    /// The part of a range of the part. The file isn't read.
    pub fn narrow(self, range: Range<u64>) -> FileSlice<H>
        requires order { range.start ≤ range.end }
        requires within { range.end ≤ length self.content }
        ensures content { result.content ≡ slice_range self.content range.start range.end }
        ensures honest { result.honest ≡ self.honest }
        ensures failures { result.failures ≡ self.failures }
        ensures reads { result.reads ≡ self.reads }
        ensures asked { result.asked ≡ self.asked }
    {
        let start = self.start + range.start;
        let end = self.start + range.end;
        let FileSlice { handle, .. } = self;
        FileSlice { handle, start, end }
    }
}

impl<H: FileHandle> HasLen for FileSlice<H> {
    ghost length_of = { λ part. length part.content };

    fn len(&self) -> u64 {
        FileSlice::len(self)
    }
}

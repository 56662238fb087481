//! A file in memory.

ghost use Rattle.std.specs.Prelude.{◌≡◌, true, IfOk};

use crate::fault::{NoMemory, ReadFault};
use crate::file_slice::FileHandle;
use crate::owned_bytes::OwnedBytes;
use std::alloc::Global;
use std::marker::Model;
use std::ops::Range;

/// A file in memory: honest, and never failing. What it reads shares its bytes.
#[derive(Drop)]
pub struct MemFile {
    bytes: OwnedBytes,
    reads: u64,
    asked: u64,
}

/// Clauses see what it holds, how often it was read, and for how many bytes.
impl Model for MemFile {
    ghost use Rattle.store_base.specs.Files.{Content};

    ghost Value = { Content };

    ghost view = { λ f. record { content = f.bytes; reads = f.reads; asked = f.asked } };
}

impl MemFile {
    /// The file of these bytes, which stay where they are.
    pub fn new(alloc: Global, bytes: Vec<u8>) -> Result<MemFile, NoMemory>
        ensures content { IfOk result (λ f. f.content ≡ bytes.items) }
        ensures reads { IfOk result (λ f. f.reads ≡ 0) }
        ensures asked { IfOk result (λ f. f.asked ≡ 0) }
    {
        Ok(MemFile::of_shared(OwnedBytes::new(alloc, bytes)?))
    }

    /// The file of bytes that others may share. It takes no memory.
    pub fn of_shared(bytes: OwnedBytes) -> MemFile
        ensures content { result.content ≡ bytes }
        ensures reads { result.reads ≡ 0 }
        ensures asked { result.asked ≡ 0 }
    {
        MemFile {
            bytes,
            reads: 0,
            asked: 0,
        }
    }
}

impl FileHandle for MemFile {
    ghost content = { λ f. f.content };

    ghost honest = { λ _. true };

    ghost failures = { λ _. 0 };

    ghost reads = { λ f. f.reads };

    ghost asked = { λ f. f.asked };

    fn len(&self) -> u64 {
        self.bytes.len() as u64
    }

    fn read_bytes(&mut self, _alloc: Global, range: Range<u64>) -> Result<OwnedBytes, ReadFault> {
        self.reads = self.reads.saturating_add(1);
        self.asked = self.asked.saturating_add(range.end - range.start);
        Ok(self.bytes.slice(range.start as usize..range.end as usize)?)
    }
}

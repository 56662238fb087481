//! A file one of whose reads fails.

ghost use Rattle.std.specs.Prelude.{◌≡◌, true, IfOk};

use docstore::{FileHandle, NoMemory, OwnedBytes, ReadFault};
use std::alloc::Global;
use std::marker::Model;
use std::ops::Range;

/// An honest file in memory one of whose reads fails, once.
#[derive(Drop)]
pub struct FailingFile {
    bytes: OwnedBytes,
    reads: u64,
    asked: u64,
    failures: u64,
    failing_read: u64,
}

/// Clauses see the model of a file, and not which read will fail.
impl Model for FailingFile {
    ghost use Rattle.std.specs.Prelude.{true};
    ghost use Rattle.store_base.specs.Files.{Part};

    ghost Value = { Part };

    ghost view = { λ f. record {
      content = f.bytes;
      honest = true;
      failures = f.failures;
      reads = f.reads;
      asked = f.asked;
    } };
}

impl FailingFile {
    /// The file of these bytes whose read of this number fails. The first read is number 1; number 0 never comes.
    pub fn new(alloc: Global, bytes: Vec<u8>, failing_read: u64) -> Result<FailingFile, NoMemory>
        ensures { IfOk result (λ f. f
            ≡ record { content = bytes.items; honest = true; failures = 0; reads = 0; asked = 0 }) }
    {
        Ok(FailingFile {
            bytes: OwnedBytes::new(alloc, bytes)?,
            reads: 0,
            asked: 0,
            failures: 0,
            failing_read,
        })
    }
}

impl FileHandle for FailingFile {
    ghost content = { λ f. f.content };

    ghost honest = { λ f. f.honest };

    ghost failures = { λ f. f.failures };

    ghost reads = { λ f. f.reads };

    ghost asked = { λ f. f.asked };

    fn len(&self) -> u64 {
        self.bytes.len() as u64
    }

    fn read_bytes(&mut self, _alloc: Global, range: Range<u64>) -> Result<OwnedBytes, ReadFault> {
        self.reads = self.reads.saturating_add(1);
        self.asked = self.asked.saturating_add(range.end - range.start);
        if self.reads == self.failing_read {
            self.failures = self.failures.saturating_add(1);
            return Err(ReadFault::Device);
        }
        Ok(self.bytes.slice(range.start as usize..range.end as usize)?)
    }
}

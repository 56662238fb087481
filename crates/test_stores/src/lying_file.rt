//! A file that gives other bytes than it holds.

ghost use Rattle.std.specs.Prelude.{◌≡◌, false, length, IfOk};

use docstore::{FileHandle, NoMemory, OwnedBytes, ReadFault};
use std::alloc::Global;
use std::marker::Model;
use std::ops::Range;

/// A file that gives other bytes at each read, of the right length; at first it may be honest.
#[derive(Drop)]
pub struct LyingFile {
    bytes: Vec<u8>,
    honest_reads: u64,
    lying_bytes: usize,
    reads: u64,
    asked: u64,
}

/// Clauses see the model of a file.
impl Model for LyingFile {
    ghost use Rattle.std.specs.Prelude.{false};
    ghost use Rattle.store_base.specs.Files.{Part};

    ghost Value = { Part };

    ghost view = { λ f. record {
      content = f.bytes.items;
      honest = false;
      failures = 0;
      reads = f.reads;
      asked = f.asked;
    } };
}

impl LyingFile {
    /// A file that holds these bytes. Its read number n gives each with the number's lowest byte xored in, so the first
    /// 255 reads tell no byte as it is.
    pub fn new(bytes: Vec<u8>) -> LyingFile
        ensures { result ≡ record { content = bytes.items; honest = false; failures = 0; reads = 0; asked = 0 } }
    {
        LyingFile::after_reads(bytes, 0, usize::MAX)
    }

    /// The same after `honest_reads` reads that give every byte as it is. They aren't counted in the numbers, and only
    /// the first `lying_bytes` bytes of each later read are wrong.
    pub fn after_reads(bytes: Vec<u8>, honest_reads: u64, lying_bytes: usize) -> LyingFile
        ensures { result ≡ record { content = bytes.items; honest = false; failures = 0; reads = 0; asked = 0 } }
    {
        LyingFile {
            bytes,
            honest_reads,
            lying_bytes,
            reads: 0,
            asked: 0,
        }
    }
}

// The bytes, those at the front with the mask xored in.
fn masked(alloc: Global, bytes: &[u8], count: usize, mask: u8) -> Result<Vec<u8>, NoMemory>
    ensures { IfOk result (λ masked. length masked.items ≡ length bytes.now) }
{
    let mut masked = Vec::from_slice(alloc, bytes)?;
    for byte in masked.iter_mut().take(count) {
        *byte ^= mask;
    }
    Ok(masked)
}

impl FileHandle for LyingFile {
    ghost content = { λ f. f.content };

    ghost honest = { λ f. f.honest };

    ghost failures = { λ f. f.failures };

    ghost reads = { λ f. f.reads };

    ghost asked = { λ f. f.asked };

    fn len(&self) -> u64 {
        self.bytes.len() as u64
    }

    fn read_bytes(&mut self, alloc: Global, range: Range<u64>) -> Result<OwnedBytes, ReadFault> {
        self.reads = self.reads.saturating_add(1);
        self.asked = self.asked.saturating_add(range.end - range.start);
        let lies = self.reads.saturating_sub(self.honest_reads);
        let mask = (lies & 0xff) as u8;
        let part = &self.bytes[range.start as usize..range.end as usize];
        let bytes = masked(alloc, part, self.lying_bytes, mask)?;
        Ok(OwnedBytes::new(alloc, bytes)?)
    }
}

//! An output in memory.

ghost use Rattle.std.specs.Prelude.{◌≡◌, ◌++◌, ◌≤◌, [], is_ok, IsOk, IfOk, OnOk, OnErr};
ghost use Rattle.store_base.specs.Counts.{HasRisen};
ghost use Rattle.store_base.specs.Outputs.{never_terminated, terminated_once};

use crate::counting_writer::TerminatingWrite;
use crate::fault::WriteFault;
use std::alloc::{AllocError, Global};
use std::marker::Model;

/// An output in memory. A growth that is refused is its one failure, and leaves what was written.
#[derive(Drop)]
pub struct MemSink {
    bytes: Vec<u8>,
    ends: u64,
    ended_at: Option<usize>,
    failures: u64,
}

/// Clauses see what was written, its ends, and how often a write failed.
impl Model for MemSink {
    ghost use Rattle.store_base.specs.Outputs.{Output};

    ghost Value = { Output };

    ghost view = { λ s. record {
      content = s.bytes.items;
      termination = record { calls = s.ends; at = s.ended_at };
      failures = s.failures;
    } };
}

impl MemSink {
    /// Nothing written. It takes no memory.
    pub fn new(alloc: Global) -> MemSink
        ensures content { result.content ≡ [] }
        ensures termination { result.termination ≡ never_terminated }
        ensures failures { result.failures ≡ 0 }
    {
        MemSink {
            bytes: Vec::new(alloc),
            ends: 0,
            ended_at: None,
            failures: 0,
        }
    }

    /// Nothing written, with room for this many bytes before it takes more memory.
    pub fn with_capacity(alloc: Global, capacity: usize) -> Result<MemSink, AllocError>
        ensures content { IfOk result (λ s. s.content ≡ []) }
        ensures termination { IfOk result (λ s. s.termination ≡ never_terminated) }
        ensures failures { IfOk result (λ s. s.failures ≡ 0) }
    {
        Ok(MemSink {
            bytes: Vec::with_capacity(alloc, capacity)?,
            ends: 0,
            ended_at: None,
            failures: 0,
        })
    }

    /// What was written.
    pub fn as_slice(&self) -> &[u8]
        ensures { result.now ≡ self.now.content }
    {
        &self.bytes
    }

    /// What was written, which stays where it is.
    pub fn into_bytes(self) -> Vec<u8>
        ensures { result.items ≡ self.content }
    {
        let MemSink { bytes, .. } = self;
        bytes
    }
}

impl TerminatingWrite for MemSink {
    ghost content = { λ s. s.content };

    ghost termination = { λ s. s.termination };

    ghost failures = { λ s. s.failures };

    fn write_all(&mut self, bytes: &[u8]) -> Result<(), WriteFault>
        ensures ok { OnOk result (self.new.content ≡ self.old.content ++ bytes.now) }
        ensures termination { self.new.termination ≡ self.old.termination }
        ensures count { self.old.failures ≤ self.new.failures }
        ensures fault { OnErr result (HasRisen self.old.failures self.new.failures) }

        ensures steady { OnOk result (self.new.failures ≡ self.old.failures) }

        // In addition to what every output promises: a fault leaves what was written.
        ensures kept { OnErr result (self.new.content ≡ self.old.content) }
    {
        match self.bytes.extend_from_slice(bytes) {
            Ok(()) => Ok(()),
            Err(_) => {
                self.failures = self.failures.saturating_add(1);
                Err(WriteFault)
            }
        }
    }

    fn terminate(&mut self) -> Result<(), WriteFault>
        ensures termination { self.new.termination
            ≡ terminated_once (is_ok result) self.old.content self.old.termination }
        ensures content { OnOk result (self.new.content ≡ self.old.content) }
        ensures count { self.old.failures ≤ self.new.failures }
        ensures fault { OnErr result (HasRisen self.old.failures self.new.failures) }

        // In addition: it never fails.
        ensures succeeds { IsOk result }
        ensures steady { self.new.failures ≡ self.old.failures }
    {
        self.ends = self.ends.saturating_add(1);
        self.ended_at = Some(self.bytes.len());
        Ok(())
    }
}

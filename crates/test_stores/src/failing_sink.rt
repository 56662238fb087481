//! An output one of whose calls fails.

ghost use Rattle.std.specs.Prelude.{◌≡◌, ◌↔◌, [], IsErr, IsTrue, length};
ghost use Rattle.store_base.specs.Counts.{HasRisen, raised};
ghost use Rattle.store_base.specs.Outputs.{IsTerminated, never_terminated};

use docstore::{TerminatingWrite, WriteFault};
use std::alloc::Global;
use std::marker::Model;

/// An output in memory one of whose writes, or whose `terminate`, fails. A write that fails leaves the first half of
/// its bytes.
#[derive(Drop)]
pub struct FailingSink {
    bytes: Vec<u8>,
    ends: u64,
    ended_at: Option<usize>,
    failures: u64,
    calls: u64,
    failing_call: u64,
}

/// Clauses see the model of an output, and not which call will fail.
impl Model for FailingSink {
    ghost use Rattle.store_base.specs.Outputs.{Output};

    ghost Value = { Output };

    ghost view = { λ s. record {
      content = s.bytes.items;
      termination = record { calls = s.ends; at = s.ended_at };
      failures = s.failures;
    } };
}

impl FailingSink {
    /// An empty output whose call of this number fails. Writes and ends count together; the first is number 1, and
    /// number 0 never comes.
    pub fn new(alloc: Global, failing_call: u64) -> FailingSink
        ensures { result ≡ record { content = []; termination = never_terminated; failures = 0 } }
    {
        FailingSink {
            bytes: Vec::new(alloc),
            ends: 0,
            ended_at: None,
            failures: 0,
            calls: 0,
            failing_call,
        }
    }

    /// What was written.
    pub fn as_slice(&self) -> &[u8]
        ensures { result.now ≡ self.now.content }
    {
        &self.bytes
    }

    /// Whether a `terminate` returned Ok and nothing was written after it.
    pub fn is_terminated(&self) -> bool
        ensures { IsTrue result ↔ IsTerminated self.now.content self.now.termination }
    {
        self.ended_at == Some(self.bytes.len())
    }

    /// How often `terminate` was called, up to the greatest u64.
    pub fn ends(&self) -> u64
        ensures { result ≡ self.now.termination.calls }
    {
        self.ends
    }

    /// How many calls there were, up to the greatest u64.
    pub fn calls(&self) -> u64 {
        self.calls
    }

    // Counts a call, and says whether it is the one that fails.
    fn is_failing(&mut self) -> bool
        ensures { self.new ≡ self.old }
    {
        self.calls = self.calls.saturating_add(1);
        self.calls == self.failing_call
    }

    fn fail(&mut self) -> Result<(), WriteFault>
        ensures fault { IsErr result }
        ensures content { self.new.content ≡ self.old.content }
        ensures termination { self.new.termination ≡ self.old.termination }
        ensures count { HasRisen self.old.failures self.new.failures }
    {
        self.failures = self.failures.saturating_add(1);
        Err(WriteFault)
    }
}

impl TerminatingWrite for FailingSink {
    ghost content = { λ s. s.content };

    ghost termination = { λ s. s.termination };

    ghost failures = { λ s. s.failures };

    fn write_all(&mut self, bytes: &[u8]) -> Result<(), WriteFault> {
        if self.is_failing() {
            let _ = self.bytes.extend_from_slice(&bytes[..bytes.len() / 2]);
            return self.fail();
        }
        if self.bytes.extend_from_slice(bytes).is_err() {
            return self.fail();
        }
        Ok(())
    }

    fn terminate(&mut self) -> Result<(), WriteFault> {
        self.ends = self.ends.saturating_add(1);
        if self.is_failing() {
            return self.fail();
        }
        self.ended_at = Some(self.bytes.len());
        Ok(())
    }
}

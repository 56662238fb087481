//! Outputs that are written at their end.

ghost use Rattle.std.specs.Prelude.{◌≡◌, ◌++◌, ◌≤◌, ℕ, List, length, is_ok, if◌then◌else◌, OnOk, OnErr};
ghost use Rattle.store_base.specs.Counts.{HasRisen, raised};
ghost use Rattle.store_base.specs.Outputs.{Termination, terminated_once};

use crate::fault::WriteFault;
use std::marker::Model;

/// An output that is written at its end, and terminated once.
///
/// Nothing is promised of what a write that failed left, nor of a `terminate` that failed.
pub trait TerminatingWrite: Drop {
    /// What was written.
    ghost content: { Self → List ℕ };

    /// How often `terminate` was called, up to the greatest u64, and how many bytes there were when it
    /// last returned Ok. Bytes that are written after an end don't move it, so they are not ended.
    ghost termination: { Self → Termination };

    /// How often a call failed. A count that has its greatest value is taken to have risen.
    ghost failures: { Self → ℕ };

    /// Writes the bytes at the end.
    fn write_all(&mut self, bytes: &[u8]) -> Result<(), WriteFault>
        ensures ok { OnOk result (content self.new ≡ content self.old ++ bytes.now) }
        ensures termination { termination self.new ≡ termination self.old }
        ensures count { failures self.old ≤ failures self.new }
        ensures fault { OnErr result (HasRisen (failures self.old) (failures self.new)) }
        ensures steady { OnOk result (failures self.new ≡ failures self.old) };

    /// Ends the output: nothing will be written after this.
    fn terminate(&mut self) -> Result<(), WriteFault>
        ensures termination { termination self.new
            ≡ terminated_once (is_ok result) (content self.old) (termination self.old) }
        ensures content { OnOk result (content self.new ≡ content self.old) }
        ensures count { failures self.old ≤ failures self.new }
        ensures fault { OnErr result (HasRisen (failures self.old) (failures self.new)) }
        ensures steady { OnOk result (failures self.new ≡ failures self.old) };
}

/// An output that counts the bytes of the writes that returned Ok.
#[derive(Drop)]
pub struct CountingWriter<W: TerminatingWrite> {
    output: W,
    written: u64,
}

/// Clauses see the output and the count.
impl<W: TerminatingWrite> Model for CountingWriter<W> {
    ghost use Rattle.store_base.specs.Outputs.{Counted};

    ghost Value = { Counted W };

    ghost view = { λ c. record { output = c.output; written = c.written } };
}

impl<W: TerminatingWrite> CountingWriter<W> {
    /// Counts from 0 on.
    pub fn wrap(output: W) -> CountingWriter<W>
        ensures output { result.output ≡ output }
        ensures written { result.written ≡ 0 }
    {
        CountingWriter { output, written: 0 }
    }

    /// How many bytes were written, up to the greatest u64.
    pub fn written_bytes(&self) -> u64
        ensures { result ≡ self.now.written }
    {
        self.written
    }

    /// Returns the output.
    pub fn finish(self) -> W
        ensures { result ≡ self.output }
    {
        let CountingWriter { output, .. } = self;
        output
    }
}

impl<W: TerminatingWrite> TerminatingWrite for CountingWriter<W> {
    ghost content = { λ c. W.content c.output };

    ghost termination = { λ c. W.termination c.output };

    ghost failures = { λ c. W.failures c.output };

    fn write_all(&mut self, bytes: &[u8]) -> Result<(), WriteFault>
        ensures ok { OnOk result (W.content self.new.output ≡ W.content self.old.output ++ bytes.now) }
        ensures termination { W.termination self.new.output ≡ W.termination self.old.output }
        ensures count { W.failures self.old.output ≤ W.failures self.new.output }
        ensures fault { OnErr result (HasRisen (W.failures self.old.output) (W.failures self.new.output)) }
        ensures steady { OnOk result (W.failures self.new.output ≡ W.failures self.old.output) }
        ensures written { self.new.written
            ≡ (if is_ok result then raised self.old.written (length bytes.now) else self.old.written) }
    {
        self.output.write_all(bytes)?;
        self.written = self.written.saturating_add(bytes.len() as u64);
        Ok(())
    }

    fn terminate(&mut self) -> Result<(), WriteFault>
        ensures termination { W.termination self.new.output
            ≡ terminated_once (is_ok result) (W.content self.old.output) (W.termination self.old.output) }
        ensures content { OnOk result (W.content self.new.output ≡ W.content self.old.output) }
        ensures count { W.failures self.old.output ≤ W.failures self.new.output }
        ensures fault { OnErr result (HasRisen (W.failures self.old.output) (W.failures self.new.output)) }
        ensures steady { OnOk result (W.failures self.new.output ≡ W.failures self.old.output) }
        ensures written { self.new.written ≡ self.old.written }
    {
        self.output.terminate()
    }
}

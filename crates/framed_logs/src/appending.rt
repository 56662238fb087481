//! Records that are appended to a log, and put on the disk when the policy says so.

ghost use Rattle.std.specs.Prelude.{◌≡◌, ◌∷◌, ◌++◌, [], false, OnErr, OnOk, IsTrue, option_and_then};
ghost use Rattle.store_folder.specs.Moments.{LeavesOnly};
ghost use Rattle.framed_logs.specs.Appending.{Adds, FailsSync, Syncs};

use crate::number_lines::NumberLines;
use crate::sync_policy::SyncPolicy;
use document_framing::{DocumentSink, FeedProgress};
use segmented_log::{LogError, SegmentedLog};
use std::io;
use std::io::Write;
use store_folder::ReadableFolder;

/// A log to which the records of inputs are appended, and an output in which their numbers are printed once they are on
/// the disk.
#[derive(Drop)]
pub struct Appending<F: ReadableFolder, W: Write, P: FeedProgress> {
    /// The log, in a box: a function that has it moves one value, and not all of its parts.
    pub log: Box<SegmentedLog<F>>,
    pub policy: SyncPolicy,
    pub numbers: NumberLines<W>,
    pub progress: P,
    /// The number after the last record that was synced here, or else after the log's last one when this began.
    pub synced_to: u64,
    // How many bytes the records that wait take.
    waiting: u64,
}

impl<F: ReadableFolder, W: Write, P: FeedProgress> Appending<F, W, P> {
    /// Of this log. Where there is an output, the numbers of the records that are synced are printed in it.
    pub fn new(
        log: Box<SegmentedLog<F>>,
        policy: SyncPolicy,
        output: Option<W>,
        progress: P,
    ) -> Appending<F, W, P>
        ensures log { result.log.value ≡ log.value }
        ensures policy { result.policy ≡ policy }
        ensures bytes { result.numbers.bytes ≡ option_and_then W.contents output }
        ensures works { result.numbers.failed ≡ false }
    {
        let synced_to = log.end();
        Appending {
            log,
            policy,
            numbers: NumberLines::new(output),
            progress,
            synced_to,
            waiting: 0,
        }
    }

    /// Puts the records that wait on the disk, and then prints their numbers. Where these can't be printed the log
    /// still takes all records.
    ///
    /// # Errors
    ///
    /// Those of the log, which then must be opened again. No number was printed.
    pub fn sync(&mut self) -> Result<(), LogError>
        ensures policy { self.new.policy ≡ self.old.policy }
        ensures synced { IsTrue F.honest
            → OnOk result (Syncs self.old.log.value self.new.log.value self.old.numbers self.new.numbers) }
        ensures failed { IsTrue F.honest → OnErr result (FailsSync (LeavesOnly F.moment F.left_since)
            self.old.log.value self.new.log.value self.old.numbers self.new.numbers) }
        ensures silent { OnErr result (self.new.numbers ≡ self.old.numbers) }
    {
        let from = self.log.end();
        self.log.sync()?;
        self.waiting = 0;
        self.synced_to = self.log.end();
        self.numbers.print(from, self.synced_to);
        Ok(())
    }

    // Puts them on the disk if that is due.
    fn sync_if(&mut self, is_due: bool) -> Result<(), LogError>
        requires { self.old.policy ≡ SyncPolicy.End → is_due ≡ false }
        ensures policy { self.new.policy ≡ self.old.policy }
        ensures kept { IsTrue F.honest → OnOk result
            (Adds self.old.policy [] self.old.log.value self.new.log.value self.old.numbers self.new.numbers) }
        ensures failed { IsTrue F.honest → OnErr result (FailsSync (LeavesOnly F.moment F.left_since)
            self.old.log.value self.new.log.value self.old.numbers self.new.numbers) }
    {
        match is_due {
            true => self.sync(),
            false => Ok(()),
        }
    }

    // Puts a record after the others.
    fn put(&mut self, record: &[u8], bytes: u64) -> Result<(), LogError>
        ensures policy { self.new.policy ≡ self.old.policy }
        ensures numbers { self.new.numbers ≡ self.old.numbers }
        ensures commit { self.new.log.value.commit ≡ self.old.log.value.commit }
        ensures first { self.new.log.value.first ≡ self.old.log.value.first }
        ensures slots { self.new.log.value.slots ≡ self.old.log.value.slots }
        ensures works { self.new.log.value.is_broken ≡ self.old.log.value.is_broken }
        ensures same { OnErr result (self.new.log.value ≡ self.old.log.value) }
        ensures pending { OnOk result (self.new.log.value.pending ≡ self.old.log.value.pending ++ record.now ∷ []) }
    {
        self.log.append(record)?;
        self.waiting = self.waiting.saturating_add(bytes);
        self.progress.note(record.len());
        Ok(())
    }
}

impl<F: ReadableFolder, W: Write, P: FeedProgress> DocumentSink for Appending<F, W, P> {
    ghost use Rattle.std.specs.Prelude.{◌≡◌, [], IsTrue, refl};
    ghost use Rattle.std.proofs.Common.{◌∙◌, subst};
    ghost use Rattle.store_folder.specs.Moments.{LeavesOnly};
    ghost use Rattle.framed_logs.specs.Appending.{Adds, Stops};
    ghost use Rattle.framed_logs.specs.Steps.{adds_none, adds_more};

    type Error = LogError;

    ghost adds = { λ old documents new. (new.policy ≡ old.policy) × (IsTrue F.honest
        → Adds old.policy documents old.log.value new.log.value old.numbers new.numbers) };

    ghost fails = { λ old new. (new.policy ≡ old.policy) × (IsTrue F.honest
        → Stops (LeavesOnly F.moment F.left_since) old.policy [] old.log.value new.log.value
        old.numbers new.numbers) };

    fn take(&mut self, document: &[u8]) -> Result<(), LogError> {
        let bytes = (document.len() as u64).saturating_add(4);
        self.sync_if(self.policy.is_due_before(self.waiting, bytes))?;
        self.put(document, bytes)?;
        self.sync_if(self.policy.is_due(self.waiting))
    }

    fn before_waiting(&mut self) -> Result<(), LogError> {
        self.sync_if(self.policy.is_due_at_wait(self.waiting))
    }

    ghost adds_none = { λ sink. (refl, λ _. adds_none sink.policy sink.log.value sink.numbers) };

    ghost adds_more = { λ old middle new first next p q. (
      q.0 ∙ p.0,
      λ honest. adds_more old.policy old.log.value middle.log.value new.log.value
          old.numbers middle.numbers new.numbers first next (p.1 honest)
          (subst (λ policy. Adds policy next middle.log.value new.log.value middle.numbers new.numbers) p.0
          (q.1 honest)),
    ) };
}

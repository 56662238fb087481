//! The records of a log, in the order of their numbers.

ghost use Rattle.std.specs.Prelude.{◌≡◌, ◌↔◌, false, max, IfOk, IfErr, IsErrOf, IsTrue};

use crate::error::LogError;
use crate::log::SegmentedLog;
use store_folder::ReadableFolder;

/// The synced records of a log from a number on, each once. A record that can't be read is given as that error, and the
/// next one follows. The log stays as it was, but for its count of failed reads.
pub struct Records<'a, F: ReadableFolder> {
    pub(crate) log: &'a mut SegmentedLog<F>,
    pub(crate) next: u64,
}

/// The log is as the last call left it.
impl<'a, F: ReadableFolder> Drop for Records<'a, F> {
    fn drop(self)
        ensures { self.exit.0.now ≡ self.entry.log.now }
    {
        let Records { log: _log, next: _ } = self;
    }
}

impl<F: ReadableFolder> SegmentedLog<F> {
    /// The synced records from this number on, or from the first one where that is later.
    ///
    /// Errors: `Broken`.
    pub fn iter_from<'a>(&'a mut self, number: u64) -> Result<Records<'a, F>, LogError>
        ensures same_log { IfOk result (λ records. records.log.ghost_name ≡ self.entry.ghost_name) }
        ensures log { IfOk result (λ records. records.log.now ≡ self.entry.now) }
        ensures next { IfOk result (λ records. records.next ≡ max self.entry.now.first number) }
        ensures works { IfOk result (λ records. records.log.now.is_broken ≡ false) }
        ensures broken { IsErrOf result LogError.Broken ↔ IsTrue self.entry.now.is_broken }
        ensures kind { IfErr result (λ e. e ≡ LogError.Broken) }
    {
        if self.is_broken() {
            return Err(LogError::Broken);
        }
        let next = number.max(self.first());
        Ok(Records { log: self, next })
    }
}

impl<'a, F: ReadableFolder> Iterator for Records<'a, F> {
    ghost use Rattle.std.specs.Prelude.{◌≡◌, ◌≤◌, ◌-◌, ◌^◌, false, IsTrue, IfSome};
    ghost use Rattle.std.specs.Result.{IsErrAnd};
    ghost use Rattle.std.specs.Iterator.{at_most};
    ghost use Rattle.store_base.specs.Counts.{HasRisen};
    ghost use Rattle.segmented_log.specs.Causes.{IsFailure};
    ghost use Rattle.segmented_log.specs.Log.{GivesNext, IsOnlyRead};

    type Item = Result<Vec<u8>, LogError>;

    ghost can_next = { λ s. (s.log.now.is_broken ≡ false) × (s.log.now.first ≤ s.next) };

    ghost remaining = { λ s. at_most (2 ^ 64 - s.next) };

    ghost next_gives = { λ s r t. (IsTrue F.honest → GivesNext s.log.now.first s.log.now.slots s.next r t.next)
        × (IsTrue F.honest → IfSome r (λ item. IsErrAnd item IsFailure
        → HasRisen s.log.now.read_failures t.log.now.read_failures))
        × IsOnlyRead s.log.now t.log.now × (t.log.ghost_name ≡ s.log.ghost_name) };

    fn next(&mut self) -> Option<Result<Vec<u8>, LogError>> {
        if self.next >= self.log.end() {
            return None;
        }
        let number = self.next;
        self.next = number + 1;
        self.log.get(number).transpose()
    }
}

//! When appended records are put on the disk.

ghost use Rattle.std.specs.Prelude.{◌≡◌, false};

// How many bytes the records of a batch take before it is synced.
const BATCH_BYTES: u64 = 1 << 20;

/// When appended records are put on the disk, and so acknowledged.
#[derive(Clone, Copy, PartialEq, Eq)]
pub enum SyncPolicy {
    /// After each record.
    Every,
    /// Once a batch of them waits, and before more input is waited for.
    Batch,
    /// Once, after all of them.
    End,
}

impl SyncPolicy {
    // Whether the records that wait are synced before a record of this length, which may not go into one batch with
    // them.
    pub(crate) fn is_due_before(self, waiting: u64, bytes: u64) -> bool
        ensures late { self ≡ SyncPolicy.End → result ≡ false }
    {
        match self {
            SyncPolicy::Batch => waiting > 0 && bytes > BATCH_BYTES,
            SyncPolicy::Every | SyncPolicy::End => false,
        }
    }

    // Whether they are synced once they take this many bytes.
    pub(crate) fn is_due(self, waiting: u64) -> bool
        ensures late { self ≡ SyncPolicy.End → result ≡ false }
    {
        match self {
            SyncPolicy::Every => true,
            SyncPolicy::Batch => waiting >= BATCH_BYTES,
            SyncPolicy::End => false,
        }
    }

    // Whether they are synced before more input is waited for.
    pub(crate) fn is_due_at_wait(self, waiting: u64) -> bool
        ensures late { self ≡ SyncPolicy.End → result ≡ false }
    {
        match self {
            SyncPolicy::Batch => waiting > 0,
            SyncPolicy::Every | SyncPolicy::End => false,
        }
    }
}

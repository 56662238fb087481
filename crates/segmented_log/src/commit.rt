//! How a batch is put on the disk.

/// How a batch is put on the disk. The bytes are the same, so a log may be opened with either.
#[derive(Clone, Copy, Debug, PartialEq, Eq)]
pub enum Commit {
    /// With one sync: the batch is put after those of the tail. A crash during it may leave bytes that are taken for
    /// another batch, if their 64-bit sum fits by chance. Batches that were acknowledged are never lost.
    OneSync,
    /// With two syncs: the tail is replaced by one that has the batch. A crash leaves the batch or none, whatever the
    /// sum is.
    TwoSyncs,
}

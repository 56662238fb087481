//! How many bytes a store takes.

ghost use Rattle.std.specs.Prelude.{◌≡◌};
ghost use Rattle.store_base.specs.Counts.{raised};

use std::marker::Model;

/// How many bytes a store takes.
#[derive(Clone, Debug, Drop)]
pub struct StoreSpaceUsage {
    data_bytes: u64,
    offsets_bytes: u64,
}

/// Clauses see the bytes of the data, and those of the index.
impl Model for StoreSpaceUsage {
    ghost use Rattle.std.specs.Prelude.{ℕ};

    ghost Value = { ℕ × ℕ };

    ghost view = { λ s. (s.data_bytes, s.offsets_bytes) };
}

impl StoreSpaceUsage {
    /// A store with this many bytes of data and of index.
    pub fn new(data_bytes: u64, offsets_bytes: u64) -> StoreSpaceUsage
        ensures { result ≡ (data_bytes, offsets_bytes) }
    {
        StoreSpaceUsage {
            data_bytes,
            offsets_bytes,
        }
    }

    /// The bytes of the data.
    pub fn data_usage(&self) -> u64
        ensures { result ≡ self.now.0 }
    {
        self.data_bytes
    }

    /// The bytes of the index.
    pub fn offsets_usage(&self) -> u64
        ensures { result ≡ self.now.1 }
    {
        self.offsets_bytes
    }

    /// Both, up to the greatest u64.
    pub fn total(&self) -> u64
        ensures { result ≡ raised self.now.0 self.now.1 }
    {
        self.data_bytes.saturating_add(self.offsets_bytes)
    }
}

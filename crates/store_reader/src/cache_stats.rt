//! What caches of blocks did.
use std::iter::Sum;
use std::ops::AddAssign;

/// What a store's cache of blocks did so far.
#[derive(Clone, Copy, Debug, PartialEq, Eq, Default)]
pub struct CacheStats {
    /// How many blocks are kept.
    pub num_entries: usize,
    /// How many look-ups found their block.
    pub cache_hits: usize,
    /// How many did not.
    pub cache_misses: usize,
}

/// Field by field, each up to the greatest number.
impl AddAssign for CacheStats {
    ghost use Rattle.std.specs.Prelude.{◌≡◌};
    ghost use Rattle.store_reader.specs.CacheSums.{stats_added};

    ghost add_assign_gives = { λ a b sum. sum ≡ stats_added a b };

    fn add_assign(&mut self, other: CacheStats) {
        self.num_entries = self.num_entries.saturating_add(other.num_entries);
        self.cache_hits = self.cache_hits.saturating_add(other.cache_hits);
        self.cache_misses = self.cache_misses.saturating_add(other.cache_misses);
    }
}

/// The sum of none is all zeros.
impl Sum<CacheStats> for CacheStats {
    ghost use Rattle.std.specs.Prelude.{◌≡◌};
    ghost use Rattle.store_reader.specs.CacheSums.{stats_sum};

    ghost sum_gives = { λ all sum. sum ≡ stats_sum all };

    fn sum<I: Iterator<Item = CacheStats>>(iter: I) -> CacheStats {
        let mut sum = CacheStats::default();
        for stats in iter {
            sum += stats;
        }
        sum
    }
}

//! How long a block of documents is, and what its documents weigh: the arithmetic that all writers share.

ghost use Rattle.std.specs.Prelude.{◌≡◌, ◌+◌, ◌*◌, ◌<◌, ◌≤◌, ◌^◌, ℕ, List, length, MatchOption};
ghost use Rattle.std.specs.List.{concat};
ghost use Rattle.store_format.specs.Block.{block};

/// A block has fewer bytes than this.
pub const BLOCK_LIMIT: usize = 0x1_0000_0000;

/// How many bytes the table of a block of `docs` documents has: four for each, and four for their number.
#[inline]
pub fn table_len(docs: usize) -> usize
    requires { docs < 2 ^ 61 }
    ensures { result ≡ 4 * docs + 4 }
{
    4 * docs + 4
}

/// The length of a block whose documents have `bytes` bytes and whose table has `table`, or `None` where it is not
/// below `BLOCK_LIMIT`.
#[inline]
pub fn block_len(bytes: usize, table: usize) -> Option<usize>
    ensures sum { MatchOption result (2 ^ 32 ≤ bytes + table) (λ len. (len ≡ bytes + table) × (len < 2 ^ 32)) }
    ensures block { (docs : List (List ℕ)) → length (concat docs) ≡ bytes → 4 * length docs + 4 ≡ table
        → MatchOption result (2 ^ 32 ≤ length (block docs)) (λ len. len ≡ length (block docs)) }
{
    let len = bytes.checked_add(table)?;
    if len < BLOCK_LIMIT { Some(len) } else { None }
}

/// What `docs` documents of `bytes` bytes weigh against the block size: their bytes, and eight for each.
#[inline]
pub fn weight_of(bytes: usize, docs: usize) -> usize
    requires { bytes + 8 * docs < 2 ^ 64 }
    ensures { result ≡ bytes + 8 * docs }
{
    bytes + 8 * docs
}

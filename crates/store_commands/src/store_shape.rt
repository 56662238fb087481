//! How a store is to be written.

ghost use Rattle.std.specs.Prelude.{◌≡◌, ◌≤◌, IfSome, IsSome};

/// How a store is to be written.
#[derive(Clone, Copy)]
pub struct StoreShape {
    pub block_size: usize,
    pub period: u8,
    pub ghost least: { 2 ≤ period },
    pub ghost most: { period ≤ 64 },
}

impl StoreShape {
    /// The shape of this block size in bytes and this period, or `None` where the period is not 2 to 64.
    pub fn new(block_size: usize, period: u8) -> Option<StoreShape>
        ensures some { 2 ≤ period → period ≤ 64 → IsSome result }
        ensures period { IfSome result (λ shape. shape.period ≡ period) }
        ensures block_size { IfSome result (λ shape. shape.block_size ≡ block_size) }
    {
        if period < 2 || period > 64 {
            return None;
        }
        Some(StoreShape { block_size, period })
    }
}

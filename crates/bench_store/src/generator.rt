//! Numbers that look random, and are the same at each run.

/// The seeds of the lists that the workloads are made of.
pub const POOL_SEED: u64 = 88172645463325252;

pub const IDS_SEED: u64 = 1234567890123456789;

/// A xorshift generator of 64 bits. Its seed is not 0.
#[derive(Drop)]
pub struct Generator {
    state: u64,
}

impl Generator {
    pub fn new(seed: u64) -> Generator {
        Generator { state: seed }
    }

    pub fn next(&mut self) -> u64 {
        let mut state = self.state;
        state ^= state << 13;
        state ^= state >> 7;
        state ^= state << 17;
        self.state = state;
        state
    }
}

//! The documents that are stored: parts of one pool of bytes.
ghost use Rattle.std.specs.Prelude.{◌≡◌, ◌<◌, length, IfOk};

use crate::generator::{Generator, POOL_SEED};
use std::alloc::{AllocError, Global};
use std::marker::Model;

const POOL_LEN: usize = 1 << 20;

const POOL_STEP: usize = 4099;

/// Documents of one length, without an end.
#[derive(Drop)]
pub struct Documents {
    pool: Vec<u8>,
    len: usize,
}

/// Clauses see the length.
impl Model for Documents {
    ghost use Rattle.std.specs.Prelude.{ℕ, ◌<◌, length};

    ghost Value = { ℕ };

    ghost view = { λ d. d.len };

    ghost invariant = { λ d. d.len < length d.pool.items };
}

fn pool(alloc: Global) -> Result<Vec<u8>, AllocError> {
    let mut generator = Generator::new(POOL_SEED);
    let mut bytes = Vec::with_capacity(alloc, POOL_LEN)?;
    for _ in 0..POOL_LEN / 8 {
        bytes.extend_from_slice(&generator.next().to_le_bytes())?;
    }
    Ok(bytes)
}

impl Documents {
    /// Those of this length, or None where the pool has too few bytes.
    pub fn of_length(alloc: Global, len: usize) -> Result<Option<Documents>, AllocError> {
        let pool = pool(alloc)?;
        if len < pool.len() {
            Ok(Some(Documents { pool, len }))
        } else {
            Ok(None)
        }
    }

    /// The document of this number.
    pub fn get(&self, i: usize) -> &[u8] {
        let at = i.wrapping_mul(POOL_STEP) % (self.pool.len() - self.len);
        &self.pool[at..at + self.len]
    }

    /// The length of each.
    pub fn len(&self) -> usize {
        self.len
    }
}

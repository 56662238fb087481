//! A tail: a header, and batches after it.

ghost use Rattle.std.specs.Prelude.{◌≡◌, [], length, IfOk, IfSome, IfNone};
ghost use Rattle.log_tail.specs.Tail.{bodies_of, first_of, IsWholeTo, IsTail};

use crate::batches::HEADER;
use std::alloc::{AllocError, Global};

/// What a tail begins with.
pub const MAGIC: [u8; 8] = *b"zevklog\x01";

/// The number of a tail's first record, if these bytes are a tail.
#[tactic(auto, unfolding(crate::specs::Tail::first_of))]
pub fn first_number(bytes: &[u8]) -> Option<u64>
    ensures some { IfSome result (λ n. IsTail bytes.now × (n ≡ first_of bytes.now)) }
    ensures none { IfNone result (IsTail bytes.now → ⊥) }
{
    let (magic, rest) = bytes.split_first_chunk::<8>()?;
    let (first, _) = rest.split_first_chunk::<8>()?;
    if *magic == MAGIC {
        Some(u64::from_le_bytes(*first))
    } else {
        None
    }
}

/// The bytes of a tail of no records, the first of which will have this number.
pub fn new_tail(alloc: Global, first: u64) -> Result<Vec<u8>, AllocError>
    ensures { IfOk result (λ tail. IsTail tail.items × (first_of tail.items ≡ first) × (bodies_of tail.items ≡ [])
        × IsWholeTo (length tail.items) tail.items × (length tail.items ≡ 16)) }
{
    let mut tail = Vec::with_capacity(alloc, HEADER)?;
    tail.extend_from_slice(&MAGIC)?;
    tail.extend_from_slice(&first.to_le_bytes())?;
    Ok(tail)
}

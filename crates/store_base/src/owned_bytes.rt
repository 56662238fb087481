//! Bytes that clones and slices share.

ghost use Rattle.std.specs.Prelude.{◌≡◌, ◌≤◌, List, ℕ, length, IfOk, slice_range};

use crate::fault::NoMemory;
use crate::file_slice::HasLen;
use bytes::Bytes;
use std::alloc::{AllocError, Global};
use std::marker::Model;
use std::ops::Range;

/// Bytes that clones and slices share. They are freed when the last of these goes.
///
/// `new`, `slice` and `clone` copy no byte: each raises a count of owners. A slice of one byte keeps all of them.
#[derive(Drop)]
pub struct OwnedBytes {
    bytes: Bytes,
}

/// Clauses see the bytes.
impl Model for OwnedBytes {
    ghost Value = { List ℕ };

    ghost view = { λ b. b.bytes };
}

impl OwnedBytes {
    /// The bytes of a Vec, which stay where they are.
    pub fn new(_alloc: Global, bytes: Vec<u8>) -> Result<OwnedBytes, NoMemory>
        ensures { IfOk result (λ b. b ≡ bytes.items) }
    {
        Ok(OwnedBytes {
            bytes: Bytes::from_vec(bytes)?,
        })
    }

    pub fn as_slice(&self) -> &[u8]
        ensures { result.now ≡ self.now }
    {
        self.bytes.as_slice()
    }

    pub fn len(&self) -> usize
        ensures { result ≡ length self.now }
    {
        self.bytes.len()
    }

    /// The bytes of a range, which are shared.
    pub fn slice(&self, range: Range<usize>) -> Result<OwnedBytes, NoMemory>
        requires order { range.start ≤ range.end }
        requires within { range.end ≤ length self.now }
        ensures { IfOk result (λ b. b ≡ slice_range self.now range.start range.end) }
    {
        Ok(OwnedBytes {
            bytes: self.bytes.slice(range)?,
        })
    }
}

/// The same bytes, which are shared.
impl Clone for OwnedBytes {
    ghost is_clone = { λ b copy. copy ≡ b };

    fn clone(&self) -> Result<OwnedBytes, AllocError> {
        Ok(OwnedBytes {
            bytes: self.bytes.clone()?,
        })
    }
}

impl HasLen for OwnedBytes {
    ghost length_of = { λ b. length b };

    fn len(&self) -> u64 {
        OwnedBytes::len(self) as u64
    }
}

//! Numbers over what a workload did, which are the same where the same was done.
ghost use Rattle.std.specs.Prelude.{◌≤◌};

use crate::measure::Run;
use docstore::FOOTER_LEN;
use std::time::Duration;

const HASH_START: u64 = 14695981039346656037;

const HASH_FACTOR: u64 = 1099511628211;

// A footer begins with the version, and what is reserved stands at its end.
const VERSION_2: [u8; 4] = [2, 0, 0, 0];

const VERSION_LEN: usize = 4;

const RESERVED_LEN: usize = 15;

/// A check with one more number.
pub fn with_number(check: u64, number: u64) -> u64 {
    check.wrapping_mul(1000003).wrapping_add(number)
}

/// A check with one more slot: its length, its first byte and its last.
pub fn with_slot(check: u64, slot: &[u8]) -> u64 {
    let (first, last) = match slot {
        [] => (0, 0),
        [.., last] => (slot[0], *last),
    };
    with_number(check, slot.len() as u64)
        .wrapping_add(256 * u64::from(first))
        .wrapping_add(65536 * u64::from(last))
}

fn hash_from(start: u64, bytes: &[u8]) -> u64 {
    let mut hash = start;
    for byte in bytes {
        hash = (hash ^ u64::from(*byte)).wrapping_mul(HASH_FACTOR);
    }
    hash
}

/// The hash of bytes, FNV-1a of 64 bits.
pub fn hash(bytes: &[u8]) -> u64 {
    hash_from(HASH_START, bytes)
}

/// The hash of a file, with the footer that version 2 has in place of version 3's.
pub fn hash_as_version_2(file: &[u8]) -> u64 {
    let footer_len = FOOTER_LEN as usize;
    if file.len() < footer_len {
        return hash(file);
    }
    let (front, footer) = file.split_at(file.len() - footer_len);
    let kept = &footer[VERSION_LEN..footer_len - RESERVED_LEN];
    let hash = hash_from(hash_from(hash(front), &VERSION_2), kept);
    hash_from(hash, &[0; RESERVED_LEN])
}

/// A check over slots, how many there were, and how many bytes they had.
#[derive(Clone, Copy)]
pub struct Slots {
    pub check: u64,
    pub count: u64,
    pub bytes: u64,
}

impl Slots {
    /// No slot.
    pub fn new() -> Slots {
        Slots {
            check: 0,
            count: 0,
            bytes: 0,
        }
    }

    /// One more.
    pub fn add(&mut self, slot: &[u8]) {
        self.check = with_slot(self.check, slot);
        self.count = self.count.wrapping_add(1);
        self.bytes = self.bytes.wrapping_add(slot.len() as u64);
    }

    /// The repetition that did so, in this time.
    pub fn run(&self, time: Duration) -> Run {
        Run {
            time,
            count: self.count,
            bytes: self.bytes,
            check: self.check,
        }
    }
}

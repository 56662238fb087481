//! The numbers that the names of segments have.

ghost use Rattle.std.specs.Prelude.{◌≡◌, ◌≢◌, ◌≤◌, ◌<◌, ◌^◌, ◌+◌, ◌*◌, ◌++◌, ℕ, List, codes, length, IfSome, IfNone};
ghost use Rattle.segmented_log.specs.Names.{digits, segment_name};

// The number that decimal digits make, if all of these bytes are digits.
fn number_of(bytes: &[u8]) -> Option<u128>
    requires { length bytes.now ≤ 20 }
    ensures some { IfSome result (λ n. (bytes.now ≡ digits (length bytes.now) n) × (n < 10 ^ 20)) }
    ensures none { IfNone result ((n : ℕ) → bytes.now ≢ digits (length bytes.now) n) }
{
    let mut number: u128 = 0;
    for byte in bytes {
        if *byte < b'0' || *byte > b'9' {
            return None;
        }
        number = number * 10 + u128::from(*byte - b'0');
    }
    Some(number)
}

// What stands before the end of a segment's name, if the name has this end.
fn front_of(name: &[u8]) -> Option<&[u8]>
    ensures some { IfSome result (λ front. name.now ≡ front.now ++ codes ".store") }
    ensures none { IfNone result ((front : List ℕ) → name.now ≢ front ++ codes ".store") }
{
    name.strip_suffix(b".store")
}

/// The number of the first record of the segment that has this name, if it is a segment's.
#[tactic(auto, unfolding(crate::specs::Names::segment_name))]
pub fn segment_number(name: &str) -> Option<u64>
    ensures some { IfSome result (λ n. name.now ≡ segment_name n) }
    ensures fits { IfSome result (λ n. n < 2 ^ 64) }
    ensures none { IfNone result ((n : ℕ) → n < 2 ^ 64 → name.now ≢ segment_name n) }
{
    let bytes = name.as_bytes();
    let front = front_of(bytes)?;
    if front.len() != 20 {
        return None;
    }
    let number = number_of(front)?;
    if number > u128::from(u64::MAX) {
        return None;
    }
    Some(number as u64)
}

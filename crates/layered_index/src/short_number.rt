//! Numbers of a few bytes, read without a branch on how many bytes they have.
//!
//! If the numbers of documents of blocks vary around 128, or their lengths around 2^14, the processor can't foresee how
//! many bytes the next number has, and a wrong guess costs more than the number. If it can foresee that, a branch is
//! quicker.
ghost use Rattle.std.specs.Prelude.{◌≡◌, ◌+◌, ◌^◌, ◌<◌, Some, IfSome};
ghost use Rattle.std.specs.Option.{option_map};
ghost use Rattle.store_base.specs.VInt.{number_at, number_below};

use store_base::{GROUP, STOP_BIT, first_number};

// The number at the front and what follows it, where it has one byte or two of at least two.
#[inline(always)]
fn split_pair(bytes: &[u8]) -> Option<(u64, &[u8])>
    ensures read { IfSome result (λ x. number_at bytes.now ≡ Some (x.0, x.1.now)) }
    ensures small { IfSome result (λ x. x.0 < 2 ^ 14) }
{
    let [first, second, ..] = bytes else {
        return None;
    };
    let more = (*first < STOP_BIT) as usize;
    let last = bytes[more];
    if (last as usize) < STOP_BIT as usize + more {
        return None;
    }
    let high = GROUP * u64::from(*second % STOP_BIT);
    let value = u64::from(*first % STOP_BIT) + more as u64 * high;
    Some((value, &bytes[more + 1..]))
}

/// The number below 2^32 at the front and what follows it. Where numbers are uneven it is quickest if it has one byte
/// or two.
#[inline(always)]
pub(crate) fn first_count(uneven: bool, bytes: &[u8]) -> Option<(u64, &[u8])>
    ensures read { option_map (λ x. (x.0, x.1.now)) result ≡ number_below (2 ^ 32) bytes.now }
    ensures most { IfSome result (λ x. x.0 < 2 ^ 32) }
{
    if uneven {
        if let Some(found) = split_pair(bytes) {
            return Some(found);
        }
    }
    first_number(bytes, u64::from(u32::MAX))
}

// The number at the front and what follows it, where it has two bytes or three.
#[inline(always)]
fn split_longer(bytes: &[u8]) -> Option<(u64, &[u8])>
    ensures read { IfSome result (λ x. number_at bytes.now ≡ Some (x.0, x.1.now)) }
    ensures small { IfSome result (λ x. x.0 < 2 ^ 21) }
{
    match bytes {
        [first, rest @ ..] if *first < STOP_BIT => {
            let (high, rest) = split_pair(rest)?;
            if high == 0 {
                return None;
            }
            Some((u64::from(*first) + GROUP * high, rest))
        }
        _ => None,
    }
}

/// The number below 2^32 at the front and what follows it. Where numbers are uneven it is quickest if it has two bytes
/// or three.
#[inline(always)]
pub(crate) fn first_length(uneven: bool, bytes: &[u8]) -> Option<(u64, &[u8])>
    ensures read { option_map (λ x. (x.0, x.1.now)) result ≡ number_below (2 ^ 32) bytes.now }
    ensures most { IfSome result (λ x. x.0 < 2 ^ 32) }
{
    if uneven {
        if let Some(found) = split_longer(bytes) {
            return Some(found);
        }
    }
    first_number(bytes, u64::from(u32::MAX))
}

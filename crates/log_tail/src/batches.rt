//! Batches of records: how they are written, and how they are read after a crash.

ghost use Rattle.std.specs.Prelude.{◌≡◌, ◌≤◌, ◌<◌, ◌+◌, ◌^◌, ◌++◌, ◌∷◌, [], List, ℕ, true, false, length, drop, take};
ghost use Rattle.std.specs.Prelude.{IfOk, OnOk, OnErr, IfSome, IfNone, All, slice_range};
ghost use Rattle.log_tail.specs.Tail.{four_in, framed, sum_of, summed, has_whole, has_sum, has_batch};
ghost use Rattle.log_tail.specs.Tail.{records_in, records_of, bodies_after, IsWholeTo};
ghost use Rattle.log_tail.specs.Heads.{rest_after, rest_of};
ghost use Rattle.log_tail.specs.Place.{contents, EndsBy, AddsRecords};

use std::alloc::{AllocError, Global};
use std::hash::{DefaultHasher, Hasher};

/// How many bytes stand before the first batch.
pub const HEADER: usize = 16;

/// How many bytes a batch has before its body: the gate, the length and the sum.
pub const BATCH_HEADER: usize = 13;

/// How long a batch's body can be: its length and that of its sum are one number of 32 bits.
pub const MAX_BODY: usize = (1 << 32) - 1 - 8;

/// Where a record lies in a file.
#[derive(Clone, Copy, Debug, PartialEq, Eq)]
pub struct Place {
    pub start: usize,
    pub end: usize,
}

// The sum of a batch's body.
#[tactic(auto, unfolding(crate::specs::Tail::sum_of))]
fn sum_over(body: &[u8]) -> u64
    ensures { result ≡ sum_of body.now }
{
    let mut hasher = DefaultHasher::new();
    hasher.write(body);
    hasher.finish()
}

// The number of the first four bytes.
#[tactic(auto, unfolding(crate::specs::Tail::four_in))]
pub(crate) fn number_at(bytes: &[u8]) -> Option<u32>
    ensures some { IfSome result (λ n. (4 ≤ length bytes.now) × (n ≡ four_in bytes.now)) }
    ensures none { IfNone result (length bytes.now < 4) }
{
    let (front, _) = bytes.split_first_chunk::<4>()?;
    Some(u32::from_le_bytes(*front))
}

// How long the item at the front is, if all of it is there.
fn whole_length(bytes: &[u8]) -> Option<usize>
    ensures some { IfSome result
        (λ n. (has_whole bytes.now ≡ true) × (n ≡ four_in bytes.now) × (4 + n ≤ length bytes.now)) }
    ensures none { IfNone result (has_whole bytes.now ≡ false) }
{
    let len = number_at(bytes)? as usize;
    if len <= bytes.len() - 4 {
        Some(len)
    } else {
        None
    }
}

// Whether an item begins with the sum of its other bytes.
#[tactic(auto, unfolding(crate::specs::Tail::eight_in))]
fn is_summed(item: &[u8]) -> bool
    ensures { result ≡ has_sum item.now }
{
    match item.split_first_chunk::<8>() {
        Some((sum, body)) => u64::from_le_bytes(*sum) == sum_over(body),
        None => false,
    }
}

// How long the item of the batch at the front is, after its length, if a batch is there.
fn batch_length(bytes: &[u8]) -> Option<usize>
    ensures some { IfSome result
        (λ n. (has_batch bytes.now ≡ true) × (n ≡ four_in bytes.now) × (8 ≤ n) × (4 + n ≤ length bytes.now)) }
    ensures none { IfNone result (has_batch bytes.now ≡ false) }
{
    let len = whole_length(bytes)?;
    if is_summed(&bytes[4..4 + len]) {
        Some(len)
    } else {
        None
    }
}

// The same of a batch after its gate, if the gate is open.
pub(crate) fn open_length(bytes: &[u8]) -> Option<usize>
    ensures some { IfSome result (λ n. (more : List ℕ) × (bytes.now ≡ 1 ∷ more) × (has_batch more ≡ true)
        × (n ≡ four_in more) × (8 ≤ n) × (5 + n ≤ length bytes.now)) }
    ensures none { IfNone result (bodies_after 0 bytes.now ≡ []) }
    ensures rest { IfNone result (rest_after 0 bytes.now ≡ bytes.now) }
{
    match bytes {
        [1, rest @ ..] => batch_length(rest),
        _ => None,
    }
}

/// Adds the places of the records of a body, which lies at this place of a file.
pub(crate) fn place_records(
    body: &[u8],
    base: usize,
    places: &mut Vec<Place>,
) -> Result<(), AllocError>
    requires { base + length body.now < 2 ^ 64 }
    ensures records { OnOk result (AddsRecords body.now base places.old.items places.new.items) }
    ensures within { OnOk result
        (All (EndsBy base) places.old.items → All (EndsBy (base + length body.now)) places.new.items) }
{
    let mut rest = body;
    let mut at = base;
    while let Some(len) = whole_length(rest) {
        places.push(Place {
            start: at + 4,
            end: at + 4 + len,
        })?;
        at += 4 + len;
        rest = &rest[4 + len..];
    }
    Ok(())
}

/// What was found in a tail: its records, and where its whole batches end.
#[derive(Debug, Drop)]
pub struct Found {
    pub places: Vec<Place>,
    pub end: usize,
}

/// Reads the batches of a tail.
pub fn find_records(alloc: Global, bytes: &[u8]) -> Result<Found, AllocError>
    requires { 16 ≤ length bytes.now }
    ensures whole { IfOk result (λ found. IsWholeTo found.end bytes.now) }
    ensures records { IfOk result (λ found. contents bytes.now found.places.items ≡ records_of bytes.now) }
    ensures within { IfOk result (λ found. All (EndsBy found.end) found.places.items) }
    ensures rest { IfOk result (λ found. drop found.end bytes.now ≡ rest_of bytes.now) }
{
    let mut places = Vec::new(alloc);
    let mut end = HEADER;
    while let Some(len) = open_length(&bytes[end..]) {
        place_records(
            &bytes[end + BATCH_HEADER..end + 5 + len],
            end + BATCH_HEADER,
            &mut places,
        )?;
        end += 5 + len;
    }
    Ok(Found { places, end })
}

/// What stands before the body of a batch: its open gate, its length and its sum.
pub fn batch_header(body: &[u8]) -> [u8; BATCH_HEADER]
    requires { 8 + length body.now < 2 ^ 32 }
    ensures header { result ++ body.now ≡ 1 ∷ summed body.now }
    ensures fits { sum_of body.now < 2 ^ 64 }
{
    let len = (8 + body.len() as u32).to_le_bytes();
    let sum = sum_over(body).to_le_bytes();
    [
        1, len[0], len[1], len[2], len[3], sum[0], sum[1], sum[2], sum[3], sum[4], sum[5], sum[6],
        sum[7],
    ]
}

// Writes a record after others of a body. An error may leave bytes after them.
#[tactic(auto, unfolding(crate::specs::Tail::four))]
fn write_record(body: &mut Vec<u8>, bytes: &[u8]) -> Result<(), AllocError>
    requires { length bytes.now < 2 ^ 32 }
    ensures added { OnOk result (body.new.items ≡ body.old.items ++ framed bytes.now) }
    ensures kept { take (length body.old.items) body.new.items ≡ body.old.items }
{
    body.extend_from_slice(&(bytes.len() as u32).to_le_bytes())?;
    body.extend_from_slice(bytes)?;
    Ok(())
}

/// Puts a record after others of a body. An error leaves the body as it was.
#[inline]
pub fn add_record(body: &mut Vec<u8>, bytes: &[u8]) -> Result<(), AllocError>
    requires { length bytes.now < 2 ^ 32 }
    ensures added { OnOk result (body.new.items ≡ body.old.items ++ framed bytes.now) }
    ensures kept { OnErr result (body.new.items ≡ body.old.items) }
{
    let len = body.len();
    let written = write_record(body, bytes);
    if written.is_err() {
        body.truncate(len);
    }
    written
}

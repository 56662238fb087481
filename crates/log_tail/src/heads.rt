//! Heads of batches. A head is a batch of no records before each batch, and tells how long that batch is.

ghost use Rattle.std.specs.Prelude.{◌≡◌, ◌<◌, ◌≤◌, ◌+◌, ◌++◌, ◌^◌, IfSome, length, take, drop};
ghost use Rattle.log_tail.specs.Tail.{sum_of, first_of};
ghost use Rattle.log_tail.specs.Heads.{head_body, headed, told_by, told_at, has_head_after};
ghost use Rattle.log_tail.specs.Heads.{body_length, is_followed_at, is_followed, rest_of};
ghost use Rattle.log_tail.specs.Heads.{has_head_form, is_misnumbered, is_damaged};

use crate::batches::{BATCH_HEADER, HEADER, batch_header, number_at, open_length};

/// How long the body of a head is.
pub const HEAD_BODY: usize = 24;

/// How long a head is.
pub const HEAD: usize = BATCH_HEADER + HEAD_BODY;

/// How many bytes stand before the body of a batch: the head, and the batch's gate, length and sum.
pub const HEADERS: usize = HEAD + BATCH_HEADER;

/// The body of the head at this place of a tail whose first record has this number. It tells the length of the body of
/// the next batch.
pub fn head_body(first: u64, place: usize, len: u32) -> [u8; HEAD_BODY]
    ensures { result ≡ head_body first place len }
{
    let first = first.to_le_bytes();
    let place = (place as u64).to_le_bytes();
    let len = len.to_le_bytes();
    [
        255, 255, 255, 255, first[0], first[1], first[2], first[3], first[4], first[5], first[6],
        first[7], place[0], place[1], place[2], place[3], place[4], place[5], place[6], place[7],
        len[0], len[1], len[2], len[3],
    ]
}

// Puts these bytes in place of those at a place.
fn put_at(bytes: &mut [u8], at: usize, part: &[u8])
    requires { at + length part.now ≤ length bytes.old }
    ensures { bytes.new ≡ take at bytes.old ++ (part.now ++ drop (at + length part.now) bytes.old) }
{
    bytes[at..at + part.len()].copy_from_slice(part);
}

/// What stands before the body of a batch at this place of a tail whose first record has this number: its head, and the
/// batch's gate, length and sum.
pub fn headers(first: u64, place: usize, body: &[u8]) -> [u8; HEADERS]
    requires { 8 + length body.now < 2 ^ 32 }
    ensures headers { result ++ body.now ≡ headed first place body.now }
    ensures fits { sum_of body.now < 2 ^ 64 }
    ensures head_fits { sum_of (head_body first place (length body.now)) < 2 ^ 64 }
{
    let head = head_body(first, place, body.len() as u32);
    let mut headers = [0; HEADERS];
    put_at(&mut headers, 0, &batch_header(&head));
    put_at(&mut headers, BATCH_HEADER, &head);
    put_at(&mut headers, HEAD, &batch_header(body));
    headers
}

// The length that the body of a head tells, if it is one of this place.
fn told_by(first: u64, place: usize, body: &[u8]) -> Option<usize>
    ensures value { result ≡ told_by first place body.now }
    ensures small { IfSome result (λ n. n < 2 ^ 32) }
{
    if body.len() != HEAD_BODY {
        return None;
    }
    let told = number_at(&body[20..])?;
    if body != head_body(first, place, told).as_slice() {
        return None;
    }
    Some(told as usize)
}

// The length that a head tells that stands at the front of these bytes, which lie at this place.
fn told_at(first: u64, place: usize, bytes: &[u8]) -> Option<usize>
    ensures value { result ≡ told_at first place bytes.now }
    ensures small { IfSome result (λ n. n < 2 ^ 32) }
{
    let len = open_length(bytes)?;
    told_by(first, place, &bytes[BATCH_HEADER..5 + len])
}

// The bytes from this place on; no bytes where they end before it.
fn bytes_from(bytes: &[u8], place: usize) -> &[u8]
    ensures { result.now ≡ drop place bytes.now }
{
    &bytes[place.min(bytes.len())..]
}

// Whether a head stands where a batch of this length ends that begins at this place.
fn has_head_after(bytes: &[u8], first: u64, place: usize, len: Option<usize>) -> bool
    requires first { first ≡ first_of bytes.now }
    requires fits { IfSome len (λ n. place + 13 + n < 2 ^ 64) }
    requires place { place + 13 < 2 ^ 64 }
    ensures { result ≡ has_head_after bytes.now place len }
{
    let Some(len) = len else {
        return false;
    };
    let next = place + BATCH_HEADER + len;
    told_at(first, next, bytes_from(bytes, next)).is_some()
}

// The length of the body of the batch at the front, if one is there.
fn body_length(bytes: &[u8]) -> Option<usize>
    ensures value { result ≡ body_length bytes.now }
    ensures within { IfSome result (λ n. 13 + n ≤ length bytes.now) }
{
    let len = open_length(bytes)?;
    Some(len - 8)
}

// Whether another batch follows the one at this place, which is not whole.
fn is_followed_at(bytes: &[u8], first: u64, end: usize) -> bool
    requires first { first ≡ first_of bytes.now }
    requires within { end ≤ length bytes.now }
    ensures { result ≡ is_followed_at end bytes.now }
{
    if end >= HEADER + HEAD {
        let place = end - HEAD;
        let told = told_at(first, place, bytes_from(bytes, place));
        if has_head_after(bytes, first, end, told) {
            return true;
        }
    }
    let next = end + HEAD;
    has_head_after(bytes, first, next, body_length(bytes_from(bytes, next)))
}

// Whether another batch follows the one at this place, where the whole batches of a tail end. Each batch is written
// once the one before it is on the disk. So the one at the place was, and its bytes have changed.
fn is_followed(bytes: &[u8], first: u64, end: usize) -> bool
    requires first { first ≡ first_of bytes.now }
    requires within { end ≤ length bytes.now }
    requires rest { drop end bytes.now ≡ rest_of bytes.now }
    ensures { result ≡ is_followed bytes.now }
{
    is_followed_at(bytes, first, end)
}

// Whether a batch of the form of a head stands at the front, of whatever number and place.
fn has_head_form(bytes: &[u8]) -> bool
    ensures { result ≡ has_head_form bytes.now }
{
    match body_length(bytes) {
        Some(HEAD_BODY) => number_at(&bytes[BATCH_HEADER..]) == Some(u32::MAX),
        _ => false,
    }
}

// Whether the first head does not name the number of a tail's first record.
fn is_misnumbered(bytes: &[u8], first: u64) -> bool
    requires first { first ≡ first_of bytes.now }
    ensures { result ≡ is_misnumbered bytes.now }
{
    let batches = bytes_from(bytes, HEADER);
    has_head_form(batches) && told_at(first, HEADER, batches).is_none()
}

/// Whether bytes of a tail have changed that were written whole: another batch follows the one at this place, where the
/// whole batches end, or the first head does not name the number of the first record.
pub fn is_damaged(bytes: &[u8], first: u64, end: usize) -> bool
    requires first { first ≡ first_of bytes.now }
    requires within { end ≤ length bytes.now }
    requires rest { drop end bytes.now ≡ rest_of bytes.now }
    ensures { result ≡ is_damaged bytes.now }
{
    is_followed(bytes, first, end) || is_misnumbered(bytes, first)
}

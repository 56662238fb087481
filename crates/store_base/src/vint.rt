//! Numbers in groups of seven bits, the lowest group first. The last byte alone has 128 added.
//!
//! Each number has one spelling: 0 is `80`, 127 is `ff`, 128 is `00 81`, 300 is `2c 82`. A last group of zero after
//! another group is no spelling.

ghost use Rattle.std.specs.Prelude.{◌≡◌, ◌+◌, ◌^◌, ◌<◌, ◌≤◌, ◌++◌, ◌↔◌, take, Some, None, IsTrue, OnOk, OnErr, IfOk};
ghost use Rattle.std.specs.Prelude.{IfSome, vec_capacity};
ghost use Rattle.std.specs.Option.{option_map};
ghost use Rattle.std.specs.Result.{result_ok};
ghost use Rattle.store_base.specs.VInt.{number, number_below};
ghost use Rattle.store_base.specs.Documents.{BeginsWith};
ghost use Rattle.store_base.specs.Reading.{IsBelow, IsCutShort, Reads, ReadsPart, seen_by};

use crate::counting_writer::TerminatingWrite;
use crate::fault::{DecodeFault, NoMemory, WriteFault};
use crate::serialize::BinarySerializable;
use std::alloc::Global;

/// What the last byte of a number has added.
pub const STOP_BIT: u8 = 128;

/// How many values a group of seven bits has: the bit above them is the one that the last byte has added.
pub const GROUP: u64 = STOP_BIT as u64;

/// A number below 2^64 whose bytes are its groups of seven bits.
#[derive(Clone, Copy, Debug, PartialEq, Eq)]
pub struct VInt(pub u64);

// The number at the front and what follows it, where it has at most three bytes.
//
// Most numbers of an index have, and this is read without a loop.
#[inline(always)]
fn split_short(bytes: &[u8]) -> Option<(u64, &[u8])>
    ensures { IfSome result (λ x. number_below (2 ^ 64) bytes.now ≡ Some (x.0, x.1.now)) }
{
    match bytes {
        [last, rest @ ..] if *last >= STOP_BIT => Some((u64::from(*last - STOP_BIT), rest)),
        [low, last, rest @ ..] if *last > STOP_BIT => {
            Some((u64::from(*low) + GROUP * u64::from(*last - STOP_BIT), rest))
        }
        [low, middle, last, rest @ ..] if *middle < STOP_BIT && *last > STOP_BIT => {
            let high = u64::from(*middle) + GROUP * u64::from(*last - STOP_BIT);
            Some((u64::from(*low) + GROUP * high, rest))
        }
        _ => None,
    }
}

// The number below 2^64 at the front, and what follows it.
#[inline(never)]
fn split_number(bytes: &[u8]) -> Option<(u64, &[u8])>
    ensures { option_map (λ x. (x.0, x.1.now)) result ≡ number_below (2 ^ 64) bytes.now }
{
    let mut value: u64 = 0;
    let mut scale: u64 = 1;
    for (i, b) in bytes.iter().enumerate() {
        if *b >= STOP_BIT {
            let high = u64::from(*b - STOP_BIT);
            if high == 0 && i > 0 {
                return None;
            }
            let number = high.checked_mul(scale)?.checked_add(value)?;
            return Some((number, &bytes[i + 1..]));
        }
        if i == 9 {
            return None;
        }
        value += u64::from(*b) * scale;
        scale *= GROUP;
    }
    None
}

// The same as `first_number`, by the loop.
//
// It is a function of its own, so that the place for the loop's result is made ready only where the loop is needed.
#[inline(always)]
fn looped_number(bytes: &[u8], most: u64) -> Option<(u64, &[u8])>
    ensures read { option_map (λ x. (x.0, x.1.now)) result ≡ number_below (most + 1) bytes.now }
    ensures most { IfSome result (λ x. x.0 ≤ most) }
{
    let (value, rest) = split_number(bytes)?;
    if value > most {
        return None;
    }
    Some((value, rest))
}

/// The number up to `most` at the front of the bytes, and what follows it.
///
/// `None` where no front of them is the one spelling of such a number. It takes no memory, so readers that
/// hold borrowed bytes go by it.
#[inline(always)]
pub fn first_number(bytes: &[u8], most: u64) -> Option<(u64, &[u8])>
    ensures read { option_map (λ x. (x.0, x.1.now)) result ≡ number_below (most + 1) bytes.now }
    ensures most { IfSome result (λ x. x.0 ≤ most) }
{
    let Some((value, rest)) = split_short(bytes) else {
        return looped_number(bytes, most);
    };
    if value > most {
        return None;
    }
    Some((value, rest))
}

// Whether the bytes are a proper beginning of a number up to `most`.
fn begins_number(bytes: &[u8], most: u64) -> bool
    ensures { IsTrue result ↔ IsCutShort (IsBelow (most + 1)) number bytes.now }
{
    match bytes {
        [] => true,
        [first, rest @ ..] => {
            let first = u64::from(*first);
            if first >= GROUP || most < first + GROUP {
                return false;
            }
            begins_number(rest, (most - first) / GROUP)
        }
    }
}

// The number up to `most` at the front and what follows it, or why there is none.
pub(crate) fn read_number(bytes: &[u8], most: u64) -> Result<(u64, &[u8]), DecodeFault>
    ensures text { ReadsPart (IsBelow (most + 1)) number bytes.now (seen_by (λ x. (x.0, x.1.now)) result) }
    ensures value { result_ok (seen_by (λ x. (x.0, x.1.now)) result) ≡ number_below (most + 1) bytes.now }
    ensures most { IfOk result (λ x. x.0 ≤ most) }
{
    if let Some((value, rest)) = first_number(bytes, most) {
        return Ok((value, rest));
    }
    if begins_number(bytes, most) {
        Err(DecodeFault::Short)
    } else {
        Err(DecodeFault::Malformed)
    }
}

/// Reads a number below 2^32 from the front of the bytes, and moves past it. A refusal leaves the input.
///
/// `Short` where the bytes are a proper beginning of such a number, `Malformed` where they begin another spelling
/// or a number past the type.
pub fn read_u32_vint(bytes: &mut &[u8]) -> Result<u32, DecodeFault>
    ensures text { Reads (IsBelow (2 ^ 32)) number bytes.old.now result bytes.new.now }
    ensures found { IfOk result (λ n. number_below (2 ^ 32) bytes.old.now ≡ Some (n, bytes.new.now)) }
    ensures none { OnErr result (number_below (2 ^ 32) bytes.old.now ≡ None) }
{
    let (value, rest) = read_number(*bytes, u64::from(u32::MAX))?;
    *bytes = rest;
    Ok(value as u32)
}

// The bytes of the number, at the front of the array, and how many there are.
fn groups(n: u64) -> ([u8; 10], usize)
    ensures len { result.1 ≤ 10 }
    ensures bytes { take result.1 result.0 ≡ number n }
{
    let mut bytes = [0u8; 10];
    let mut len = 0;
    let mut rest = n;
    while rest >= GROUP {
        bytes[len] = (rest % GROUP) as u8;
        len += 1;
        rest /= GROUP;
    }
    bytes[len] = rest as u8 + STOP_BIT;
    (bytes, len + 1)
}

impl VInt {
    /// Appends the number's bytes. `NoMemory` leaves the Vec as it was; its capacity never falls.
    pub fn serialize_into_vec(&self, output: &mut Vec<u8>) -> Result<(), NoMemory>
        ensures ok { OnOk result (output.new.items ≡ output.old.items ++ number self.now.0) }
        ensures err { OnErr result (output.new.items ≡ output.old.items) }
        ensures capacity { vec_capacity output.old ≤ vec_capacity output.new }
    {
        let (bytes, len) = groups(self.0);
        output.extend_from_slice(&bytes[..len])?;
        Ok(())
    }
}

impl BinarySerializable for VInt {
    ghost use Rattle.store_base.specs.ReadLemmas.{IsVInt, vint_bytes, reads_keep, vint_reads_back};

    ghost is_value = { IsVInt };

    ghost encoding = { vint_bytes };

    ghost reads = { Reads IsVInt vint_bytes };

    ghost keeps = { reads_keep IsVInt vint_bytes };

    ghost read_back = { vint_reads_back };

    fn serialize<W: TerminatingWrite>(&self, output: &mut W) -> Result<(), WriteFault> {
        let (bytes, len) = groups(self.0);
        output.write_all(&bytes[..len])
    }

    fn deserialize(_alloc: Global, bytes: &mut &[u8]) -> Result<VInt, DecodeFault> {
        let (value, rest) = read_number(*bytes, u64::MAX)?;
        *bytes = rest;
        Ok(VInt(value))
    }
}

//! Values that are kept as bytes.
//!
//! Fixed numbers are little-endian. A list of numbers is their count and then each, as [`VInt`](crate::VInt)s.

ghost use Rattle.std.specs.Prelude.{◌≡◌, ◌≤◌, ◌<◌, ◌+◌, ◌^◌, ◌++◌, ℕ, List, Result, Ok, Err, length, take, drop};
ghost use Rattle.std.specs.Prelude.{get_or, IsOk, IfOk, IfErr, OnOk, OnErr};
ghost use Rattle.store_base.specs.Counts.{HasRisen};
ghost use Rattle.store_base.specs.Serialize.{fixed};
ghost use Rattle.store_base.specs.Reading.{IsBelow, Reads};

use crate::counting_writer::TerminatingWrite;
use crate::fault::{DecodeFault, WriteFault};
use crate::vint::{VInt, read_number};
use std::alloc::Global;

/// A value that is written as bytes and read back from the front of bytes.
pub trait BinarySerializable: Drop {
    ghost use Rattle.store_base.specs.declared.fault.DecodeFault.{DecodeFault};
    ghost use Rattle.store_base.specs.Reading.{IsReadBack};

    /// Holds of the values that a program can have.
    ghost is_value: { Self → Type 0 };

    /// The value's bytes.
    ghost encoding: { Self → List ℕ };

    /// Reading these bytes may return this, and leave these bytes.
    ghost reads: { List ℕ → Result Self DecodeFault → List ℕ → Type 0 };

    /// Writes the value's bytes at the end of the output.
    fn serialize<W: TerminatingWrite>(&self, output: &mut W) -> Result<(), WriteFault>
        ensures ok { OnOk result (W.content output.new ≡ W.content output.old ++ encoding self.now) }
        ensures termination { W.termination output.new ≡ W.termination output.old }
        ensures count { W.failures output.old ≤ W.failures output.new }
        ensures fault { OnErr result (HasRisen (W.failures output.old) (W.failures output.new)) }

        // So what was written is read again.
        ensures value { OnOk result (is_value self.now) };

    /// Reads a value from the front of the bytes, and moves past it. A refusal leaves the input.
    fn deserialize(alloc: Global, bytes: &mut &[u8]) -> Result<Self, DecodeFault>
        ensures { reads bytes.old.now result bytes.new.now };

    /// A refusal leaves the input.
    ghost keeps: { (old : List ℕ) (e : DecodeFault) (new : List ℕ) → reads old (Err e) new → new ≡ old };

    /// What was written is read again, whatever follows it, memory aside.
    ghost read_back: { (x : Self) (rest : List ℕ) (outcome : Result Self DecodeFault) (new : List ℕ) → is_value x
        → reads (encoding x ++ rest) outcome new → IsReadBack encoding x rest outcome new };
}

/// A value that always has the same number of bytes.
pub trait FixedSize: BinarySerializable {
    ghost SIZE_IN_BYTES: { ℕ };

    /// How many bytes the value has.
    const SIZE_IN_BYTES: usize;

    /// Each value has as many.
    ghost sized: { (x : Self) → length (Self.encoding x) ≡ SIZE_IN_BYTES };
}

// ---- numbers of a fixed number of bytes

// The first N bytes, and what follows them.
fn split_front<const N: usize>(bytes: &[u8]) -> Result<([u8; N], &[u8]), DecodeFault>
    ensures enough { OnOk result (N ≤ length bytes.now) }
    ensures front { IfOk result (λ x. x.0 ≡ take N bytes.now) }
    ensures rest { IfOk result (λ x. x.1.now ≡ drop N bytes.now) }
    ensures short { OnErr result (length bytes.now < N) }
    ensures cause { IfErr result (λ e. e ≡ DecodeFault.Short) }
    ensures octets { (i : ℕ) → get_or bytes.now i 0 < 256 }
{
    let (front, rest) = bytes.split_first_chunk::<N>().ok_or(DecodeFault::Short)?;
    Ok((*front, rest))
}

impl BinarySerializable for u8 {
    ghost use Rattle.store_base.specs.ReadLemmas.{reads_keep, fixed_reads_back};

    ghost is_value = { IsBelow (2 ^ 8) };

    ghost encoding = { fixed 1 };

    ghost reads = { Reads (IsBelow (2 ^ 8)) (fixed 1) };

    ghost keeps = { reads_keep (IsBelow (2 ^ 8)) (fixed 1) };

    ghost read_back = { fixed_reads_back 1 };

    #[tactic(auto, unfolding(crate::specs::Serialize::fixed))]
    fn serialize<W: TerminatingWrite>(&self, output: &mut W) -> Result<(), WriteFault> {
        output.write_all(&u8::to_le_bytes(*self))
    }

    fn deserialize(_alloc: Global, bytes: &mut &[u8]) -> Result<u8, DecodeFault>
        ensures reads { Reads (IsBelow (2 ^ 8)) (fixed 1) bytes.old.now result bytes.new.now }
        ensures enough { 1 ≤ length bytes.old.now → IsOk result }
        ensures taken { OnOk result (1 + length bytes.new.now ≡ length bytes.old.now) }
    {
        let (front, rest) = split_front(*bytes)?;
        *bytes = rest;
        Ok(u8::from_le_bytes(front))
    }
}

impl FixedSize for u8 {
    ghost use Rattle.store_base.specs.SerializeLemmas.{length-fixed};

    ghost SIZE_IN_BYTES = { 1 };

    const SIZE_IN_BYTES: usize = 1;

    ghost sized = { length-fixed 1 };
}

impl BinarySerializable for u32 {
    ghost use Rattle.store_base.specs.ReadLemmas.{reads_keep, fixed_reads_back};

    ghost is_value = { IsBelow (2 ^ 32) };

    ghost encoding = { fixed 4 };

    ghost reads = { Reads (IsBelow (2 ^ 32)) (fixed 4) };

    ghost keeps = { reads_keep (IsBelow (2 ^ 32)) (fixed 4) };

    ghost read_back = { fixed_reads_back 4 };

    #[tactic(auto, unfolding(crate::specs::Serialize::fixed))]
    fn serialize<W: TerminatingWrite>(&self, output: &mut W) -> Result<(), WriteFault> {
        output.write_all(&u32::to_le_bytes(*self))
    }

    fn deserialize(_alloc: Global, bytes: &mut &[u8]) -> Result<u32, DecodeFault>
        ensures reads { Reads (IsBelow (2 ^ 32)) (fixed 4) bytes.old.now result bytes.new.now }
        ensures enough { 4 ≤ length bytes.old.now → IsOk result }
        ensures taken { OnOk result (4 + length bytes.new.now ≡ length bytes.old.now) }
    {
        let (front, rest) = split_front(*bytes)?;
        *bytes = rest;
        Ok(u32::from_le_bytes(front))
    }
}

impl FixedSize for u32 {
    ghost use Rattle.store_base.specs.SerializeLemmas.{length-fixed};

    ghost SIZE_IN_BYTES = { 4 };

    const SIZE_IN_BYTES: usize = 4;

    ghost sized = { length-fixed 4 };
}

impl BinarySerializable for u64 {
    ghost use Rattle.store_base.specs.ReadLemmas.{reads_keep, fixed_reads_back};

    ghost is_value = { IsBelow (2 ^ 64) };

    ghost encoding = { fixed 8 };

    ghost reads = { Reads (IsBelow (2 ^ 64)) (fixed 8) };

    ghost keeps = { reads_keep (IsBelow (2 ^ 64)) (fixed 8) };

    ghost read_back = { fixed_reads_back 8 };

    #[tactic(auto, unfolding(crate::specs::Serialize::fixed))]
    fn serialize<W: TerminatingWrite>(&self, output: &mut W) -> Result<(), WriteFault> {
        output.write_all(&u64::to_le_bytes(*self))
    }

    fn deserialize(_alloc: Global, bytes: &mut &[u8]) -> Result<u64, DecodeFault>
        ensures reads { Reads (IsBelow (2 ^ 64)) (fixed 8) bytes.old.now result bytes.new.now }
        ensures enough { 8 ≤ length bytes.old.now → IsOk result }
        ensures taken { OnOk result (8 + length bytes.new.now ≡ length bytes.old.now) }
    {
        let (front, rest) = split_front(*bytes)?;
        *bytes = rest;
        Ok(u64::from_le_bytes(front))
    }
}

impl FixedSize for u64 {
    ghost use Rattle.store_base.specs.SerializeLemmas.{length-fixed};

    ghost SIZE_IN_BYTES = { 8 };

    const SIZE_IN_BYTES: usize = 8;

    ghost sized = { length-fixed 8 };
}

// ---- lists of numbers

impl BinarySerializable for Vec<VInt> {
    ghost use Rattle.store_base.specs.Numbers.{ReadsNumbers};
    ghost use Rattle.store_base.specs.NumbersLemmas.{IsVec, vec_bytes, numbers_keep, numbers_read_back};

    ghost is_value = { IsVec };

    ghost encoding = { vec_bytes };

    ghost reads = { ReadsNumbers };

    ghost keeps = { numbers_keep };

    ghost read_back = { numbers_read_back };

    fn serialize<W: TerminatingWrite>(&self, output: &mut W) -> Result<(), WriteFault> {
        VInt(self.len() as u64).serialize(output)?;
        for value in self {
            value.serialize(output)?;
        }
        Ok(())
    }

    /// The count is compared with the bytes that remain before anything grows: each number takes a byte.
    fn deserialize(alloc: Global, bytes: &mut &[u8]) -> Result<Vec<VInt>, DecodeFault> {
        let (count, mut rest) = read_number(*bytes, u64::MAX)?;
        if (rest.len() as u64) < count {
            return Err(DecodeFault::Short);
        }
        let mut values = Vec::with_capacity(alloc, count as usize)?;
        for _ in 0..count {
            let (value, after) = read_number(rest, u64::MAX)?;
            values.push(VInt(value))?;
            rest = after;
        }
        *bytes = rest;
        Ok(values)
    }
}

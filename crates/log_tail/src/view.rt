//! A tail that is read where its bytes lie. Nothing is repaired.

ghost use Rattle.std.specs.Prelude.{◌≡◌, length, IfOk, IfSome, IfNone, option_map};
ghost use Rattle.log_tail.specs.Tail.{records_of, first_of, IsTail, IsWholeTo};
ghost use Rattle.log_tail.specs.Heads.{is_damaged};
ghost use Rattle.log_tail.specs.View.{record_at};

use crate::batches::{Place, find_records};
use crate::heads::is_damaged;
use crate::tail::first_number;
use std::alloc::{AllocError, Global};
use std::marker::Model;

/// The records of a tail whose bytes are in memory, as an opening finds them. It changes nothing, so it serves to look
/// at a log that another process writes, or whose bytes are damaged.
#[derive(Drop)]
pub struct TailView<'a> {
    bytes: &'a [u8],
    first: u64,
    // Where the whole batches end.
    end: usize,
    // Where the records lie.
    places: Vec<Place>,
}

/// Clauses see the bytes, and where the whole batches end.
impl<'a> Model for TailView<'a> {
    ghost use Rattle.log_tail.specs.View.{ViewedTail, IsViewed};

    ghost Value = { ViewedTail };

    ghost view = { λ v. record { bytes = v.bytes.now; end = v.end } };

    ghost invariant = { λ v. IsViewed v.bytes.now v.end v.places.items v.first };
}

impl<'a> TailView<'a> {
    /// Finds the records of these bytes, or returns `None` where they are no tail.
    pub fn new(alloc: Global, bytes: &'a [u8]) -> Result<Option<TailView<'a>>, AllocError>
        ensures bytes { IfOk result (λ found. IfSome found (λ view. view.bytes ≡ bytes.entry.now)) }
        ensures tail { IfOk result (λ found. IfSome found (λ _. IsTail bytes.entry.now)) }
        ensures none { IfOk result (λ found. IfNone found (IsTail bytes.entry.now → ⊥)) }
    {
        let Some(first) = first_number(bytes) else {
            return Ok(None);
        };
        let found = find_records(alloc, bytes)?;
        Ok(Some(TailView {
            bytes,
            first,
            end: found.end,
            places: found.places,
        }))
    }

    /// The bytes of the record of this number, if the tail has it.
    pub fn get(&self, number: u64) -> Option<&'a [u8]>
        ensures { option_map (λ bytes. bytes.now) result
            ≡ record_at (first_of self.now.bytes) (records_of self.now.bytes) number }
    {
        if number < self.first || number - self.first >= self.places.len() as u64 {
            return None;
        }
        let place = self.places[(number - self.first) as usize];
        Some(&self.bytes[place.start..place.end])
    }

    /// The number of the first record.
    pub fn first(&self) -> u64
        ensures { result ≡ first_of self.now.bytes }
    {
        self.first
    }

    /// How many records the tail has.
    pub fn len(&self) -> usize
        ensures { result ≡ length (records_of self.now.bytes) }
    {
        self.places.len()
    }

    /// How many bytes the header and the whole batches take. What follows is what a crash left.
    pub fn whole_len(&self) -> usize
        ensures value { result ≡ self.now.end }
        ensures whole { IsWholeTo result self.now.bytes }
    {
        self.end
    }

    /// Whether bytes that were written whole have changed. Where another batch follows those that are not whole, the
    /// records from there on are not given; else the first head does not name the number of the first record.
    pub fn is_damaged(&self) -> bool
        ensures { result ≡ is_damaged self.now.bytes }
    {
        is_damaged(self.bytes, self.first, self.end)
    }
}

//! The bytes of a tail in memory, and the batch that waits after them.

ghost use Rattle.std.specs.Prelude.{◌≡◌, ◌⊎◌, ◌≤◌, ◌<◌, ◌+◌, ◌-◌, ◌^◌, ◌++◌, ◌∷◌, [], length, take, drop, map, All};
ghost use Rattle.std.specs.Prelude.{OnOk, OnErr};
ghost use Rattle.log_tail.specs.Place.{EndsBy, AddsRecords};
ghost use Rattle.log_tail.specs.Tail.{framed, sum_of};
ghost use Rattle.log_tail.specs.Heads.{head_body, headed};
ghost use Rattle.segmented_log.specs.TailBuffer.{moved};

use log_tail::batches::{Place, add_record};
use log_tail::heads::{HEADERS, headers};
use std::alloc::{AllocError, Global};
use std::marker::Model;

/// A tail, and after it in the same memory the batch that the next sync writes: so a record is copied once.
#[derive(Drop)]
pub(crate) struct TailBuffer {
    // The tail; then, once a record waits, room for the header of the batch, and its body.
    bytes: Vec<u8>,
    // Where the tail ends.
    end: usize,
    // Where the records of the batch lie in its body. `add_record` knows their lengths, so no sync reads them again.
    places: Vec<Place>,
}

/// Clauses see the tail's bytes, and the body of the batch.
impl Model for TailBuffer {
    ghost use Rattle.std.specs.Prelude.{◌≡◌, ◌⊎◌, ◌≤◌, ◌+◌, length, take, drop};
    ghost use Rattle.segmented_log.specs.TailBuffer.{TailView, ArePlacesIn};

    ghost Value = { TailView };

    ghost view = { λ t. record {
      bytes = take t.end t.bytes.items;
      pending = drop (t.end + 50) t.bytes.items;
    } };

    ghost invariant = { λ t. ((length t.bytes.items ≡ t.end) ⊎ (t.end + 50 ≤ length t.bytes.items))
        × ArePlacesIn (drop (t.end + 50) t.bytes.items) t.places.items };
}

// Puts these bytes in place of the first ones.
fn put_front(bytes: &mut Vec<u8>, front: &[u8])
    requires { length front.now ≤ length bytes.old.items }
    ensures { bytes.new.items ≡ front.now ++ drop (length front.now) bytes.old.items }
{
    bytes[0..front.len()].copy_from_slice(front);
}

// Makes room for the header of a batch after a tail of this length, unless there is a batch.
fn begin_batch(bytes: &mut Vec<u8>, end: usize) -> Result<(), AllocError>
    requires { (length bytes.old.items ≡ end) ⊎ (end + 50 ≤ length bytes.old.items) }
    ensures room { OnOk result (end + 50 ≤ length bytes.new.items) }
    ensures tail { take end bytes.new.items ≡ take end bytes.old.items }
    ensures body { drop (end + 50) bytes.new.items ≡ drop (end + 50) bytes.old.items }
    ensures kept { OnErr result (bytes.new.items ≡ bytes.old.items) }
{
    if bytes.len() == end {
        bytes.extend_from_slice(&[0; HEADERS])?;
    }
    Ok(())
}

// Puts these places after the others, each that many bytes further on.
fn add_moved(places: &mut Vec<Place>, more: &[Place], by: usize) -> Result<(), AllocError>
    requires { All (EndsBy (2 ^ 64 - 1 - by)) more.now }
    ensures { OnOk result (places.new.items ≡ places.old.items ++ map (moved by) more.now) }
{
    places.reserve(more.len())?;
    for place in more {
        places.push(Place {
            start: by + place.start,
            end: by + place.end,
        })?;
    }
    Ok(())
}

impl TailBuffer {
    /// A tail of these bytes, after which nothing waits.
    pub(crate) fn new(alloc: Global, bytes: Vec<u8>) -> TailBuffer
        ensures bytes { result.bytes ≡ bytes.items }
        ensures none_pending { result.pending ≡ [] }
    {
        let end = bytes.len();
        TailBuffer {
            bytes,
            end,
            places: Vec::new(alloc),
        }
    }

    /// The tail.
    pub(crate) fn bytes(&self) -> &[u8]
        ensures { result.now ≡ self.now.bytes }
    {
        &self.bytes[..self.end]
    }

    /// How long the tail is.
    pub(crate) fn len(&self) -> usize
        ensures value { result ≡ length self.now.bytes }
        ensures small { result < 2 ^ 63 }
    {
        self.end
    }

    /// The body of the batch that waits.
    pub(crate) fn pending(&self) -> &[u8]
        ensures { result.now ≡ self.now.pending }
    {
        let body = (self.end + HEADERS).min(self.bytes.len());
        &self.bytes[body..]
    }

    /// Puts a record after those that wait. An error leaves them as they were.
    pub(crate) fn add_record(&mut self, bytes: &[u8]) -> Result<(), AllocError>
        requires { length bytes.now < 2 ^ 32 }
        ensures bytes { self.new.bytes ≡ self.old.bytes }
        ensures added { OnOk result (self.new.pending ≡ self.old.pending ++ framed bytes.now) }
        ensures kept { OnErr result (self.new ≡ self.old) }
    {
        begin_batch(&mut self.bytes, self.end)?;
        let start = self.bytes.len() - (self.end + HEADERS) + 4;
        self.places.reserve(1)?;
        add_record(&mut self.bytes, bytes)?;
        let end = start + bytes.len();
        self.places.push(Place { start, end })?;
        Ok(())
    }

    /// Adds the places that the records of the batch have once it is the last one of the tail.
    pub(crate) fn place_batch(&self, places: &mut Vec<Place>) -> Result<(), AllocError>
        ensures records { OnOk result (AddsRecords self.now.pending (length self.now.bytes + 50)
            places.old.items places.new.items) }
        ensures within { OnOk result (All (EndsBy (length self.now.bytes + 50)) places.old.items
            → All (EndsBy (length self.now.bytes + 50 + length self.now.pending)) places.new.items) }
    {
        add_moved(places, &self.places, self.end + HEADERS)
    }

    /// Makes the batch that waits the last one of the tail.
    pub(crate) fn take_batch(&mut self, first: u64)
        requires some { 0 < length self.old.pending }
        requires small { 8 + length self.old.pending < 2 ^ 32 }
        ensures bytes { self.new.bytes ≡ self.old.bytes ++ headed first (length self.old.bytes) self.old.pending }
        ensures none_pending { self.new.pending ≡ [] }
        ensures fits { sum_of self.old.pending < 2 ^ 64 }
        ensures head_fits { sum_of (head_body first (length self.old.bytes) (length self.old.pending)) < 2 ^ 64 }
    {
        let body = self.end + HEADERS;
        let headers = headers(first, self.end, &self.bytes[body..]);
        self.bytes[self.end..body].copy_from_slice(&headers);
        self.end = self.bytes.len();
        self.places.clear();
    }

    /// Begins the tail again with these bytes, in the memory that it has. What waits stays.
    pub(crate) fn restart(&mut self, bytes: &[u8])
        requires { length bytes.now ≤ length self.old.bytes }
        ensures bytes { self.new.bytes ≡ bytes.now }
        ensures pending { self.new.pending ≡ self.old.pending }
    {
        let rest = self.bytes.len() - self.end;
        self.bytes.copy_within(self.end.., bytes.len());
        self.bytes.truncate(bytes.len() + rest);
        put_front(&mut self.bytes, bytes);
        self.end = bytes.len();
    }
}

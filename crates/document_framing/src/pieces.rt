//! Documents that a byte ends.

ghost use Rattle.std.specs.Prelude.{◌≡◌, ◌≢◌, ◌+◌, ◌-◌, ◌<◌, ◌≤◌, [], All, IfOk, IfSome, MatchOption, OnErr};
ghost use Rattle.std.specs.Prelude.{OnOk, OnSome, Ok, length, take, true};
ghost use Rattle.std.specs.Io.{StartsWith, StopsAt, IsEmptyOrEndsWith, appended_bytes};
ghost use Rattle.std.specs.Io.BufRead.{take_through, DropsThrough};
ghost use Rattle.std.specs.Io.KnownBytes.{Consumes, IsAtEnd};
ghost use Rattle.document_framing.specs.Framings.{IsPiece};

use crate::fault::FramingFault;
use memchr::memchr;
use std::io;
use std::io::{BufRead, Write};

/// Splits bytes after the first byte of this value, or returns `None` if there is none.
#[inline(always)]
pub(crate) fn split_after(bytes: &[u8], end: u8) -> Option<(&[u8], &[u8])>
    ensures { MatchOption result (All (λ x. x ≢ end) bytes.now)
        (λ parts. IsPiece end bytes.now parts.0.now parts.1.now) }
{
    let place = memchr(end, bytes)?;
    Some(bytes.split_at(place + 1))
}

// How many bytes come up to and with the first of this value, or how many there are.
#[inline(always)]
fn len_through(bytes: &[u8], end: u8) -> usize
    ensures bound { result ≤ length bytes.now }
    ensures some { 0 < length bytes.now → 0 < result }
    ensures before { All (λ x. x ≢ end) (take (result - 1) bytes.now) }
{
    match memchr(end, bytes) {
        Some(place) => place + 1,
        None => bytes.len(),
    }
}

// Adds what the input has buffered, up to and with a byte, and returns whether that byte or the end of the input came.
// `memchr` looks for the byte by vectors, which `read_until` does not.
#[inline(always)]
fn add_through<R: BufRead>(input: &mut R, end: u8, document: &mut Vec<u8>) -> io::Result<bool>
    ensures appends { StartsWith document.new.items document.old.items }
    ensures stops { StopsAt (appended_bytes document.old.items document.new.items) end }
    ensures bytes { Consumes (R.remaining input.old) (R.remaining input.new)
        (appended_bytes document.old.items document.new.items) }
    ensures end { result ≡ Ok true → length (appended_bytes document.old.items document.new.items) ≡ 0
        → OnSome (R.remaining input.old) (IsAtEnd (R.remaining input.new)) }
    ensures no_byte_unless_done { result ≢ Ok true
        → All (λ x. x ≢ end) (appended_bytes document.old.items document.new.items) }
    ensures done_at_byte_or_end { result ≡ Ok true
        → IsEmptyOrEndsWith (appended_bytes document.old.items document.new.items) end }
{
    let available = match input.fill_buf() {
        Ok(available) => available,
        Err(error) => {
            return if is_interrupted(&error) {
                Ok(false)
            } else {
                Err(error)
            };
        }
    };
    let len = len_through(available, end);
    document.extend_from_slice(&available[..len])?;
    let is_done = len == 0 || available[len - 1] == end;
    input.consume(len);
    Ok(is_done)
}

// Whether a signal came before a read was done.
fn is_interrupted(error: &io::Error) -> bool {
    error.kind() == io::ErrorKind::Interrupted
}

/// Reads up to and with a byte into `document`, in place of what it has; at the end of the input it reads nothing.
pub(crate) fn read_through<R: BufRead>(
    input: &mut R,
    end: u8,
    document: &mut Vec<u8>,
) -> Result<(), FramingFault>
    ensures bytes { OnOk result (IfSome (R.remaining input.old)
        (λ bytes. document.new.items ≡ take_through end bytes)) }
    ensures rest { OnOk result (DropsThrough (R.remaining input.old) (R.remaining input.new) end) }
{
    document.clear();
    for _ in 0..u64::MAX {
        if add_through(input, end, document)? {
            return Ok(());
        }
    }
    Err(FramingFault::Endless)
}

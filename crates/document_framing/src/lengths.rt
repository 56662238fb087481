//! Documents that follow their lengths.

ghost use Rattle.std.specs.Prelude.{◌≡◌, ◌≤◌, ◌<◌, [], ◌∷◌, IfOk, OnOk, OnSome, Ok, false, length, true};
ghost use Rattle.std.specs.Io.KnownBytes.{IsAtEnd};
ghost use Rattle.document_framing.specs.Feeding.{AreSpent, Gives, known_documents};
ghost use Rattle.document_framing.specs.Taking.{AddsBytes, IsReadUpTo};

use crate::fault::FramingFault;
use crate::framing::Framing;
use std::io;
use std::io::BufRead;

/// Whether some bytes begin with a length and a document of that length.
pub(crate) fn has_measured(bytes: &[u8]) -> bool {
    match bytes.split_first_chunk::<4>() {
        Some((length, rest)) => u32::from_le_bytes(*length) as usize <= rest.len(),
        None => false,
    }
}

// Adds what the input has buffered, up to this many bytes, to a document, and returns whether there may be more.
#[inline(always)]
fn add_up_to<R: BufRead>(
    input: &mut R,
    most: usize,
    document: &mut Vec<u8>,
) -> Result<bool, FramingFault>
    requires { 0 < most }
    ensures added { OnOk result (AddsBytes most (R.remaining input.old) (R.remaining input.new)
        document.old.items document.new.items) }
    ensures last { result ≡ Ok false → OnSome (R.remaining input.old) (IsAtEnd (R.remaining input.new)) }
{
    let available = match input.fill_buf() {
        Ok(available) => available,
        Err(error) => {
            return if error.kind() == io::ErrorKind::Interrupted {
                Ok(true)
            } else {
                Err(FramingFault::Io(error))
            };
        }
    };
    let len = available.len().min(most);
    document.extend_from_slice(&available[..len])?;
    input.consume(len);
    Ok(len > 0)
}

// Reads this many bytes into `document`, in place of what it has, or all where the input has fewer.
fn read_up_to<R: BufRead>(
    input: &mut R,
    len: usize,
    document: &mut Vec<u8>,
) -> Result<(), FramingFault>
    ensures { OnOk result (IsReadUpTo len (R.remaining input.old) (R.remaining input.new) document.new.items) }
{
    document.clear();
    for _ in 0..u64::MAX {
        let had = document.len();
        if had >= len {
            return Ok(());
        }
        if !add_up_to(input, len - had, document)? {
            return Ok(());
        }
    }
    Err(FramingFault::Endless)
}

/// Reads a length and that many bytes into `document`, in place of what it has, or returns false at the end of the
/// input.
pub(crate) fn read_measured<R: BufRead>(
    input: &mut R,
    document: &mut Vec<u8>,
) -> Result<bool, FramingFault>
    ensures some { result ≡ Ok true → Gives (known_documents Framing.Lengths (R.remaining input.old))
        (known_documents Framing.Lengths (R.remaining input.new)) (document.new.items ∷ []) }
    ensures none { result ≡ Ok false → Gives (known_documents Framing.Lengths (R.remaining input.old))
        (known_documents Framing.Lengths (R.remaining input.new)) [] }
    ensures last { result ≡ Ok false → AreSpent (known_documents Framing.Lengths (R.remaining input.old))
        (known_documents Framing.Lengths (R.remaining input.new)) }
{
    read_up_to(input, 4, document)?;
    if document.is_empty() {
        return Ok(false);
    }
    let Some(head) = document.first_chunk::<4>() else {
        return Err(FramingFault::Cut);
    };
    let len = u32::from_le_bytes(*head) as usize;
    read_up_to(input, len, document)?;
    if document.len() < len {
        return Err(FramingFault::Cut);
    }
    Ok(true)
}

/// The length of a document, as four bytes can hold it.
pub(crate) fn length_of(document: &[u8]) -> io::Result<u32>
    ensures { IfOk result (λ len. len ≡ length document.now) }
{
    match u32::try_from(document.len()) {
        Ok(length) => Ok(length),
        Err(_) => Err(io::ErrorKind::InvalidData.into()),
    }
}

//! Documents of an input, which a sink takes one after the other.

ghost use Rattle.std.specs.Prelude.{◌≡◌, ◌≤◌, ℕ, List, ◌++◌, [], false, IfErr, IfOk, IsErr, IsOk, OnErr};
ghost use Rattle.std.specs.Prelude.{OnOk, Ok, Some, length, map, take};
ghost use Rattle.std.specs.Io.KnownBytes.{IsAtEnd};
ghost use Rattle.std.specs.Io.Buffered.{reader_remaining};
ghost use Rattle.document_framing.specs.Feeding.{AreSpent, EndsFeed, FailsAfter, Feeds, FeedsAll, known_documents};
ghost use Rattle.document_framing.specs.Framings.{document_in, documents_of, end_of, pieces};
ghost use Rattle.document_framing.specs.Taking.{FailsWithin, TakesPieces};

use crate::fault::FramingFault;
use crate::framing::Framing;
use crate::lengths::{has_measured, read_measured};
use crate::pieces::{read_through, split_after};
use std::io::{BufRead, BufReader, Read};

/// Takes documents one after the other, as a writer of a store or a log does.
pub trait DocumentSink {
    ghost use Rattle.std.specs.Prelude.{◌≡◌, ℕ, List, [], ◌∷◌, ◌++◌, OnErr, OnOk};

    /// Why a document was not taken.
    type Error: Drop;

    /// Which documents it took between two states, in order.
    ghost adds: { Self → List (List ℕ) → Self → Type 0 };

    /// What a call that failed leaves.
    ghost fails: { Self → Self → Type 0 };

    /// Takes one document more.
    fn take(&mut self, document: &[u8]) -> Result<(), Self::Error>
        ensures taken { OnOk result (adds self.old (document.now ∷ []) self.new) }
        ensures failed { OnErr result (fails self.old self.new) };

    /// Is called before an input may have to be waited for.
    fn before_waiting(&mut self) -> Result<(), Self::Error>
        ensures kept { OnOk result (adds self.old [] self.new) }
        ensures failed { OnErr result (fails self.old self.new) };

    /// Nothing happened, and no document was taken.
    ghost adds_none: { (sink : Self) → adds sink [] sink };

    /// What was taken in two steps was taken.
    ghost adds_more: { (old middle new : Self) (first next : List (List ℕ)) → adds old first middle
        → adds middle next new → adds old (first ++ next) new };
}

/// Counts the documents that a sink took, as a progress line does.
pub trait FeedProgress {
    /// A document of this many bytes was taken.
    fn note(&mut self, len: usize);
}

/// Why not all documents were taken: an input's error, or the sink's.
#[derive(Drop)]
pub enum FeedError<F: Drop, E: Drop> {
    Input(F),
    Sink(E),
}

impl<E: Drop> From<FramingFault> for FeedError<FramingFault, E> {
    ghost use Rattle.std.specs.Prelude.{◌≡◌};
    ghost use Rattle.document_framing.specs.declared.feeding.FeedError.TheVariants.{Input};

    ghost from_gives = { λ fault error. error ≡ Input fault };

    fn from(fault: FramingFault) -> FeedError<FramingFault, E> {
        FeedError::Input(fault)
    }
}

// Gives a sink the documents of the pieces that their end closes in some bytes, and returns how many bytes these are.
#[inline(always)]
fn feed_whole<S: DocumentSink>(
    framing: Framing,
    end: u8,
    bytes: &[u8],
    sink: &mut S,
) -> Result<usize, S::Error>
    ensures within { IfOk result (λ taken. taken ≤ length bytes.now) }
    ensures fed { IfOk result (λ taken. TakesPieces S.adds framing end (take taken bytes.now) sink.old sink.new) }
    ensures ended { OnErr result (FailsWithin S.adds S.fails framing end bytes.now sink.old sink.new) }
{
    let mut rest = bytes;
    let mut taken = 0usize;
    // Each turn takes a byte at least.
    for _ in 0..bytes.len() {
        let Some((piece, after)) = split_after(rest, end) else {
            break;
        };
        sink.take(framing.document_in(piece))?;
        taken += piece.len();
        rest = after;
    }
    Ok(taken)
}

// Gives a sink the documents that an input has whole in its buffer, where a byte ends each. They are not copied.
fn feed_buffered<R: Read, S: DocumentSink>(
    framing: Framing,
    end: u8,
    input: &mut BufReader<R>,
    sink: &mut S,
) -> Result<(), S::Error>
    requires { end_of framing ≡ Some end }
    ensures fed { OnOk result (Feeds S.adds (known_documents framing (reader_remaining R.remaining input.old))
        (known_documents framing (reader_remaining R.remaining input.new)) sink.old sink.new) }
    ensures ended { OnErr result (FailsAfter S.adds S.fails
        (known_documents framing (reader_remaining R.remaining input.old)) sink.old sink.new) }
{
    let taken = feed_whole(framing, end, input.buffer(), sink)?;
    input.consume(taken);
    Ok(())
}

// Gives a sink the document in a piece of an input, or none.
fn feed_piece<R: BufRead, S: DocumentSink>(
    framing: Framing,
    end: u8,
    input: &mut R,
    sink: &mut S,
    piece: &mut Vec<u8>,
) -> Result<bool, FeedError<FramingFault, S::Error>>
    requires { end_of framing ≡ Some end }
    ensures fed { OnOk result (Feeds S.adds (known_documents framing (R.remaining input.old))
        (known_documents framing (R.remaining input.new)) sink.old sink.new) }
    ensures last { result ≡ Ok false → AreSpent (known_documents framing (R.remaining input.old))
        (known_documents framing (R.remaining input.new)) }
    ensures ended { IfErr result (EndsFeed S.adds S.fails (known_documents framing (R.remaining input.old))
        sink.old sink.new) }
{
    read_through(input, end, piece)?;
    let len = piece.len();
    if len == 0 {
        return Ok(false);
    }
    match sink.take(framing.document_in(piece)) {
        Ok(()) => Ok(piece[len - 1] == end),
        Err(error) => Err(FeedError::Sink(error)),
    }
}

// Gives a sink documents of an input, and returns whether there may be more. After its end an input is not read again,
// since a terminal would go on.
fn feed_pieces<R: Read, S: DocumentSink>(
    framing: Framing,
    end: u8,
    waits: bool,
    input: &mut BufReader<R>,
    sink: &mut S,
    piece: &mut Vec<u8>,
) -> Result<bool, FeedError<FramingFault, S::Error>>
    requires { end_of framing ≡ Some end }
    ensures fed { OnOk result (Feeds S.adds (known_documents framing (reader_remaining R.remaining input.old))
        (known_documents framing (reader_remaining R.remaining input.new)) sink.old sink.new) }
    ensures last { result ≡ Ok false → AreSpent (known_documents framing (reader_remaining R.remaining input.old))
        (known_documents framing (reader_remaining R.remaining input.new)) }
    ensures ended { IfErr result (EndsFeed S.adds S.fails
        (known_documents framing (reader_remaining R.remaining input.old)) sink.old sink.new) }
{
    if let Err(error) = feed_buffered(framing, end, input, sink) {
        return Err(FeedError::Sink(error));
    }
    if let Err(error) = wait_unless(!waits, sink) {
        return Err(FeedError::Sink(error));
    }
    feed_piece(framing, end, input, sink, piece)
}

// Gives a sink each document of an input, where a byte ends each.
fn feed_all_pieces<R: Read, S: DocumentSink>(
    framing: Framing,
    end: u8,
    waits: bool,
    input: &mut BufReader<R>,
    sink: &mut S,
    piece: &mut Vec<u8>,
) -> Result<(), FeedError<FramingFault, S::Error>>
    requires { end_of framing ≡ Some end }
    ensures fed { OnOk result (FeedsAll S.adds (known_documents framing (reader_remaining R.remaining input.old))
        sink.old sink.new) }
    ensures ended { IfErr result (EndsFeed S.adds S.fails
        (known_documents framing (reader_remaining R.remaining input.old)) sink.old sink.new) }
{
    for _ in 0..u64::MAX {
        if !feed_pieces(framing, end, waits, input, sink, piece)? {
            return Ok(());
        }
    }
    Err(FeedError::Input(FramingFault::Endless))
}

// Tells a sink that an input may have to be waited for, unless the next document is there.
fn wait_unless<S: DocumentSink>(is_there: bool, sink: &mut S) -> Result<(), S::Error>
    ensures kept { OnOk result (S.adds sink.old [] sink.new) }
    ensures failed { OnErr result (S.fails sink.old sink.new) }
{
    if is_there {
        return Ok(());
    }
    sink.before_waiting()
}

// Gives a sink a document of an input in which each follows its length, and returns whether there may be more.
fn feed_measured<R: Read, S: DocumentSink>(
    waits: bool,
    input: &mut BufReader<R>,
    sink: &mut S,
    document: &mut Vec<u8>,
) -> Result<bool, FeedError<FramingFault, S::Error>>
    ensures fed { OnOk result (Feeds S.adds
        (known_documents Framing.Lengths (reader_remaining R.remaining input.old))
        (known_documents Framing.Lengths (reader_remaining R.remaining input.new)) sink.old sink.new) }
    ensures last { result ≡ Ok false
        → AreSpent (known_documents Framing.Lengths (reader_remaining R.remaining input.old))
        (known_documents Framing.Lengths (reader_remaining R.remaining input.new)) }
    ensures ended { IfErr result (EndsFeed S.adds S.fails
        (known_documents Framing.Lengths (reader_remaining R.remaining input.old)) sink.old sink.new) }
{
    if let Err(error) = wait_unless(!waits || has_measured(input.buffer()), sink) {
        return Err(FeedError::Sink(error));
    }
    if !read_measured(input, document)? {
        return Ok(false);
    }
    match sink.take(document) {
        Ok(()) => Ok(true),
        Err(error) => Err(FeedError::Sink(error)),
    }
}

// Gives a sink each document of an input in which each follows its length.
fn feed_all_measured<R: Read, S: DocumentSink>(
    waits: bool,
    input: &mut BufReader<R>,
    sink: &mut S,
    document: &mut Vec<u8>,
) -> Result<(), FeedError<FramingFault, S::Error>>
    ensures fed { OnOk result (FeedsAll S.adds
        (known_documents Framing.Lengths (reader_remaining R.remaining input.old)) sink.old sink.new) }
    ensures ended { IfErr result (EndsFeed S.adds S.fails
        (known_documents Framing.Lengths (reader_remaining R.remaining input.old)) sink.old sink.new) }
{
    for _ in 0..u64::MAX {
        if !feed_measured(waits, input, sink, document)? {
            return Ok(());
        }
    }
    Err(FeedError::Input(FramingFault::Endless))
}

// Gives a sink the document that an input is.
fn feed_file<R: Read, S: DocumentSink>(
    waits: bool,
    input: &mut BufReader<R>,
    sink: &mut S,
    document: &mut Vec<u8>,
) -> Result<(), FeedError<FramingFault, S::Error>>
    ensures fed { OnOk result (FeedsAll S.adds
        (known_documents Framing.Files (reader_remaining R.remaining input.old)) sink.old sink.new) }
    ensures ended { IfErr result (EndsFeed S.adds S.fails
        (known_documents Framing.Files (reader_remaining R.remaining input.old)) sink.old sink.new) }
{
    if let Err(error) = wait_unless(!waits, sink) {
        return Err(FeedError::Sink(error));
    }
    document.clear();
    if let Err(error) = input.read_to_end(document) {
        return Err(FeedError::Input(FramingFault::Io(error)));
    }
    match sink.take(document) {
        Ok(()) => Ok(()),
        Err(error) => Err(FeedError::Sink(error)),
    }
}

/// Gives a sink each document of an input, in order. `waits` says whether the input may have to be waited for; then the
/// sink is called before that. `room` is memory for a document that the input's buffer does not hold whole. An Ok says
/// that the sink took exactly the documents of all that was left of the input, where a contract knows it; an error,
/// that it took the first of them.
///
/// # Errors
///
/// The input's fault or the sink's error, whichever came first.
pub fn feed<R: Read, S: DocumentSink>(
    framing: Framing,
    waits: bool,
    input: &mut BufReader<R>,
    sink: &mut S,
    room: &mut Vec<u8>,
) -> Result<(), FeedError<FramingFault, S::Error>>
    ensures fed { OnOk result (FeedsAll S.adds (known_documents framing (reader_remaining R.remaining input.old))
        sink.old sink.new) }
    ensures ended { IfErr result (EndsFeed S.adds S.fails
        (known_documents framing (reader_remaining R.remaining input.old)) sink.old sink.new) }
{
    if let Some(end) = framing.end() {
        return feed_all_pieces(framing, end, waits, input, sink, room);
    }
    if framing == Framing::Lengths {
        return feed_all_measured(waits, input, sink, room);
    }
    feed_file(waits, input, sink, room)
}

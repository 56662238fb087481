//! How documents are delimited in an input or an output.

ghost use Rattle.std.specs.Prelude.{◌≡◌, ◌++◌, OnOk};
ghost use Rattle.std.specs.Io.BufRead.{strip_last};
ghost use Rattle.std.specs.Io.KnownBytes.{Appends};
ghost use Rattle.document_framing.specs.Framings.{document_in, end_of, frame};

use crate::lengths::length_of;
use std::io;
use std::io::Write;

/// How documents are delimited.
#[derive(Clone, Copy, PartialEq, Eq)]
pub enum Framing {
    /// Each line is a document, without its line end.
    Lines,
    /// Each line is a document, with its line end if it has one.
    Text,
    /// Each document ends before a byte 0.
    Nul,
    /// Each document follows its length, which is four bytes, the lowest first.
    Lengths,
    /// Each file is a document.
    Files,
}

const LINES: &str = "lines";

const TEXT: &str = "text";

const NUL: &str = "nul";

const LENGTHS: &str = "lengths";

const FILES: &str = "files";

/// The words for framings.
pub const FRAMINGS: [&str; 5] = [LINES, TEXT, NUL, LENGTHS, FILES];

/// What the framings are, for help.
pub const FRAMING_HELP: &str = "\
How documents are delimited:
lines: each line is a document, without its line end; 'get' and 'cat' add a line end after each document
text: each line is a document, with its line end if it has one; 'get' and 'cat' add nothing
nul: each document ends before a byte 0; 'get' and 'cat' add a byte 0 after each document
lengths: each document follows its length, which is four bytes, the lowest first
files: each file is a document; 'get' and 'cat' add nothing between documents";

impl Framing {
    /// The framing of this name, one of `FRAMINGS`.
    pub fn from_name(name: &str) -> Option<Framing> {
        match name {
            LINES => Some(Framing::Lines),
            TEXT => Some(Framing::Text),
            NUL => Some(Framing::Nul),
            LENGTHS => Some(Framing::Lengths),
            FILES => Some(Framing::Files),
            _ => None,
        }
    }

    /// The byte that ends each document, where one does.
    pub fn end(self) -> Option<u8>
        ensures { result ≡ end_of self }
    {
        match self {
            Framing::Lines | Framing::Text => Some(b'\n'),
            Framing::Nul => Some(0),
            Framing::Lengths | Framing::Files => None,
        }
    }

    /// The document in a piece of an input.
    #[inline(always)]
    pub fn document_in(self, piece: &[u8]) -> &[u8]
        ensures { result.now ≡ document_in self piece.now }
    {
        match self {
            Framing::Lines => without_last(piece, b'\n'),
            Framing::Nul => without_last(piece, 0),
            Framing::Text | Framing::Lengths | Framing::Files => piece,
        }
    }

    /// Writes a document after others.
    ///
    /// # Errors
    ///
    /// Those of the output; and `InvalidData` if the length of the document, which comes first, needs more than four
    /// bytes.
    #[inline(always)]
    pub fn write<W: Write>(self, output: &mut W, document: &[u8]) -> io::Result<()>
        ensures { OnOk result (Appends (W.contents output.old) (W.contents output.new) (frame self document.now)) }
    {
        match self {
            Framing::Lines => write_parts(output, document, b"\n"),
            Framing::Nul => write_parts(output, document, b"\0"),
            Framing::Lengths => {
                write_parts(output, &length_of(document)?.to_le_bytes(), document)
            }
            Framing::Text | Framing::Files => output.write_all(document),
        }
    }
}

// The bytes without the last, if that is this one.
#[inline(always)]
fn without_last(bytes: &[u8], end: u8) -> &[u8]
    ensures { result.now ≡ strip_last end bytes.now }
{
    match bytes.split_last() {
        Some((last, front)) if *last == end => front,
        _ => bytes,
    }
}

// Writes two parts, one after the other.
#[inline(always)]
fn write_parts<W: Write>(output: &mut W, first: &[u8], second: &[u8]) -> io::Result<()>
    ensures { OnOk result (Appends (W.contents output.old) (W.contents output.new) (first.now ++ second.now)) }
{
    output.write_all(first)?;
    output.write_all(second)
}

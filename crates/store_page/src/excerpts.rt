//! The beginnings of documents that a page shows.

ghost use Rattle.std.specs.Prelude.{◌≡◌, ◌≤◌, ◌<◌, ◌*◌, ◌++◌, length, min, take, IfOk, OnOk};
ghost use Rattle.std.specs.String.{string_bytes};
ghost use Rattle.store_page.specs.Excerpts.{digit, hex};

use std::alloc::{AllocError, Global};
use std::fmt::Write;

/// How many documents a page shows at most.
pub const MOST_EXCERPTS: usize = 1000;

// How many bytes of a document a page shows at most, and of all documents together.
const MOST_BYTES: usize = 4096;

const MOST_BYTES_TOGETHER: usize = 400_000;

// How many documents of the most bytes are together within that.
const FEW_BLOCKS: usize = 97;

/// The first document of a block: its number, and its first bytes unless it is damaged.
#[derive(Drop)]
pub struct Excerpt {
    pub document: u32,
    pub beginning: Option<Beginning>,
}

/// How many bytes a document has, and some of the first ones.
#[derive(Drop)]
pub struct Beginning {
    pub document_bytes: u64,
    pub bytes: Vec<u8>,
}

impl Beginning {
    /// Of a document, with at most this many of its bytes.
    pub fn new(alloc: Global, document: &[u8], most: usize) -> Result<Beginning, AllocError>
        ensures document_bytes { IfOk result (λ b. b.document_bytes ≡ length document.now) }
        ensures bytes { IfOk result (λ b. b.bytes.items ≡ take most document.now) }
    {
        let shown = document.len().min(most);
        let mut bytes = Vec::new(alloc);
        bytes.extend_from_slice(&document[..shown])?;
        Ok(Beginning {
            document_bytes: document.len() as u64,
            bytes,
        })
    }
}

/// How many bytes of each document are shown of a store with this many blocks: 4096, or fewer where all of them
/// together would be more than 400,000.
pub fn excerpt_bytes(blocks: usize) -> usize
    ensures most { result ≤ 4096 }
    ensures together { result * min blocks 1000 ≤ 400000 }
    ensures few_blocks { blocks ≤ 97 → result ≡ 4096 }
{
    if blocks <= FEW_BLOCKS {
        return MOST_BYTES;
    }
    (MOST_BYTES_TOGETHER / blocks.min(MOST_EXCERPTS)).min(MOST_BYTES)
}

// The sign of a number below 16.
fn digit_of(number: u8) -> char
    requires small { number < 16 }
    ensures digit { result ≡ digit number }
    ensures ascii { result < 128 }
{
    if number < 10 {
        char::from(b'0' + number)
    } else {
        char::from(b'a' + (number - 10))
    }
}

/// Adds bytes as hexadecimal digits, two for each. So nothing of a document is read as HTML.
pub fn push_hex(page: &mut String, bytes: &[u8]) -> Result<(), AllocError>
    ensures pushed { OnOk result (string_bytes page.new ≡ string_bytes page.old ++ hex bytes.now) }
{
    for byte in bytes {
        page.push(digit_of(*byte / 16))?;
        page.push(digit_of(*byte % 16))?;
    }
    Ok(())
}

// Adds the row of a document.
fn push_excerpt(page: &mut String, excerpt: &Excerpt) -> Result<(), AllocError> {
    let document = excerpt.document;
    let Some(beginning) = &excerpt.beginning else {
        return write!(
            page,
            "<tr><th>{document}</th><td></td><td>damaged</td></tr>\n"
        );
    };
    let document_bytes = beginning.document_bytes;
    let whole = document_bytes == beginning.bytes.len() as u64;
    let class = if whole { "hex" } else { "hex cut" };
    write!(
        page,
        "<tr><th>{document}</th><td>{document_bytes}</td><td><pre class=\"{class}\">"
    )?;
    push_hex(page, beginning.bytes.as_slice())?;
    page.push_str("</pre></td></tr>\n")
}

/// Adds the table of the documents.
pub fn push_excerpts(page: &mut String, excerpts: &[Excerpt]) -> Result<(), AllocError> {
    page.push_str("<div class=\"tall\"><table class=\"documents\">\n")?;
    page.push_str("<tr><th>document</th><td>bytes</td><td>its first bytes</td></tr>\n")?;
    for excerpt in excerpts {
        push_excerpt(page, excerpt)?;
    }
    page.push_str("</table></div>\n")
}

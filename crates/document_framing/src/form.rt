//! How documents are shown in an output.

ghost use Rattle.std.specs.Prelude.{◌≡◌, ◌++◌, IfOk, OnOk};
ghost use Rattle.std.specs.Io.KnownBytes.{Appends};
ghost use Rattle.document_framing.specs.Forms.{line_of, member, shown};

use crate::framing::Framing;
use base64::engine::general_purpose::STANDARD;
use json::Writer;
use std::alloc::{AllocError, Global};
use std::io;
use std::io::Write;

/// How documents are shown.
#[derive(Clone, Copy)]
pub enum DocumentForm {
    /// In a framing.
    Framed(Framing),
    /// In a framing, after its number and a tab.
    Numbered(Framing),
    /// As an object of JSON on a line: its number and its text, or base64 where it is not UTF-8.
    Json,
}

/// Why a document is not shown.
#[derive(Drop)]
pub enum ShowError {
    Memory,
    Output(io::Error),
}

impl From<AllocError> for ShowError {
    fn from(_: AllocError) -> ShowError {
        ShowError::Memory
    }
}

impl From<io::Error> for ShowError {
    fn from(error: io::Error) -> ShowError {
        ShowError::Output(error)
    }
}

// How many bytes of a line are not of the document: at most twenty of them are its number.
const LINE_BYTES: usize = 48;

// Writes a document as a member of an object of JSON.
fn write_member(alloc: Global, writer: &mut Writer, document: &[u8]) -> Result<(), AllocError>
    ensures tokens { OnOk result (writer.new.tokens ≡ writer.old.tokens ++ member document.now) }
    ensures before { writer.new.before ≡ writer.old.before }
{
    if let Ok(text) = str::from_utf8(document) {
        writer.key("text")?;
        return writer.string(text);
    }
    let encoded = STANDARD.encode(alloc, document)?;
    writer.key("base64")?;
    writer.string(encoded.as_str())
}

// A document of this number as an object of JSON on a line.
fn json_line(alloc: Global, number: u64, document: &[u8]) -> Result<Vec<u8>, AllocError>
    ensures { IfOk result (λ line. line.items ≡ line_of number document.now) }
{
    let room = document.len().saturating_add(LINE_BYTES);
    let mut writer = Writer::new(Vec::with_capacity(alloc, room)?);
    writer.begin_object()?;
    writer.key("id")?;
    writer.u64(number)?;
    write_member(alloc, &mut writer, document)?;
    writer.end_object()?;
    let mut line = writer.into_inner();
    line.push(b'\n')?;
    Ok(line)
}

impl DocumentForm {
    /// Writes a document of this number after others.
    ///
    /// # Errors
    ///
    /// Those of the output, and `InvalidData` for a document that the framing can't hold.
    #[inline(always)]
    pub fn write<W: Write>(
        self,
        alloc: Global,
        output: &mut W,
        number: u64,
        document: &[u8],
    ) -> Result<(), ShowError>
        ensures { OnOk result (Appends (W.contents output.old) (W.contents output.new)
            (shown self number document.now)) }
    {
        match self {
            DocumentForm::Framed(framing) => framing.write(output, document)?,
            DocumentForm::Numbered(framing) => {
                write!(output, "{number}\t")?;
                framing.write(output, document)?;
            }
            DocumentForm::Json => output.write_all(&json_line(alloc, number, document)?)?,
        }
        Ok(())
    }
}

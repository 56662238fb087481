//! What is printed of documents and refusals.
use crate::fault::{NoAnswer, ToolFault};
use docstore::{FileHandle, OwnedBytes, RecordDocument, StoreError, StoreReader};
use std::alloc::Global;
use std::io::Write;

// Bytes as hexadecimal digits, `-` for none.
fn write_digits<W: Write>(alloc: Global, output: &mut W, bytes: &[u8]) -> Result<(), ToolFault> {
    if bytes.is_empty() {
        write!(output, "-")?;
        return Ok(());
    }
    let text = hex::encode(alloc, bytes)?;
    write!(output, "{text}")?;
    Ok(())
}

/// Bytes on a line of their own.
pub fn write_bytes<W: Write>(alloc: Global, output: &mut W, bytes: &[u8]) -> Result<(), ToolFault> {
    write_digits(alloc, output, bytes)?;
    writeln!(output)?;
    Ok(())
}

/// A refusal by its number.
pub fn write_error<W: Write>(output: &mut W, error: StoreError) -> Result<(), ToolFault> {
    writeln!(output, "error {}", error.number())?;
    Ok(())
}

/// Why there is no answer. A fault of the tool is returned.
pub fn write_no_answer<W: Write>(output: &mut W, why: NoAnswer) -> Result<(), ToolFault> {
    match why {
        NoAnswer::Store(error) => write_error(output, error),
        NoAnswer::Tool(fault) => Err(fault),
    }
}

/// A document, or why there is none.
pub fn write_document<W: Write>(
    alloc: Global,
    output: &mut W,
    document: Result<OwnedBytes, StoreError>,
) -> Result<(), ToolFault> {
    match document {
        Ok(bytes) => write_bytes(alloc, output, bytes.as_slice()),
        Err(error) => write_error(output, error),
    }
}

/// Each document with its id, and then `end`.
pub fn write_documents<H: FileHandle, W: Write>(
    alloc: Global,
    output: &mut W,
    reader: &mut StoreReader<H>,
) -> Result<(), ToolFault> {
    for doc_id in 0..reader.num_docs() {
        write!(output, "{doc_id} ")?;
        write_document(alloc, output, reader.get_document_bytes(alloc, doc_id))?;
    }
    writeln!(output, "end")?;
    Ok(())
}

/// The fields of a record and their bytes, `empty` where there is none.
pub fn write_record<W: Write>(
    alloc: Global,
    output: &mut W,
    record: &RecordDocument,
) -> Result<(), ToolFault> {
    let mut space = "";
    for (field, bytes) in record.fields() {
        write!(output, "{space}{} ", field.field_id())?;
        write_digits(alloc, output, bytes)?;
        space = " ";
    }
    writeln!(output, "{}", if space.is_empty() { "empty" } else { "" })?;
    Ok(())
}

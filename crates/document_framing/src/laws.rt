//! Laws of framings: what is written and read again, and what is read and written again.

ghost use Rattle.document_framing.specs.Laws.{DocumentsAreReadAgain, LinesAreWrittenAgain};

/// Documents that are framed in an output are the documents of it as an input: of any bytes where their lengths come
/// first, and of bytes without the end byte where that ends each.
pub fn documents_are_read_again()
    ensures { DocumentsAreReadAgain }
{}

/// The documents of an input that ends with an end byte, or is empty, are these very bytes in an output.
pub fn lines_are_written_again()
    ensures { LinesAreWrittenAgain }
{}

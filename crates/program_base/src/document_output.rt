//! The standard output, for documents: how each is printed.

use crate::arguments::{framing_of, wrong_words};
use crate::command_words::Argument;
use crate::failure::FailureCause;
use clap::ArgMatches;
use document_framing::{DocumentForm, Framing};
use std::alloc::Global;
use std::io;
use std::io::{BufWriter, Printer};

// How many bytes are held before they go to the system.
const BUFFER_SIZE: usize = 1 << 17;

/// The standard output, through a buffer, in a box.
pub type DocumentOutput<'a> = Box<BufWriter<Printer<'a, HostRuntime>>>;

/// The standard output, through a buffer.
pub fn standard_output(rt: &HostRuntime) -> io::Result<DocumentOutput<'_>> {
    let output = BufWriter::with_capacity(rt.alloc(), BUFFER_SIZE, io::writer(rt))?;
    Ok(Box::new(rt.alloc(), output)?)
}

/// Whether a document follows its number.
pub fn number<'a>() -> Argument<'a> {
    Argument::Flag {
        id: "number",
        help: "Print the number of each document and a tab before it",
    }
}

/// Whether documents are printed as JSON.
pub fn json<'a>() -> Argument<'a> {
    Argument::FlagAgainst {
        id: "json",
        others: &["framing", "number"],
        help: "Print a JSON object for each document, one per line: its id and its text, or base64 if it isn't UTF-8",
    }
}

/// How the words say that documents are printed.
pub fn form_of(alloc: Global, matches: &ArgMatches<'_>) -> Result<DocumentForm, FailureCause> {
    let framing = framing_of(alloc, matches)?;
    if matches.get_flag("json") {
        return Ok(DocumentForm::Json);
    }
    if !matches.get_flag("number") {
        return Ok(DocumentForm::Framed(framing));
    }
    if framing == Framing::Lengths {
        return Err(wrong_words(alloc, "'--number' has no place in this framing", "lengths"));
    }
    Ok(DocumentForm::Numbered(framing))
}

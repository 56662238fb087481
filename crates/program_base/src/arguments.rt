//! Arguments that several commands have.

use crate::byte_size::parse_size;
use crate::command_words::Argument;
use crate::failure::FailureCause;
use clap::ArgMatches;
use document_framing::Framing;
use document_framing::framing::{FRAMING_HELP, FRAMINGS};
use std::alloc::Global;
use store_commands::StoreShape;

/// The name of the argument for the file that is written.
const OUTPUT: &str = "OUT";

/// The name of the argument for the file that is read.
const INPUT_FILE: &str = "FILE";

/// The name of the option for the block size.
const BLOCK_SIZE: &str = "block-size";

/// The store that is read.
pub fn input<'a>() -> Argument<'a> {
    Argument::Word {
        id: INPUT_FILE,
        help: "The store",
    }
}

/// The store that is written.
pub fn output<'a>() -> Argument<'a> {
    Argument::Word {
        id: OUTPUT,
        help: "Output file. It appears when writing succeeds; one that exists is refused, unless with --replace",
    }
}

/// That the file that is written may replace one.
pub fn replace<'a>() -> Argument<'a> {
    Argument::Flag {
        id: "replace",
        help: "Replace OUT if it exists, whatever it holds",
    }
}

/// That files have to be as tantivy's directory leaves them.
pub fn tantivy<'a>() -> Argument<'a> {
    Argument::Flag {
        id: "tantivy",
        help: "Require the footer that tantivy's directory adds to a segment's .store file; \
               it is recognized without this",
    }
}

/// That nothing but errors is printed on the standard error.
pub fn quiet<'a>() -> Argument<'a> {
    Argument::ShortFlag {
        id: "quiet",
        short: 'q',
        help: "Show no progress and no summary on standard error",
    }
}

/// How many documents or records have to come. A program that ends early gives its reader an ordinary end of input, so
/// without a count what it did not write is not missed. The help says what is not done then.
pub fn expect<'a>(help: &'a str) -> Argument<'a> {
    Argument::Number {
        id: "expect",
        value: "COUNT",
        help,
    }
}

/// How documents are delimited.
pub fn framing<'a>() -> Argument<'a> {
    Argument::ChoiceOr {
        id: "framing",
        value: "FRAMING",
        choices: FRAMINGS.as_slice(),
        default: "lines",
        help: "How documents are delimited",
        long_help: FRAMING_HELP,
    }
}

/// The block size.
pub fn block_size<'a>() -> Argument<'a> {
    Argument::OptionOr {
        id: BLOCK_SIZE,
        value: "BYTES",
        default: "16K",
        help: "Write a block once its documents plus 8 bytes each exceed BYTES; suffixes K, M, G (powers of 1024)",
    }
}

// What a word names, or that the word is wrong, and why.
fn or_wrong_words<T: Copy>(
    alloc: Global,
    why: &str,
    word: &str,
    found: Option<T>,
) -> Result<T, FailureCause> {
    match found {
        Some(found) => Ok(found),
        None => Err(wrong_words(alloc, why, word)),
    }
}

/// The word of an argument that is required or has a default.
pub fn word<'a>(
    alloc: Global,
    matches: &ArgMatches<'a>,
    id: &str,
) -> Result<&'a str, FailureCause> {
    or_wrong_words(alloc, "missing argument", id, matches.get_str(id))
}

/// The name of the file that is read.
pub fn input_path<'a>(alloc: Global, matches: &ArgMatches<'a>) -> Result<&'a str, FailureCause> {
    word(alloc, matches, INPUT_FILE)
}

/// The name of the file that is written.
pub fn output_path<'a>(alloc: Global, matches: &ArgMatches<'a>) -> Result<&'a str, FailureCause> {
    word(alloc, matches, OUTPUT)
}

/// The size that an option gives, in bytes, if it is there or has a default.
pub fn size_of(
    alloc: Global,
    matches: &ArgMatches<'_>,
    id: &str,
) -> Result<Option<usize>, FailureCause> {
    let Some(size) = matches.get_str(id) else {
        return Ok(None);
    };
    let bytes = or_wrong_words(alloc, "invalid size", size, parse_size(size))?;
    Ok(Some(bytes))
}

/// The block size, in bytes.
pub fn block_size_of(alloc: Global, matches: &ArgMatches<'_>) -> Result<usize, FailureCause> {
    let size = size_of(alloc, matches, BLOCK_SIZE)?;
    or_wrong_words(alloc, "missing argument", BLOCK_SIZE, size)
}

/// How the store is to be written.
pub fn shape_of(alloc: Global, matches: &ArgMatches<'_>) -> Result<StoreShape, FailureCause> {
    let block_size = block_size_of(alloc, matches)?;
    // There is a period: it has a default. No store has the period 0.
    let period = matches.get_one::<u8>("period").unwrap_or(0);
    or_wrong_words(
        alloc,
        "invalid argument",
        "period",
        StoreShape::new(block_size, period),
    )
}

/// How documents are delimited.
pub fn framing_of(alloc: Global, matches: &ArgMatches<'_>) -> Result<Framing, FailureCause> {
    let name = word(alloc, matches, "framing")?;
    or_wrong_words(alloc, "unknown framing", name, Framing::from_name(name))
}

/// That a word is wrong, and why.
pub fn wrong_words(alloc: Global, why: &str, word: &str) -> FailureCause {
    match format!(in alloc; "{why}: '{word}'") {
        Ok(text) => FailureCause::Words(text),
        Err(error) => FailureCause::from(error),
    }
}

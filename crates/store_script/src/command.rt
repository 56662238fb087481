//! The lines of a script.
//!
//! A line is words parted by exactly one space. A number is decimal digits, with no sign and no zero before others.
//! Bytes are a positive even number of hexadecimal digits of either case, or `-` for none.
ghost use Rattle.std.specs.Prelude.{◌≤◌};

use docstore::{DocId, Field, NoMemory, RecordDocument, USUAL_PERIOD};
use hex::FromHexError;
use std::alloc::{AllocFailed, Global};

/// How many checkpoints a full block of an index has.
#[derive(Clone, Copy)]
pub struct Period {
    pub value: u8,
    ghost least: { 2 ≤ value },
    ghost most: { value ≤ 64 },
}

/// A line that has one of the forms. Stores go by their number.
#[derive(Drop)]
pub enum Command {
    /// `new SIZE` or `new SIZE PERIOD`: opens a writer.
    New { block_size: usize, period: Period },
    /// `put HEX`: stores a document that is bytes.
    Put { document: Vec<u8> },
    /// `rec`, and then any number of ` FIELD HEX`: stores a record.
    Record { record: RecordDocument },
    /// `stack STORE`: stacks a store after the documents.
    Stack { store: u32 },
    /// `close`: closes the writer and opens what it wrote.
    Close,
    /// `load HEX`: opens a file.
    Load { file: Vec<u8> },
    /// `merge SIZE`, and then one or more ` STORE`: merges these stores, of which nothing is deleted, into one.
    Merge { block_size: usize, stores: Vec<u32> },
    /// A question to a store.
    Ask { store: u32, question: Question },
}

/// A question to a store.
#[derive(Drop)]
pub enum Question {
    /// `get STORE ID`: a document.
    Document { doc_id: DocId },
    /// `rget STORE ID`: a record.
    Record { doc_id: DocId },
    /// `iter STORE`, and then any number of ` ID`: the documents but for those.
    Documents { deleted: Vec<DocId> },
    /// `dump STORE`: each document with its id, by a reader of its own.
    Dump,
    /// `hex STORE`: the file.
    File,
    /// `open STORE CAPACITY`: the store opened again, with a cache of this many blocks.
    Open { capacity: usize },
    /// `stats STORE`: what its cache did.
    Stats,
    /// `usage STORE`: how many bytes its parts take.
    Usage,
    /// `marks STORE`: where its blocks lie.
    Checkpoints,
}

/// Why a line is no command.
#[derive(Drop)]
pub enum LineFault {
    /// It has none of the forms.
    Bad,
    /// What it says finds no memory.
    Memory,
}

impl From<NoMemory> for LineFault {
    fn from(_: NoMemory) -> LineFault {
        LineFault::Memory
    }
}

impl<T: Drop> From<AllocFailed<T>> for LineFault {
    fn from(_: AllocFailed<T>) -> LineFault {
        LineFault::Memory
    }
}

// A number below 2^64.
fn number(word: &str) -> Result<u64, LineFault> {
    let digits = word.as_bytes();
    let spelled = digits.iter().all(|digit| digit.is_ascii_digit());
    if !spelled || (digits.len() > 1 && digits.starts_with(b"0")) {
        return Err(LineFault::Bad);
    }
    word.parse::<u64>().map_err(|_| LineFault::Bad)
}

// A number below 2^32.
fn short_number(word: &str) -> Result<u32, LineFault> {
    u32::try_from(number(word)?).map_err(|_| LineFault::Bad)
}

fn period_of(word: &str) -> Result<Period, LineFault> {
    match u8::try_from(number(word)?) {
        Ok(value) if 2 <= value && value <= 64 => Ok(Period { value }),
        _ => Err(LineFault::Bad),
    }
}

fn bytes_of(alloc: Global, word: &str) -> Result<Vec<u8>, LineFault> {
    if word == "-" {
        return Ok(Vec::new(alloc));
    }
    if word.is_empty() {
        return Err(LineFault::Bad);
    }
    match hex::decode(alloc, word.as_bytes()) {
        Ok(bytes) => Ok(bytes),
        Err(FromHexError::OutOfMemory) => Err(LineFault::Memory),
        Err(_) => Err(LineFault::Bad),
    }
}

// Pairs of a field and its bytes.
fn record_of(alloc: Global, words: &str) -> Result<RecordDocument, LineFault> {
    let mut record = RecordDocument::new(alloc);
    let mut open_field = None;
    for word in words.split(' ') {
        match open_field.take() {
            None => open_field = Some(Field::from_field_id(short_number(word)?)),
            Some(field) => record.add(field, &bytes_of(alloc, word)?)?,
        }
    }
    match open_field {
        None => Ok(record),
        Some(_) => Err(LineFault::Bad),
    }
}

// A store, and the ids that are deleted in it.
fn documents_of(alloc: Global, words: &str) -> Result<Command, LineFault> {
    let mut store = None;
    let mut deleted = Vec::new(alloc);
    for word in words.split(' ') {
        let number = short_number(word)?;
        match store {
            None => store = Some(number),
            Some(_) => deleted.push(number)?,
        }
    }
    match store {
        Some(store) => Ok(Command::Ask {
            store,
            question: Question::Documents { deleted },
        }),
        None => Err(LineFault::Bad),
    }
}

// A block size, and at least one store.
fn merge_of(alloc: Global, words: &str) -> Result<Command, LineFault> {
    let mut block_size = None;
    let mut stores = Vec::new(alloc);
    for word in words.split(' ') {
        match block_size {
            None => block_size = Some(number(word)? as usize),
            Some(_) => stores.push(short_number(word)?)?,
        }
    }
    match block_size {
        Some(block_size) if !stores.is_empty() => Ok(Command::Merge { block_size, stores }),
        _ => Err(LineFault::Bad),
    }
}

fn ask(store: &str, question: Question) -> Result<Command, LineFault> {
    Ok(Command::Ask {
        store: short_number(store)?,
        question,
    })
}

// A command of one word after its name.
fn with_word(alloc: Global, name: &str, word: &str) -> Result<Command, LineFault> {
    match name {
        "new" => Ok(Command::New {
            block_size: number(word)? as usize,
            period: Period {
                value: USUAL_PERIOD,
            },
        }),
        "put" => Ok(Command::Put {
            document: bytes_of(alloc, word)?,
        }),
        "load" => Ok(Command::Load {
            file: bytes_of(alloc, word)?,
        }),
        "stack" => Ok(Command::Stack {
            store: short_number(word)?,
        }),
        "dump" => ask(word, Question::Dump),
        "hex" => ask(word, Question::File),
        "stats" => ask(word, Question::Stats),
        "usage" => ask(word, Question::Usage),
        "marks" => ask(word, Question::Checkpoints),
        _ => Err(LineFault::Bad),
    }
}

// A command of two words after its name.
fn with_words(name: &str, first: &str, second: &str) -> Result<Command, LineFault> {
    match name {
        "new" => Ok(Command::New {
            block_size: number(first)? as usize,
            period: period_of(second)?,
        }),
        "get" => {
            let doc_id = short_number(second)?;
            ask(first, Question::Document { doc_id })
        }
        "rget" => {
            let doc_id = short_number(second)?;
            ask(first, Question::Record { doc_id })
        }
        "open" => {
            let capacity = number(second)? as usize;
            ask(first, Question::Open { capacity })
        }
        _ => Err(LineFault::Bad),
    }
}

// A command of a fixed number of words.
fn with_few_words(alloc: Global, line: &str) -> Result<Command, LineFault> {
    let mut words = line.split(' ');
    let name = words.next().unwrap_or("");
    match (words.next(), words.next(), words.next()) {
        (None, _, _) if name == "close" => Ok(Command::Close),
        (Some(word), None, _) => with_word(alloc, name, word),
        (Some(first), Some(second), None) => with_words(name, first, second),
        _ => Err(LineFault::Bad),
    }
}

/// The command of a line, without the byte that ends it.
pub fn parse(alloc: Global, line: &str) -> Result<Command, LineFault> {
    if line == "rec" {
        let record = RecordDocument::new(alloc);
        return Ok(Command::Record { record });
    }
    if let Some(words) = line.strip_prefix("rec ") {
        let record = record_of(alloc, words)?;
        return Ok(Command::Record { record });
    }
    if let Some(words) = line.strip_prefix("merge ") {
        return merge_of(alloc, words);
    }
    match line.strip_prefix("iter ") {
        Some(words) => documents_of(alloc, words),
        None => with_few_words(alloc, line),
    }
}

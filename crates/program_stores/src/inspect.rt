//! `inspect`: prints what a store has, or draws it on a page of HTML.

use crate::inspect_words::print_store;
use clap::{ArgMatches, Command};
use docstore::{DataPart, FOOTER_LEN, StoreError, TerminatingWrite, block_read_index};
use program_base::arguments;
use program_base::command_words::{Argument, command_of};
use program_base::failure::{Failure, FailureCause, with_file};
use program_base::output_path::{FileOutput, OutputPath};
use program_base::store_file::{DiskReader, StorePath, store_path, with_reason};
use std::alloc::{AllocError, Global};
use std::fs;
use store_commands::block_documents::documents_with_room;
use store_commands::store_numbers::{StoreNumbers, block_sizes, numbers_of};
use store_files::{ReadAt, SystemFiles};
use store_page::{Beginning, BlockStarts, Excerpt, Histogram, MOST_EXCERPTS, Page, excerpt_bytes};

const EXAMPLE: &str = "\
Prints the numbers of the store, and the beginning of the first document of each block, up to 1000 of them: at most 60
bytes, as text in quotation marks or as hexadecimal digits. With OUT it draws them on a page of HTML.

Examples:
  zevkhadun inspect words.store | less
  zevkhadun inspect words.store words.html     one self-contained file, for any browser";

/// The words of `inspect`.
pub fn command<'a>(alloc: Global) -> Result<Command<'a>, AllocError> {
    command_of(
        alloc,
        "inspect",
        "Print what a store has, or draw it on a page of HTML",
        EXAMPLE,
        &[
            arguments::input(),
            Argument::OptionalWord {
                id: "OUT",
                help: "Page of HTML to write; a file that exists is refused, unless with --replace",
            },
            Argument::OptionAgainst {
                id: "html",
                value: "OUT",
                others: &["OUT"],
                help: "The same as OUT",
            },
            arguments::replace(),
            arguments::tantivy(),
        ],
    )
}

// The documents of a store: how their sizes spread, how many are damaged, and how the first one of each block begins.
#[derive(Drop)]
struct Documents {
    spread: Histogram,
    damaged: u64,
    excerpts: Vec<Excerpt>,
    excerpt_bytes: usize,
}

// The first document of a block.
fn excerpt_of(alloc: Global, block: &DataPart, most: usize) -> Result<Excerpt, AllocError> {
    let bytes = block.bytes.as_slice();
    let beginning = match block_read_index(bytes, 0) {
        Some(place) => Some(Beginning::new(alloc, &bytes[place], most)?),
        None => None,
    };
    Ok(Excerpt {
        document: block.ids.start,
        beginning,
    })
}

impl Documents {
    // Of a store with this many blocks, before any is read.
    fn new(alloc: Global, blocks: usize) -> Documents {
        Documents {
            spread: Histogram::new(),
            damaged: 0,
            excerpts: Vec::new(alloc),
            excerpt_bytes: excerpt_bytes(blocks),
        }
    }

    // Keeps the first document of a block, as long as the page shows one more.
    fn keep_first(&mut self, alloc: Global, block: &DataPart) -> Result<(), AllocError> {
        if self.excerpts.len() < MOST_EXCERPTS {
            let excerpt = excerpt_of(alloc, block, self.excerpt_bytes)?;
            self.excerpts.push(excerpt)?;
        }
        Ok(())
    }

    // Counts the documents of a block. Those that its table has no room for are damaged.
    fn add_block(&mut self, block: &DataPart) {
        let documents = block.ids.end.saturating_sub(block.ids.start);
        let with_room = documents_with_room(block.bytes.as_slice(), documents);
        let without_room = u64::from(documents.saturating_sub(with_room));
        self.damaged = self.damaged.saturating_add(without_room);
        for position in 0..with_room {
            match block_read_index(block.bytes.as_slice(), position) {
                Some(range) => self.spread.add(range.len() as u64),
                None => self.damaged = self.damaged.saturating_add(1),
            }
        }
    }
}

// The documents of an opened store.
fn documents_of<F: ReadAt>(
    alloc: Global,
    reader: &mut DiskReader<F>,
) -> Result<Documents, StoreError> {
    let mut documents = Documents::new(alloc, reader.num_blocks());
    let mut next_id = 0;
    // Each block has a document.
    for _ in 0..reader.num_docs() {
        let Some(block) = reader.read_block(alloc, next_id)? else {
            break;
        };
        documents.add_block(&block);
        documents.keep_first(alloc, &block)?;
        next_id = block.ids.end;
    }
    Ok(documents)
}

// How the blocks' sizes spread.
fn spread_of(sizes: &[usize]) -> Histogram {
    let mut spread = Histogram::new();
    for size in sizes {
        spread.add(*size as u64);
    }
    spread
}

// The first document of each block of a store.
fn starts_of<F: ReadAt>(alloc: Global, reader: &DiskReader<F>) -> Result<BlockStarts, StoreError> {
    let mut starts = Vec::new(alloc);
    for checkpoint in reader.block_checkpoints() {
        starts.push(checkpoint.doc_range.start)?;
    }
    Ok(BlockStarts::new(starts, reader.num_docs()))
}

// The numbers that a page shows, each with its name.
fn named(numbers: &StoreNumbers, damaged: u64) -> [(&'static str, u64); 11] {
    [
        ("version", u64::from(numbers.version)),
        ("period", u64::from(numbers.period)),
        ("documents", u64::from(numbers.documents)),
        ("damaged documents", damaged),
        ("blocks", numbers.blocks as u64),
        ("layers", u64::from(numbers.layers)),
        ("bytes of data", numbers.data_bytes),
        ("bytes of index", numbers.index_bytes),
        ("bytes of the smallest block", numbers.smallest_block as u64),
        ("bytes of the median block", numbers.median_block as u64),
        ("bytes of the largest block", numbers.largest_block as u64),
    ]
}

// The page on an opened store of this name, whose file has this many bytes.
fn page_on<F: ReadAt>(
    alloc: Global,
    name: &str,
    file_bytes: u64,
    reader: &mut DiskReader<F>,
) -> Result<String, FailureCause> {
    let documents = documents_of(alloc, reader)?;
    let sizes = block_sizes(alloc, &**reader)?;
    let spread = spread_of(&sizes);
    let numbers = numbers_of(&**reader, sizes);
    let starts = starts_of(alloc, reader)?;
    let mut page = String::new(alloc);
    Page {
        name,
        numbers: &named(&numbers, documents.damaged),
        data_bytes: numbers.data_bytes,
        index_bytes: numbers.index_bytes,
        footer_bytes: FOOTER_LEN,
        period: numbers.period,
        layers: numbers.layers,
        starts: &starts,
        block_sizes: &spread,
        document_sizes: &documents.spread,
        file_bytes,
        excerpts: documents.excerpts.as_slice(),
    }
    .push_to(&mut page)?;
    Ok(page)
}

// The page on a store.
fn page_of<S: SystemFiles>(
    rt: &HostRuntime,
    system: &S,
    store: StorePath<'_>,
) -> Result<String, FailureCause> {
    let mut reader = store.reader(rt.alloc(), system)?;
    let file_bytes = fs::metadata(rt, store.path)?.len();
    let page = page_on(rt.alloc(), store.path, file_bytes, &mut reader);
    with_reason(&reader, page)
}

// Writes the page.
fn write_page<S: SystemFiles>(sink: &mut FileOutput<S>, page: &str) -> Result<(), FailureCause> {
    if sink.write_all(page.as_bytes()).is_ok() && sink.terminate().is_ok() {
        return Ok(());
    }
    match sink.last_error() {
        Some(error) => Err(FailureCause::of_output(error)),
        None => Err(FailureCause::Store(StoreError::Memory)),
    }
}

// Draws a store on the page of this name, which is begun before the store is read.
fn draw<S: SystemFiles>(
    rt: &HostRuntime,
    system: S,
    store: StorePath<'_>,
    output: OutputPath<'_>,
) -> Result<(), Failure> {
    let alloc = rt.alloc();
    output.check_name(alloc, "a page can't be written to standard output")?;
    output.check_inputs(rt, &[store.path])?;
    let mut sink = with_file(alloc, output.path, output.sink(alloc, system))?;
    let page = page_of(rt, sink.folder().system(), store);
    let page = with_file(alloc, store.path, page)?;
    with_file(alloc, output.path, write_page(&mut sink, page.as_str()))
}

/// Writes the page, or prints what the store has.
pub fn run<S: SystemFiles>(
    rt: &HostRuntime,
    system: S,
    matches: &ArgMatches<'_>,
) -> Result<(), Failure> {
    let store = store_path(rt, matches)?;
    match matches.get_str("html").or(matches.get_str("OUT")) {
        Some(path) => {
            let replaces = matches.get_flag("replace");
            draw(rt, system, store, OutputPath { path, replaces })
        }
        None => with_file(rt.alloc(), store.path, print_store(rt, &system, store)),
    }
}

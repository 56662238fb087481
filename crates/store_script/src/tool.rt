//! The writer and the stores that a script works on.
use crate::answer::{write_error, write_no_answer};
use crate::command::{Command, LineFault, Period, parse};
use crate::fault::ToolFault;
use crate::merging::merge_named;
use crate::store::{Store, boxed};
use docstore::{Compressor, MemSink, RecordDocument, Schema, StoreError, StoreWriter};
use std::alloc::Global;
use std::io::Write;

// How many fields records may have.
const FIELDS: u32 = 4;

/// At most one open writer, and stores numbered from 0 in the order in which they came.
#[derive(Drop)]
pub struct Tool {
    alloc: Global,
    writer: Option<Box<StoreWriter<MemSink>>>,
    stores: Vec<Store>,
}

// What a document was answered with: its id, or the refusal.
fn write_id<W: Write>(
    output: &mut W,
    doc_id: u32,
    stored: Result<(), StoreError>,
) -> Result<(), ToolFault> {
    match stored {
        Ok(()) => writeln!(output, "id {doc_id}")?,
        Err(error) => write_error(output, error)?,
    }
    Ok(())
}

// A word alone on its line.
fn write_word<W: Write>(output: &mut W, word: &str) -> Result<(), ToolFault> {
    writeln!(output, "{word}")?;
    Ok(())
}

impl Tool {
    pub fn new(alloc: Global) -> Tool {
        Tool {
            alloc,
            writer: None,
            stores: Vec::new(alloc),
        }
    }

    /// Answers a line.
    pub fn answer<W: Write>(&mut self, line: &[u8], output: &mut W) -> Result<(), ToolFault> {
        let Ok(text) = str::from_utf8(line) else {
            return write_word(output, "bad");
        };
        match parse(self.alloc, text) {
            Ok(command) => self.obey(command, output),
            Err(LineFault::Memory) => Err(ToolFault::Memory),
            Err(LineFault::Bad) => write_word(output, "bad"),
        }
    }

    fn obey<W: Write>(&mut self, command: Command, output: &mut W) -> Result<(), ToolFault> {
        match command {
            Command::New { block_size, period } => self.open_writer(block_size, period, output),
            Command::Put { document } => self.put(&document, output),
            Command::Record { record } => self.put_record(&record, output),
            Command::Stack { store } => self.stack(store, output),
            Command::Close => self.close(output),
            Command::Load { file } => self.add(file, output),
            Command::Merge { block_size, stores } => self.merge(block_size, &stores, output),
            Command::Ask { store, question } => match self.stores.get_mut(store as usize) {
                Some(store) => store.answer(self.alloc, question, output),
                None => write_word(output, "no store"),
            },
        }
    }

    fn open_writer<W: Write>(
        &mut self,
        block_size: usize,
        period: Period,
        output: &mut W,
    ) -> Result<(), ToolFault> {
        if self.writer.is_some() {
            return write_word(output, "busy");
        }
        let writer = StoreWriter::with_period(
            self.alloc,
            MemSink::new(self.alloc),
            Compressor::None,
            block_size,
            period.value,
        );
        self.writer = Some(boxed(self.alloc, writer)?);
        write_word(output, "ok")
    }

    fn put<W: Write>(&mut self, document: &[u8], output: &mut W) -> Result<(), ToolFault> {
        let Some(writer) = &mut self.writer else {
            return write_word(output, "none");
        };
        let doc_id = writer.num_docs();
        write_id(output, doc_id, writer.store_bytes(document))
    }

    fn put_record<W: Write>(
        &mut self,
        record: &RecordDocument,
        output: &mut W,
    ) -> Result<(), ToolFault> {
        let Some(writer) = &mut self.writer else {
            return write_word(output, "none");
        };
        let doc_id = writer.num_docs();
        let stored = writer.store(record, &Schema::with_fields(FIELDS));
        write_id(output, doc_id, stored)
    }

    fn stack<W: Write>(&mut self, store: u32, output: &mut W) -> Result<(), ToolFault> {
        let Some(writer) = &mut self.writer else {
            return write_word(output, "none");
        };
        let Some(store) = self.stores.get_mut(store as usize) else {
            return write_word(output, "no store");
        };
        match writer.stack(store.reader()) {
            Ok(()) => write_word(output, "ok"),
            Err(error) => write_error(output, error),
        }
    }

    fn close<W: Write>(&mut self, output: &mut W) -> Result<(), ToolFault> {
        let Some(writer) = self.writer.take() else {
            return write_word(output, "none");
        };
        match Box::into_inner(writer).close() {
            Ok(sink) => self.add(sink.into_bytes(), output),
            Err(refusal) => write_error(output, refusal.error),
        }
    }

    // An open writer and the stores that are named stay as they are.
    fn merge<W: Write>(
        &mut self,
        block_size: usize,
        stores: &[u32],
        output: &mut W,
    ) -> Result<(), ToolFault> {
        let count = self.stores.len();
        if stores.iter().any(|store| *store as usize >= count) {
            return write_word(output, "no store");
        }
        match merge_named(self.alloc, block_size, &self.stores, stores) {
            Ok(file) => self.add(file, output),
            Err(why) => write_no_answer(output, why),
        }
    }

    // Opens a file as the next store.
    fn add<W: Write>(&mut self, file: Vec<u8>, output: &mut W) -> Result<(), ToolFault> {
        let store = match Store::open(self.alloc, file) {
            Ok(store) => store,
            Err(why) => return write_no_answer(output, why),
        };
        let number = self.stores.len();
        let len = store.file.len();
        if self.stores.push(store).is_err() {
            return Err(ToolFault::Memory);
        }
        writeln!(output, "store {number} {len}")?;
        Ok(())
    }
}

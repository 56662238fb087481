//! A store in memory, and its answers.
ghost use Rattle.std.specs.Prelude.{◌≡◌, ◌≤◌, IfOk, IfSome, length};

use crate::answer::{
    write_bytes, write_document, write_documents, write_error, write_no_answer, write_record,
};
use crate::command::Question;
use crate::fault::{NoAnswer, ToolFault};
use docstore::{AliveBitSet, DocId, FileSlice, MemFile, NoMemory, RecordDocument, StoreReader};
use std::alloc::{AllocError, Global};
use std::io::Write;

/// A reader of a file in memory. It stands in a box, since each function that owns its parts is proved to drop them.
pub type MemReader = Box<StoreReader<MemFile>>;

/// An opened store, and its file.
#[derive(Drop)]
pub struct Store {
    pub file: Vec<u8>,
    reader: MemReader,
}

/// Puts a value into a box.
pub fn boxed<T: Drop>(alloc: Global, value: T) -> Result<Box<T>, AllocError> {
    Ok(Box::new(alloc, value)?)
}

/// Opens a file of these bytes, with a cache of this many blocks.
pub fn open_bytes(alloc: Global, bytes: Vec<u8>, capacity: usize) -> Result<MemReader, NoAnswer> {
    let file = FileSlice::new(MemFile::new(alloc, bytes)?);
    match StoreReader::open(alloc, file, capacity) {
        Ok(reader) => Ok(boxed(alloc, reader)?),
        Err(refusal) => Err(NoAnswer::Store(refusal.error)),
    }
}

// All documents but those that are deleted. Where none is, there is no set, which would take memory for each document
// that the file claims to have.
fn set_without(
    alloc: Global,
    deleted: &[DocId],
    num_docs: u32,
) -> Result<Option<AliveBitSet>, NoMemory>
    ensures { IfOk result (λ set. IfSome set (λ alive. length alive ≡ num_docs)) }
{
    if deleted.is_empty() {
        return Ok(None);
    }
    Ok(Some(AliveBitSet::from_deleted_docs(alloc, deleted, num_docs)?))
}

impl Store {
    /// Opens a file, of which a copy is kept, with no cache.
    pub fn open(alloc: Global, file: Vec<u8>) -> Result<Store, NoAnswer> {
        let reader = open_bytes(alloc, Vec::from_slice(alloc, &file)?, 0)?;
        Ok(Store { file, reader })
    }

    /// The reader that is kept.
    pub fn reader(&mut self) -> &mut StoreReader<MemFile> {
        &mut self.reader
    }

    /// The same store, opened again.
    pub fn reopen(&self, alloc: Global, capacity: usize) -> Result<MemReader, NoAnswer> {
        open_bytes(alloc, Vec::from_slice(alloc, &self.file)?, capacity)
    }

    /// Answers a question.
    pub fn answer<W: Write>(
        &mut self,
        alloc: Global,
        question: Question,
        output: &mut W,
    ) -> Result<(), ToolFault> {
        match question {
            Question::Document { doc_id } => {
                write_document(alloc, output, self.reader.get_document_bytes(alloc, doc_id))
            }
            Question::Record { doc_id } => self.show_record(alloc, doc_id, output),
            Question::Documents { deleted } => self.iterate(alloc, &deleted, output),
            Question::Dump => self.dump(alloc, output),
            Question::File => write_bytes(alloc, output, &self.file),
            Question::Open { capacity } => self.open_again(alloc, capacity, output),
            Question::Stats => self.show_stats(output),
            Question::Usage => self.show_usage(output),
            Question::Checkpoints => self.show_checkpoints(output),
        }
    }

    fn show_record<W: Write>(
        &mut self,
        alloc: Global,
        doc_id: DocId,
        output: &mut W,
    ) -> Result<(), ToolFault> {
        match self.reader.get::<RecordDocument>(alloc, doc_id) {
            Ok(record) => write_record(alloc, output, &record),
            Err(error) => write_error(output, error),
        }
    }

    // The documents that aren't deleted, and then `end`.
    fn iterate<W: Write>(
        &mut self,
        alloc: Global,
        deleted: &[DocId],
        output: &mut W,
    ) -> Result<(), ToolFault> {
        let alive = set_without(alloc, deleted, self.reader.num_docs())?;
        for document in self.reader.iter_raw(alloc, alive.as_ref()) {
            write_document(alloc, output, document)?;
        }
        writeln!(output, "end")?;
        Ok(())
    }

    fn dump<W: Write>(&mut self, alloc: Global, output: &mut W) -> Result<(), ToolFault> {
        match self.reopen(alloc, 0) {
            Ok(mut reader) => write_documents(alloc, output, &mut reader),
            Err(why) => write_no_answer(output, why),
        }
    }

    fn open_again<W: Write>(
        &mut self,
        alloc: Global,
        capacity: usize,
        output: &mut W,
    ) -> Result<(), ToolFault> {
        match self.reopen(alloc, capacity) {
            Ok(reader) => self.reader = reader,
            Err(why) => return write_no_answer(output, why),
        }
        writeln!(output, "ok")?;
        Ok(())
    }

    fn show_stats<W: Write>(&self, output: &mut W) -> Result<(), ToolFault> {
        let stats = self.reader.cache_stats();
        write!(
            output,
            "entries {} hits {} misses {} lru ",
            stats.num_entries, stats.cache_hits, stats.cache_misses
        )?;
        match self.reader.peek_lru() {
            Some(place) => writeln!(output, "{place}")?,
            None => writeln!(output, "none")?,
        }
        Ok(())
    }

    fn show_usage<W: Write>(&self, output: &mut W) -> Result<(), ToolFault> {
        let usage = self.reader.space_usage();
        writeln!(
            output,
            "data {} offsets {} total {}",
            usage.data_usage(),
            usage.offsets_usage(),
            usage.total()
        )?;
        Ok(())
    }

    fn show_checkpoints<W: Write>(&self, output: &mut W) -> Result<(), ToolFault> {
        for checkpoint in self.reader.block_checkpoints() {
            writeln!(output, "{checkpoint:?}")?;
        }
        writeln!(output, "end")?;
        Ok(())
    }
}

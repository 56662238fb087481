//! Writes a store.

ghost use Rattle.std.specs.Prelude.{◌≡◌, ◌+◌, ◌-◌, ◌*◌, ◌<◌, ◌≤◌, ◌↔◌, ◌^◌, ◌⊎◌, [], ◌++◌, length, true, None};
ghost use Rattle.std.specs.Prelude.{is_some, OnOk, IfOk, IfErr, IfSome, IsErrOf, MatchResult};
ghost use Rattle.std.specs.List.{concat};
ghost use Rattle.store_format.specs.StoreFile.{docs_in, file, IsStore};
ghost use Rattle.store_base.specs.Outputs.{terminated_once};
ghost use Rattle.docstore.specs.BlockOutput.{new_output, with_blocks, with_risen, IsSound, FailsFor};
ghost use Rattle.docstore.specs.BlockOutput.{AfterFailedBlock, AfterClose};
ghost use Rattle.docstore.specs.Trace.{weight};
ghost use Rattle.docstore.specs.Writer.{new_writing, num_docs, blocks_of, flushed, flushed_if_full, with_document};
ghost use Rattle.docstore.specs.Writer.{with_failures, HasIdLeft, HasNoIdLeft, IsTooLarge, HasTooMuch, IsStoreWriter};
ghost use Rattle.docstore.specs.Writer.{StoresDocument, AfterRefusal, AfterDocument};

mod stacking;

use crate::close_error::CloseError;
use crate::current_block::CurrentBlock;
use crate::store_compressor::BlockCompressor;
use layered_index::{CHECKPOINT_PERIOD, USUAL_PERIOD};
use std::alloc::Global;
use std::marker::Model;
use std::mem;
use store_base::{Cause, Document, Schema, StoreError, TerminatingWrite};
use store_format::Compressor;

/// Writes a store. Blocks are written while documents are added; the index stays in memory until `close`.
#[derive(Drop)]
pub struct StoreWriter<W: TerminatingWrite> {
    block_size: usize,
    current_block: CurrentBlock,
    block_compressor: BlockCompressor<W>,
}

/// Clauses see the block size, the pending documents, and the finished blocks with the output.
impl<W: TerminatingWrite> Model for StoreWriter<W> {
    ghost use Rattle.docstore.specs.Writer.{Writing, IsStoreWriter};

    ghost Value = { Writing };

    ghost view = { λ s. record { block_size = s.block_size; pending = s.current_block; output = s.block_compressor } };

    ghost invariant = { λ s. IsStoreWriter
        (record { block_size = s.block_size; pending = s.current_block; output = s.block_compressor }) };
}

impl<W: TerminatingWrite> StoreWriter<W> {
    /// A writer of no documents yet, with an index of the usual period. It takes no memory.
    pub fn new(
        alloc: Global,
        output: W,
        compressor: Compressor,
        block_size: usize,
    ) -> StoreWriter<W>
        ensures writer { result ≡ new_writing block_size (new_output compressor CHECKPOINT_PERIOD
            (W.content output) (W.termination output) (W.failures output)) }
        ensures sound { IsStoreWriter result }
    {
        StoreWriter::with_period(alloc, output, compressor, block_size, USUAL_PERIOD)
    }

    /// The same with an index of this period.
    pub fn with_period(
        alloc: Global,
        output: W,
        compressor: Compressor,
        block_size: usize,
        period: u8,
    ) -> StoreWriter<W>
        requires least { 2 ≤ period }
        requires most { period ≤ 64 }
        ensures writer { result ≡ new_writing block_size (new_output compressor period
            (W.content output) (W.termination output) (W.failures output)) }
        ensures sound { IsStoreWriter result }
    {
        StoreWriter {
            block_size,
            current_block: CurrentBlock::new(alloc),
            block_compressor: BlockCompressor::with_period(alloc, compressor, output, period),
        }
    }

    /// How blocks are packed.
    pub fn compressor(&self) -> Compressor
        ensures { result ≡ self.now.output.compressor }
    {
        self.block_compressor.compressor()
    }

    /// How many documents were taken. Those that were pending when the writer failed aren't counted.
    pub fn num_docs(&self) -> u32
        ensures count { result ≡ num_docs self.now }

        // What every writer keeps, wherever it comes from.
        ensures sound { IsStoreWriter self.now }
    {
        self.block_compressor.num_docs() + self.current_block.len()
    }

    /// How many blocks the store has once it is closed: those that are finished, and one more if documents are pending.
    pub fn num_blocks(&self) -> u32
        ensures { result ≡ length (flushed self.now).output.finished }
    {
        let finished = self.block_compressor.num_blocks();
        if self.current_block.len() == 0 {
            return finished;
        }
        finished + 1
    }

    /// Whether a call has failed for good.
    pub fn has_failed(&self) -> bool
        ensures { result ≡ is_some self.now.output.failure }
    {
        self.block_compressor.failure().is_some()
    }

    /// A lower bound of the memory that is taken, in bytes.
    pub fn mem_usage(&self) -> usize
        ensures { length (concat self.now.pending) + 4 * length self.now.pending ≤ result }
    {
        self.current_block.mem_usage()
    }

    // Refuses where the writer has failed, and where there is no id for one more document. It runs for each document,
    // and takes fewer instructions so than by `check_works`.
    fn check_id_left(&self) -> Result<(), StoreError>
        ensures { MatchResult result (λ _. HasIdLeft self.now) (HasNoIdLeft self.now) }
    {
        if let Some(cause) = self.block_compressor.failure() {
            return Err(StoreError::from(cause));
        }
        if self.num_docs() == u32::MAX {
            return Err(StoreError::TooManyDocs);
        }
        Ok(())
    }

    /// Stores a document. Its id is `num_docs` before the call.
    ///
    /// It is pending as the bytes that it writes, and is written as in `store_bytes`. A document that is
    /// refused leaves the writer as it was, whatever it had written.
    pub fn store<D: Document>(&mut self, document: &D, schema: &Schema) -> Result<(), StoreError>
        ensures stored { OnOk result (StoresDocument (D.doc_bytes document.now schema.now) self.old self.new) }

        // Each cause, where none above it holds.
        ensures failed { IfSome self.old.output.failure (λ cause. IsErrOf result (StoreError.Failed cause)) }
        ensures too_many { IsErrOf result StoreError.TooManyDocs
            ↔ ((self.old.output.failure ≡ None) × (num_docs self.old ≡ 2 ^ 32 - 1)) }
        ensures unserializable { IsErrOf result StoreError.Unserializable
            → HasIdLeft self.old × (D.doc_bytes document.now schema.now ≡ None) }
        ensures too_large { IsErrOf result StoreError.BlockTooLarge
            → HasTooMuch self.old (D.doc_bytes document.now schema.now) }

        // The last two come, unless memory runs out before.
        ensures no_bytes { HasIdLeft self.old → D.doc_bytes document.now schema.now ≡ None
            → IsErrOf result StoreError.Unserializable ⊎ IsErrOf result StoreError.Memory }
        ensures too_much { HasTooMuch self.old (D.doc_bytes document.now schema.now)
            → IsErrOf result StoreError.BlockTooLarge ⊎ IsErrOf result StoreError.Memory }

        // So a document of fewer bytes is never too large.
        ensures limit { IfSome (D.doc_bytes document.now schema.now) (λ bytes.
            IsErrOf result StoreError.BlockTooLarge → 2 ^ 32 ≤ self.old.block_size + length bytes + 8) }

        // After an error: as it was, or failed for good.
        ensures err { IfErr result (AfterDocument self.old self.new) }

        ensures termination { self.new.output.termination ≡ self.old.output.termination }
        ensures count { self.old.output.failures ≤ self.new.output.failures }
        ensures steady { IsErrOf result (StoreError.Failed Cause.Write)
            ⊎ (self.new.output.failures ≡ self.old.output.failures) }
        ensures sound { IsStoreWriter self.new }
    {
        self.check_id_left()?;
        self.current_block.push_document(document, schema)?;
        flush_if_full(
            &mut self.current_block,
            &mut self.block_compressor,
            self.block_size,
        )?;
        Ok(())
    }

    /// Stores a document that is bytes already. Its id is `num_docs` before the call.
    ///
    /// The document waits in memory. Once the waiting documents exceed the block size, with eight
    /// bytes for each beside its own, they are written as one block.
    ///
    /// After `Failed` the writer returns only `Failed`, and `close` returns the output. Any other error leaves it as it
    /// was.
    pub fn store_bytes(&mut self, document: &[u8]) -> Result<(), StoreError>
        ensures stored { OnOk result (self.new
            ≡ with_failures self.new.output.failures (with_document self.old document.now)) }

        // Each cause, where none above it holds.
        ensures failed { IfSome self.old.output.failure (λ cause. IsErrOf result (StoreError.Failed cause)) }
        ensures too_many { IsErrOf result StoreError.TooManyDocs
            ↔ ((self.old.output.failure ≡ None) × (num_docs self.old ≡ 2 ^ 32 - 1)) }
        ensures too_large { IsErrOf result StoreError.BlockTooLarge ↔ IsTooLarge self.old document.now }

        // So a document of fewer bytes is never too large.
        ensures limit { IsErrOf result StoreError.BlockTooLarge
            → 2 ^ 32 ≤ self.old.block_size + length document.now + 8 }

        // After an error: as it was, or failed for good.
        ensures err { IfErr result (AfterRefusal self.old self.new) }

        ensures termination { self.new.output.termination ≡ self.old.output.termination }
        ensures count { self.old.output.failures ≤ self.new.output.failures }
        ensures steady { IsErrOf result (StoreError.Failed Cause.Write)
            ⊎ (self.new.output.failures ≡ self.old.output.failures) }
        ensures sound { IsStoreWriter self.new }
    {
        self.check_id_left()?;
        self.current_block.push(document)?;
        flush_if_full(
            &mut self.current_block,
            &mut self.block_compressor,
            self.block_size,
        )?;
        Ok(())
    }

    /// Writes the pending documents, the index and the footer, and ends the output: once, after all that
    /// was written. No other call ends it.
    ///
    /// `Memory` means that no byte of this call was written.
    pub fn close(self) -> Result<W, CloseError<W>>
        ensures file { IfOk result (λ output. W.content output
            ≡ self.output.before ++ file self.output.period 3 (flushed self).output.finished) }
        ensures store { OnOk result (IsStore self.output.period
            (file self.output.period 3 (flushed self).output.finished) 3 (flushed self).output.finished) }
        ensures terminated { IfOk result (λ output. W.termination output
            ≡ terminated_once true (W.content output) self.output.termination) }
        ensures works { OnOk result (self.output.failure ≡ None) }
        ensures err { IfErr result (λ e.
            AfterClose e.error self.output (W.content e.output) (W.termination e.output) (W.failures e.output)) }
    {
        let StoreWriter {
            mut current_block,
            mut block_compressor,
            ..
        } = self;
        let is_pending = current_block.len() > 0;
        if flush(&mut current_block, &mut block_compressor).is_err() {
            return block_compressor.close();
        }
        match block_compressor.close() {
            Err(refusal) if is_pending => Err(refusal.after_bytes()),
            closed => closed,
        }
    }
}

// Writes the documents as a block if they exceed the block size.
fn flush_if_full<W: TerminatingWrite>(
    documents: &mut CurrentBlock,
    output: &mut BlockCompressor<W>,
    block_size: usize,
) -> Result<(), Cause>
    requires works { output.old.failure ≡ None }
    requires few { docs_in output.old.finished + length documents.old < 2 ^ 32 }
    requires sound { IsSound output.old }
    ensures flushed { OnOk result (record { block_size = block_size; pending = documents.new; output = output.new }
        ≡ with_failures output.new.failures
        (flushed_if_full (record { block_size = block_size; pending = documents.old; output = output.old }))) }
    ensures err { IfErr result (λ cause. FailsFor cause output.old output.new) }
    ensures light { weight documents.new ≤ block_size }
    ensures few { docs_in output.new.finished + length documents.new < 2 ^ 32 }
    ensures termination { output.new.termination ≡ output.old.termination }
    ensures count { output.old.failures ≤ output.new.failures }
    ensures steady { IsErrOf result Cause.Write ⊎ (output.new.failures ≡ output.old.failures) }
    ensures sound { IsSound output.new }
{
    if documents.weight() > block_size {
        flush(documents, output)
    } else {
        Ok(())
    }
}

// Writes the documents as a block if there are any. None waits afterwards, also where this write fails.
fn flush<W: TerminatingWrite>(
    documents: &mut CurrentBlock,
    output: &mut BlockCompressor<W>,
) -> Result<(), Cause>
    requires few { docs_in output.old.finished + length documents.old < 2 ^ 32 }
    requires sound { IsSound output.old }
    ensures emptied { output.old.failure ≡ None → documents.new ≡ [] }
    ensures written { OnOk result (output.new
        ≡ with_risen output.new.failures (with_blocks output.old (blocks_of documents.old))) }
    ensures works { OnOk result (output.old.failure ≡ None) }
    ensures err { IfErr result (λ cause. AfterFailedBlock output.old.failure cause output.old output.new) }
    ensures termination { output.new.termination ≡ output.old.termination }
    ensures count { output.old.failures ≤ output.new.failures }
    ensures steady { IsErrOf result Cause.Write ⊎ (output.new.failures ≡ output.old.failures) }
    ensures sound { IsSound output.new }
{
    output.check_works()?;
    if documents.len() == 0 {
        return Ok(());
    }
    let block = mem::replace(documents, CurrentBlock::new(output.alloc())).finish();
    let result = output.write_block(block.bytes(), block.num_docs());
    *documents = block.into_empty();
    result
}

//! Writes blocks one after the other, and their index after them.

ghost use Rattle.std.specs.Prelude.{◌≡◌, ◌+◌, ◌<◌, ◌≤◌, ◌^◌, ◌⊎◌, [], ◌∷◌, ◌++◌, length, true, Some, None};
ghost use Rattle.std.specs.Prelude.{OnOk, IfOk, IfErr, IfSome, IsErrOf, MatchResult};
ghost use Rattle.store_format.specs.Footer.{footer, kind_of, unpacks};
ghost use Rattle.layered_index.specs.Layers.{index_part};
ghost use Rattle.store_format.specs.StoreFile.{docs_in, file, reserved_of, IsStore};
ghost use Rattle.store_base.specs.Outputs.{terminated_once};
ghost use Rattle.docstore.specs.BlockOutput.{new_output, with_blocks, with_risen, IsSound, FailsFor, AfterBlock};
ghost use Rattle.docstore.specs.BlockOutput.{AfterClose, IsEndRefusal};

mod stacking;

use crate::block_index::BlockIndex;
use crate::close_error::CloseError;
use layered_index::{CHECKPOINT_PERIOD, Checkpoint, USUAL_PERIOD};
use std::alloc::Global;
use std::marker::Model;
use store_base::{BinarySerializable, Cause, CountingWriter, StoreError, TerminatingWrite};
use store_format::{Compressor, DOC_STORE_VERSION, Decompressor, DocStoreFooter};

/// Writes the blocks of a store to an output.
#[derive(Drop)]
pub struct BlockCompressor<W: TerminatingWrite> {
    alloc: Global,
    compressor: Compressor,
    first_doc_in_block: u32,
    index: BlockIndex,
    writer: CountingWriter<W>,
    failure: Option<Cause>,
}

/// Clauses see the finished blocks, why it has failed, and the output.
impl<W: TerminatingWrite> Model for BlockCompressor<W> {
    ghost use Rattle.docstore.specs.BlockOutput.{BlockOutput, compressing, IsCompressing};

    ghost Value = { BlockOutput };

    ghost view = { λ s. compressing s.compressor s.index.period s.index.checkpoints (W.content s.writer.output)
        s.writer.written (W.termination s.writer.output) (W.failures s.writer.output) s.failure };

    ghost invariant = { λ s. IsCompressing s.index.period s.first_doc_in_block s.index.checkpoints
        (W.content s.writer.output) s.writer.written s.failure };
}

impl<W: TerminatingWrite> BlockCompressor<W> {
    /// A writer of no blocks yet, with an index of the usual period. It takes no memory.
    pub fn new(alloc: Global, compressor: Compressor, output: W) -> BlockCompressor<W>
        ensures output { result ≡ new_output compressor CHECKPOINT_PERIOD
            (W.content output) (W.termination output) (W.failures output) }
        ensures sound { IsSound result }
    {
        BlockCompressor::with_period(alloc, compressor, output, USUAL_PERIOD)
    }

    /// The same with an index of this period.
    pub fn with_period(
        alloc: Global,
        compressor: Compressor,
        output: W,
        period: u8,
    ) -> BlockCompressor<W>
        requires least { 2 ≤ period }
        requires most { period ≤ 64 }
        ensures output { result ≡ new_output compressor period
            (W.content output) (W.termination output) (W.failures output) }
        ensures sound { IsSound result }
    {
        BlockCompressor {
            alloc,
            compressor,
            first_doc_in_block: 0,
            index: BlockIndex::with_period(alloc, period),
            writer: CountingWriter::wrap(output),
            failure: None,
        }
    }

    /// How blocks are packed.
    pub(crate) fn compressor(&self) -> Compressor
        ensures { result ≡ self.now.compressor }
    {
        self.compressor
    }

    /// What its vectors and indexes take memory from.
    pub(crate) fn alloc(&self) -> Global {
        self.alloc
    }

    /// Why it has failed, if it has.
    #[inline]
    pub(crate) fn failure(&self) -> Option<Cause>
        ensures { result ≡ self.now.failure }
    {
        self.failure
    }

    /// Refuses with the cause if it has failed.
    #[inline]
    pub(crate) fn check_works(&self) -> Result<(), Cause>
        ensures works { MatchResult result (λ _. self.now.failure ≡ None) (λ cause. self.now.failure ≡ Some cause) }
        ensures sound { IsSound self.now }
    {
        if let Some(cause) = self.failure {
            return Err(cause);
        }
        Ok(())
    }

    /// How many documents the blocks have.
    pub fn num_docs(&self) -> u32
        ensures { result ≡ docs_in self.now.finished }
    {
        self.first_doc_in_block
    }

    /// How many blocks were written.
    pub fn num_blocks(&self) -> u32
        ensures count { result ≡ length self.now.finished }
        ensures few { result ≤ docs_in self.now.finished }
    {
        self.index.num_blocks() as u32
    }

    /// Writes a block, and then registers its checkpoint.
    ///
    /// After `Failed` every call returns `Failed` with the same cause, and `close` returns the output.
    pub fn compress_block_and_write(
        &mut self,
        bytes: &[u8],
        num_docs_in_block: u32,
    ) -> Result<(), StoreError>
        requires some_bytes { 0 < length bytes.now }
        requires few_bytes { length bytes.now < 2 ^ 32 }
        requires some_docs { 0 < num_docs_in_block }
        requires few_docs { docs_in self.old.finished + num_docs_in_block < 2 ^ 32 }
        ensures written { OnOk result (self.new ≡ with_risen self.new.failures
            (with_blocks self.old (record { count = num_docs_in_block; bytes = bytes.now } ∷ []))) }
        ensures works { OnOk result (self.old.failure ≡ None) }

        // A failed writer returns its cause again and stays as it was.
        ensures failed { IfSome self.old.failure (λ cause.
            IsErrOf result (StoreError.Failed cause) × (self.new ≡ self.old)) }
        ensures err { IfErr result (AfterBlock self.old self.new) }

        ensures termination { self.new.termination ≡ self.old.termination }
        ensures count { self.old.failures ≤ self.new.failures }
        ensures steady { IsErrOf result (StoreError.Failed Cause.Write)
            ⊎ (self.new.failures ≡ self.old.failures) }
        ensures sound { IsSound self.new }
    {
        self.check_works()?;
        self.write_block(bytes, num_docs_in_block)?;
        Ok(())
    }

    /// The same, by a writer that has not failed.
    pub(crate) fn write_block(&mut self, bytes: &[u8], num_docs_in_block: u32) -> Result<(), Cause>
        requires works { self.old.failure ≡ None }
        requires some_bytes { 0 < length bytes.now }
        requires few_bytes { length bytes.now < 2 ^ 32 }
        requires some_docs { 0 < num_docs_in_block }
        requires few_docs { docs_in self.old.finished + num_docs_in_block < 2 ^ 32 }
        ensures written { OnOk result (self.new ≡ with_risen self.new.failures
            (with_blocks self.old (record { count = num_docs_in_block; bytes = bytes.now } ∷ []))) }
        ensures err { IfErr result (λ cause. FailsFor cause self.old self.new) }
        ensures termination { self.new.termination ≡ self.old.termination }
        ensures count { self.old.failures ≤ self.new.failures }
        ensures steady { IsErrOf result Cause.Write ⊎ (self.new.failures ≡ self.old.failures) }
        ensures sound { IsSound self.new }
    {
        let start = self.writer.written_bytes() as usize;
        if self.writer.write_all(bytes).is_err() {
            self.failure = Some(Cause::Write);
            return Err(Cause::Write);
        }
        let first_doc = self.first_doc_in_block;
        let checkpoint = Checkpoint {
            doc_range: first_doc..first_doc + num_docs_in_block,
            byte_range: start..start + bytes.len(),
        };
        if self.index.insert(checkpoint).is_err() {
            self.failure = Some(Cause::Memory);
            return Err(Cause::Memory);
        }
        self.first_doc_in_block = first_doc + num_docs_in_block;
        Ok(())
    }

    /// Writes the index and the footer, and ends the output: once, after all that was written.
    ///
    /// `Memory` means that no byte of this call was written.
    pub fn close(self) -> Result<W, CloseError<W>>
        ensures file { IfOk result (λ output. W.content output ≡ self.before ++ file self.period 3 self.finished) }
        ensures store { OnOk result (IsStore self.period (file self.period 3 self.finished) 3 self.finished) }
        ensures terminated { IfOk result (λ output. W.termination output
            ≡ terminated_once true (W.content output) self.termination) }
        ensures works { OnOk result (self.failure ≡ None) }
        ensures err { IfErr result (λ e.
            AfterClose e.error self (W.content e.output) (W.termination e.output) (W.failures e.output)) }
    {
        let BlockCompressor {
            compressor,
            index,
            mut writer,
            failure,
            ..
        } = self;
        if let Some(cause) = failure {
            return Err(CloseError {
                error: StoreError::Failed(cause),
                output: writer.finish(),
            });
        }
        match write_end(index, compressor, &mut writer) {
            Ok(()) => Ok(writer.finish()),
            Err(error) => Err(CloseError {
                error,
                output: writer.finish(),
            }),
        }
    }
}

// Writes the index and the footer, and ends the output.
fn write_end<W: TerminatingWrite>(
    index: BlockIndex,
    compressor: Compressor,
    writer: &mut CountingWriter<W>,
) -> Result<(), StoreError>
    requires least { 2 ≤ index.period }
    requires most { index.period ≤ 64 }
    ensures ok { OnOk result (W.content writer.new.output ≡ W.content writer.old.output
        ++ index_part index.period index.checkpoints
        ++ footer 3 writer.old.written (kind_of (unpacks compressor)) (reserved_of index.period 3)) }
    ensures terminated { OnOk result (W.termination writer.new.output
        ≡ terminated_once true (W.content writer.new.output) (W.termination writer.old.output)) }
    ensures err { IfErr result (λ e. IsEndRefusal e (W.content writer.old.output) (W.content writer.new.output)
        (W.termination writer.old.output) (W.termination writer.new.output)
        (W.failures writer.old.output) (W.failures writer.new.output)) }
{
    let footer = DocStoreFooter::with_period(
        writer.written_bytes(),
        Decompressor::from(compressor),
        DOC_STORE_VERSION,
        index.period(),
    );
    index.into_builder().serialize_into(writer)?;
    footer.serialize(writer)?;
    writer.terminate()?;
    Ok(())
}

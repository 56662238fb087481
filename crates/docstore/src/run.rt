//! Whole lists of calls.

ghost use Rattle.std.specs.Prelude.{◌≡◌, ◌≤◌, None, true, IfSome, IfOk, IfErr};
ghost use Rattle.store_base.specs.Outputs.{terminated_once};
ghost use Rattle.docstore.specs.Run.{output_state, IsCall, IsKept, AreCommandsKept, IsWritten, AfterRun};
ghost use Rattle.docstore.specs.Writer.{IsStoreWriter, AfterFailed};

use crate::close_error::CloseError;
use crate::writer::StoreWriter;
use layered_index::{CHECKPOINT_PERIOD, USUAL_PERIOD};
use std::alloc::Global;
use store_base::{Document, FileHandle, Schema, StoreError, TerminatingWrite};
use store_format::Compressor;
use store_reader::StoreReader;

/// A call of a writer.
#[derive(Drop)]
pub enum StoreCommand<D: Document, H: FileHandle> {
    /// `StoreWriter::store`
    Doc(D),
    /// `StoreWriter::store_bytes`
    Bytes(Vec<u8>),
    /// `StoreWriter::stack`
    Stack(StoreReader<H>),
}

/// The output of a list of calls, and each call's result.
#[derive(Drop)]
pub struct WriteReport<W> {
    pub output: W,
    pub results: Vec<Result<(), StoreError>>,
}

/// Makes the calls in order on a new writer, and closes it. The error of a call is noted, and the next call is made.
///
/// If `close` is refused, so is the list; this is the case after each call that is `Failed`. Room for the results is
/// taken first: if there is none, no call is made and the output is as it was given. If memory runs out later, the
/// output has the blocks of the calls, each whole, except that the last one may be missing.
pub fn write_store<W: TerminatingWrite, D: Document, H: FileHandle>(
    alloc: Global,
    output: W,
    block_size: usize,
    schema: &Schema,
    commands: &mut [StoreCommand<D, H>],
) -> Result<WriteReport<W>, CloseError<W>>
    ensures written { IfOk result (λ report. IsWritten CHECKPOINT_PERIOD block_size (λ d. D.doc_bytes d schema.now)
        commands.old commands.new report.results.items (W.content output) (W.content report.output)) }
    ensures terminated { IfOk result (λ report. W.termination report.output
        ≡ terminated_once true (W.content report.output) (W.termination output)) }
    ensures err { IfErr result (λ e. AfterRun block_size (λ d. D.doc_bytes d schema.now) commands.old commands.new
        (output_state (W.content output) (W.termination output) (W.failures output))
        (output_state (W.content e.output) (W.termination e.output) (W.failures e.output)) e.error) }

    // Documents and bytes stay, and readers keep their stores.
    ensures kept { AreCommandsKept commands.old commands.new }
{
    write_store_with_period(alloc, output, block_size, USUAL_PERIOD, schema, commands)
}

/// The same with an index of this period.
pub fn write_store_with_period<W: TerminatingWrite, D: Document, H: FileHandle>(
    alloc: Global,
    output: W,
    block_size: usize,
    period: u8,
    schema: &Schema,
    commands: &mut [StoreCommand<D, H>],
) -> Result<WriteReport<W>, CloseError<W>>
    requires least { 2 ≤ period }
    requires most { period ≤ 64 }
    ensures written { IfOk result (λ report. IsWritten period block_size (λ d. D.doc_bytes d schema.now)
        commands.old commands.new report.results.items (W.content output) (W.content report.output)) }
    ensures terminated { IfOk result (λ report. W.termination report.output
        ≡ terminated_once true (W.content report.output) (W.termination output)) }
    ensures err { IfErr result (λ e. AfterRun block_size (λ d. D.doc_bytes d schema.now) commands.old commands.new
        (output_state (W.content output) (W.termination output) (W.failures output))
        (output_state (W.content e.output) (W.termination e.output) (W.failures e.output)) e.error) }
    ensures kept { AreCommandsKept commands.old commands.new }
{
    let Ok(mut results) = Vec::with_capacity(alloc, commands.len()) else {
        return Err(CloseError {
            error: StoreError::Memory,
            output,
        });
    };
    let mut writer = StoreWriter::with_period(alloc, output, Compressor::None, block_size, period);
    for command in commands.iter_mut() {
        results
            .push(make_call(&mut writer, schema, command))
            .unwrap();
    }
    let output = writer.close()?;
    Ok(WriteReport { output, results })
}

// Makes the call.
fn make_call<W: TerminatingWrite, D: Document, H: FileHandle>(
    writer: &mut StoreWriter<W>,
    schema: &Schema,
    command: &mut StoreCommand<D, H>,
) -> Result<(), StoreError>
    requires sound { IsStoreWriter writer.old }
    ensures made { writer.new.output.failure ≡ None
        → IsCall (λ d. D.doc_bytes d schema.now) command.old command.new result writer.old writer.new }
    ensures failed { IfSome writer.new.output.failure (λ cause.
        AfterFailed writer.old.output.failure cause writer.old writer.new) }
    ensures kept { IsKept command.old command.new }
    ensures termination { writer.new.output.termination ≡ writer.old.output.termination }
    ensures count { writer.old.output.failures ≤ writer.new.output.failures }
    ensures sound { IsStoreWriter writer.new }
{
    match command {
        StoreCommand::Doc(document) => writer.store(document, schema),
        StoreCommand::Bytes(document) => writer.store_bytes(document),
        StoreCommand::Stack(reader) => writer.stack(reader),
    }
}

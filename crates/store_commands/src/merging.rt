//! Merges one store into a writer, without the documents that words leave out.

ghost use Rattle.std.specs.Prelude.{◌≡◌, ◌≤◌, ◌⊎◌, [], ◌∷◌, ◌++◌, length, map, IfOk, IfErr, IsErrAnd, OnOk, IsTrue};
ghost use Rattle.docstore.specs.Laws.{taken};
ghost use Rattle.docstore.specs.Writer.{IsStoreWriter};
ghost use Rattle.store_format.specs.Slots.{slots};
ghost use Rattle.store_merge.specs.declared.input.MergeInput.{MergeInput};
ghost use Rattle.store_merge.specs.Inputs.{HasWholeSet};
ghost use Rattle.store_reader.specs.Reading.{num_docs, store_of};
ghost use Rattle.store_commands.specs.Merging.{kept_slots, KeepsDocuments, RefusesSet, bytes_of};
ghost use Rattle.docstore.specs.Writer.{IsSameFile};
ghost use Rattle.store_commands.specs.Merging.{IsMergedReader, IsReadIfStacked, IsSteadyMerge, EndsMerge, IsOfOutput};

use crate::kept_documents::input_without;
use crate::request_error::RequestError;
use docstore::{FileHandle, StoreError, StoreReader, StoreWriter, TerminatingWrite};
use std::alloc::Global;
use store_merge::{MergeInput, merge_in_parts};

/// Why a store was not merged.
#[derive(Drop)]
pub enum MergeFailure<H: FileHandle> {
    /// Before anything was read or written: for what the words say, or because memory ran out.
    Request(RequestError),
    /// A call on the store or on the writer was refused. The reader is as that call left it.
    Refused {
        error: StoreError,
        reader: StoreReader<H>,
    },
}

impl<H: FileHandle> From<RequestError> for MergeFailure<H> {
    ghost use Rattle.std.specs.Prelude.{◌≡◌};
    ghost use Rattle.store_commands.specs.declared.merging.MergeFailure.TheVariants.{Request};

    ghost from_gives = { λ error e. e ≡ Request error };

    fn from(error: RequestError) -> MergeFailure<H> {
        MergeFailure::Request(error)
    }
}

// The reader of the one input of a merge.
fn reader_of<H: FileHandle>(mut inputs: Vec<MergeInput<H>>) -> StoreReader<H>
    requires { length inputs.items ≡ 1 }
    ensures { map (λ input. input.reader) inputs.items ≡ result ∷ [] }
{
    inputs.pop().unwrap().reader
}

// A store as the one input of a merge.
fn inputs_of<H: FileHandle>(
    alloc: Global,
    reader: StoreReader<H>,
    words: &[&str],
) -> Result<Vec<MergeInput<H>>, RequestError>
    ensures one { IfOk result (λ inputs. (input : MergeInput H) × (inputs.items ≡ input ∷ [])
        × (input.reader ≡ reader) × KeepsDocuments words.now (num_docs reader) input.alive × HasWholeSet input) }
    ensures slots { num_docs reader ≡ length (slots (store_of reader)) }
    ensures refused { IfErr result (RefusesSet words.now (num_docs reader) (bytes_of reader)) }
{
    let mut inputs = Vec::new(alloc);
    inputs.push(input_without(alloc, reader, words)?)?;
    Ok(inputs)
}

/// Puts the documents of a store after those of a writer, in order, except those that one of the words names. A store
/// that is stacked is read in parts of `part_bytes` bytes, or of a block. Where the file is honest, an Ok says that the
/// writer's slots have grown by exactly the store's slots that are kept. It returns the reader.
pub fn merge_store<W: TerminatingWrite, H: FileHandle>(
    alloc: Global,
    writer: &mut StoreWriter<W>,
    reader: StoreReader<H>,
    words: &[&str],
    part_bytes: usize,
) -> Result<StoreReader<H>, MergeFailure<H>>
    ensures grown { IsTrue reader.file.honest
        → OnOk result (taken writer.new ≡ taken writer.old ++ kept_slots words.now reader) }
    ensures file { OnOk result (IsSameFile writer.old writer.new) }
    ensures reader { IfOk result (IsMergedReader reader) }
    ensures read { IfOk result (IsReadIfStacked part_bytes words.now reader) }
    ensures faults { IfOk result (IsSteadyMerge words.now reader) }
    ensures ended { IfErr result (EndsMerge words.now reader writer.old writer.new) }
    ensures count { writer.old.output.failures ≤ writer.new.output.failures }
    ensures steady { IsErrAnd result IsOfOutput ⊎ (writer.new.output.failures ≡ writer.old.output.failures) }
    ensures sound { IsStoreWriter writer.new }
{
    // By its clause the writer is sound.
    writer.num_docs();
    let mut inputs = inputs_of(alloc, reader, words)?;
    let merged = merge_in_parts(alloc, writer, &mut inputs, part_bytes);
    let reader = reader_of(inputs);
    match merged {
        Ok(()) => Ok(reader),
        Err(refusal) => Err(MergeFailure::Refused {
            error: refusal.error,
            reader,
        }),
    }
}

//! Takes one input of a merge.
ghost use Rattle.std.specs.Prelude.{◌≡◌, ◌≢◌, ◌≤◌, ◌⊎◌, OnOk, IfErr, IsErrOf};
ghost use Rattle.docstore.specs.Laws.{taken};
ghost use Rattle.store_reader.specs.Reading.{IsSameStore};
ghost use Rattle.docstore.specs.Writer.{IsStoreWriter};
ghost use Rattle.store_merge.specs.Inputs.{CanBeTaken, IsAskedOnce, IsInputKept, IsInputTaken};
ghost use Rattle.store_merge.specs.Inputs.{IsStacked, IsSteadyInput};
ghost use Rattle.store_merge.specs.Refusals.{RefusesInput, RefusesStore, HasGrown};
ghost use Rattle.store_merge.specs.Stacking.{Leaves, IsReadBy, IsStackedBy, BeginsSlots};

use crate::choosing::is_stacked;
use crate::copying::copy_documents;
use crate::input::MergeInput;
use crate::stacking::Stacking;
use docstore::{
    Cause, DocStoreVersion, FileHandle, StoreError, StoreReader, StoreWriter, TerminatingWrite,
    laws,
};
use std::alloc::Global;

// Appends a store to what the writer has taken.
fn stack_store<W: TerminatingWrite, H: FileHandle>(
    writer: &mut StoreWriter<W>,
    reader: &mut StoreReader<H>,
    stacking: Stacking,
) -> Result<(), StoreError>
    requires version { reader.old.version ≢ DocStoreVersion.V1 }
    requires sound { IsStoreWriter writer.old }
    ensures stacked { OnOk result (IsStacked reader.old writer.old writer.new) }
    ensures refused { IfErr result (RefusesStore (Leaves stacking) reader.old reader.new writer.old writer.new) }
    ensures grown { IfErr result (λ _. writer.new.output.failure ≡ writer.old.output.failure
        → BeginsSlots reader.old writer.old writer.new) }
    ensures read { OnOk result (IsReadBy stacking reader.old reader.new) }
    ensures same_store { IsSameStore reader.old reader.new }
    ensures asked { IsAskedOnce reader.old reader.new }
    ensures faults { IsErrOf result StoreError.Read ⊎ (reader.new.file.failures ≡ reader.old.file.failures) }
    ensures count { writer.old.output.failures ≤ writer.new.output.failures }
    ensures steady { IsErrOf result (StoreError.Failed Cause.Write)
        ⊎ (writer.new.output.failures ≡ writer.old.output.failures) }
    ensures sound { IsStoreWriter writer.new }
{
    laws::stores_are_stacked_in_order();
    laws::flushes_keep_slots();
    match stacking {
        Stacking::Whole => writer.stack(reader),
        Stacking::InParts(part_bytes) => writer.stack_in_parts(reader, part_bytes),
    }
}

/// Takes one input: stacks it, or copies its documents that are alive.
pub fn take_input<W: TerminatingWrite, H: FileHandle>(
    alloc: Global,
    writer: &mut StoreWriter<W>,
    input: &mut MergeInput<H>,
    stacking: Stacking,
) -> Result<(), StoreError>
    requires input { CanBeTaken input.old }
    requires sound { IsStoreWriter writer.old }
    ensures taken { OnOk result (IsInputTaken input.old writer.old writer.new) }
    ensures refused { IfErr result (RefusesInput (Leaves stacking) input.old input.new writer.old writer.new) }
    ensures grown { IfErr result (λ _. writer.new.output.failure ≡ writer.old.output.failure
        → HasGrown input.old writer.old writer.new) }
    ensures read { OnOk result (IsStackedBy (IsReadBy stacking) input.old input.new) }
    ensures kept { IsInputKept input.old input.new }
    ensures faults { IsErrOf result StoreError.Read ⊎ IsSteadyInput input.old input.new }
    ensures count { writer.old.output.failures ≤ writer.new.output.failures }
    ensures steady { IsErrOf result (StoreError.Failed Cause.Write)
        ⊎ (writer.new.output.failures ≡ writer.old.output.failures) }
    ensures sound { IsStoreWriter writer.new }
{
    if is_stacked(input) {
        return stack_store(writer, &mut input.reader, stacking);
    }
    let MergeInput { reader, alive } = input;
    copy_documents(alloc, writer, reader, alive.as_ref())
}

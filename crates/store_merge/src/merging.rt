//! Merges stores with live sets.
ghost use Rattle.std.specs.Prelude.{◌≡◌, ◌≤◌, ◌⊎◌, ◌++◌, None, Err, OnOk, IfErr, IfSome, IsErrAnd};
ghost use Rattle.std.specs.List.{AllByRecursion, flat_map};
ghost use Rattle.docstore.specs.Laws.{taken};
ghost use Rattle.docstore.specs.StackingInParts.{BeginsStack};
ghost use Rattle.docstore.specs.Writer.{IsStoreWriter};
ghost use Rattle.store_reader.specs.Reading.{IsReadWhole};
ghost use Rattle.store_merge.specs.Choice.{first_old, alive_slots};
ghost use Rattle.store_merge.specs.Inputs.{HasWholeSet, CanBeTaken, AreEach, AreInputsKept, AreStackedBy};
ghost use Rattle.store_merge.specs.Inputs.{IsSteadyInput};
ghost use Rattle.store_merge.specs.Stacking.{Leaves, LeavesFlushed, IsReadBy, IsReadInParts};
ghost use Rattle.store_merge.specs.Merge.{IsHonest, IsMerged, IsEnded, IsFailed, HasBegun};

use crate::choosing::first_old;
use crate::input::MergeInput;
use crate::merge_error::MergeError;
use crate::stacking::Stacking;
use crate::taking::take_input;
use docstore::{Cause, FileHandle, StoreError, StoreWriter, TerminatingWrite, laws};
use std::alloc::Global;

// Takes the inputs in order, up to the first that is refused.
fn take_inputs<W: TerminatingWrite, H: FileHandle>(
    alloc: Global,
    writer: &mut StoreWriter<W>,
    inputs: &mut [MergeInput<H>],
    stacking: Stacking,
) -> Result<(), MergeError>
    requires inputs { AllByRecursion CanBeTaken inputs.old }
    requires sound { IsStoreWriter writer.old }
    ensures merged { OnOk result (IsMerged inputs.old writer.old writer.new) }
    ensures ended { IfErr result (IsEnded (Leaves stacking) inputs.old inputs.new writer.old writer.new) }
    ensures read { OnOk result (AreStackedBy (IsReadBy stacking) inputs.old inputs.new) }
    ensures kept { AreInputsKept inputs.old inputs.new }
    ensures faults { IsErrAnd result (λ e. e.error ≡ StoreError.Read)
        ⊎ AreEach IsSteadyInput inputs.old inputs.new }
    ensures count { writer.old.output.failures ≤ writer.new.output.failures }
    ensures steady { IsErrAnd result (λ e. e.error ≡ StoreError.Failed Cause.Write)
        ⊎ (writer.new.output.failures ≡ writer.old.output.failures) }
    ensures sound { IsStoreWriter writer.new }
{
    for (place, input) in inputs.iter_mut().enumerate() {
        if let Err(error) = take_input(alloc, writer, input, stacking) {
            return Err(MergeError {
                error,
                input: place,
            });
        }
    }
    Ok(())
}

// The same as `merge`, stacking in this way.
fn merge_by<W: TerminatingWrite, H: FileHandle>(
    alloc: Global,
    writer: &mut StoreWriter<W>,
    inputs: &mut [MergeInput<H>],
    stacking: Stacking,
) -> Result<(), MergeError>
    requires sets { AllByRecursion HasWholeSet inputs.old }

    // The lowest input of version 1 is named, and nothing is taken.
    ensures old_version { IfSome (first_old inputs.old) (λ place.
        (result ≡ Err (record { error = StoreError.OldVersion; input = place }))
        × (writer.new ≡ writer.old) × (inputs.new ≡ inputs.old)) }

    // Otherwise all came, or the first refusal of a call on the named input ended it.
    ensures merged { OnOk result (IsMerged inputs.old writer.old writer.new) }
    ensures ended { first_old inputs.old ≡ None
        → IfErr result (IsEnded (Leaves stacking) inputs.old inputs.new writer.old writer.new) }

    // Each input that is stacked was read as it says.
    ensures read { OnOk result (AreStackedBy (IsReadBy stacking) inputs.old inputs.new) }

    // What follows, where the files are honest.
    ensures grown { OnOk result (AllByRecursion IsHonest inputs.old
        → taken writer.new ≡ taken writer.old ++ flat_map alive_slots inputs.old) }

    ensures begun { first_old inputs.old ≡ None → AllByRecursion IsHonest inputs.old
        → IfErr result (λ e. IsFailed e.error ⊎ HasBegun inputs.old e.input writer.old writer.new) }

    // After any refusal but `Failed` the writer is as failed as it was.
    ensures works { IfErr result (λ e. IsFailed e.error
        ⊎ (writer.new.output.failure ≡ writer.old.output.failure)) }

    // The inputs keep their stores and sets. Each was asked for no more bytes than its data has, stacked or copied.
    ensures kept { AreInputsKept inputs.old inputs.new }

    // Where no failed read ends it, no read failed, but of blocks that are passed over in an input that is copied.
    ensures faults { IsErrAnd result (λ e. e.error ≡ StoreError.Read)
        ⊎ AreEach IsSteadyInput inputs.old inputs.new }

    ensures count { writer.old.output.failures ≤ writer.new.output.failures }
    ensures steady { IsErrAnd result (λ e. e.error ≡ StoreError.Failed Cause.Write)
        ⊎ (writer.new.output.failures ≡ writer.old.output.failures) }
    ensures sound { IsStoreWriter writer.new }
{
    // So what is stacked of an honest file is each of its slots.
    laws::stacked_slots_are_counted();
    // By its clause the writer is sound.
    writer.num_docs();
    if let Some(input) = first_old(inputs) {
        return Err(MergeError {
            error: StoreError::OldVersion,
            input,
        });
    }
    take_inputs(alloc, writer, inputs, stacking)
}

/// Appends the documents that are alive in each input to those of the writer, in order.
///
/// An input whose documents may be in an older form is refused before anything is taken. Then each
/// input with at least six blocks and nothing deleted is stacked, by `StoreWriter::stack`, and each
/// other one is copied, by `StoreReader::iter_raw` and `StoreWriter::store_bytes`: a rule of this
/// project. The first refusal of such a call ends the merge, and what was taken before stays. After
/// `Failed` the writer answers only `Failed`.
pub fn merge<W: TerminatingWrite, H: FileHandle>(
    alloc: Global,
    writer: &mut StoreWriter<W>,
    inputs: &mut [MergeInput<H>],
) -> Result<(), MergeError>
    requires sets { AllByRecursion HasWholeSet inputs.old }

    // The lowest input of version 1 is named, and nothing is taken.
    ensures old_version { IfSome (first_old inputs.old) (λ place.
        (result ≡ Err (record { error = StoreError.OldVersion; input = place }))
        × (writer.new ≡ writer.old) × (inputs.new ≡ inputs.old)) }

    // Otherwise all came, or the first refusal of a call on the named input ended it.
    ensures merged { OnOk result (IsMerged inputs.old writer.old writer.new) }
    ensures ended { first_old inputs.old ≡ None
        → IfErr result (IsEnded LeavesFlushed inputs.old inputs.new writer.old writer.new) }

    // The whole data of each input that is stacked was read once.
    ensures read { OnOk result (AreStackedBy IsReadWhole inputs.old inputs.new) }

    // What follows, where the files are honest.
    ensures grown { OnOk result (AllByRecursion IsHonest inputs.old
        → taken writer.new ≡ taken writer.old ++ flat_map alive_slots inputs.old) }

    ensures begun { first_old inputs.old ≡ None → AllByRecursion IsHonest inputs.old
        → IfErr result (λ e. IsFailed e.error ⊎ HasBegun inputs.old e.input writer.old writer.new) }

    // After any refusal but `Failed` the writer is as failed as it was.
    ensures works { IfErr result (λ e. IsFailed e.error
        ⊎ (writer.new.output.failure ≡ writer.old.output.failure)) }

    // The inputs keep their stores and sets. Each was asked for no more bytes than its data has, stacked or copied.
    ensures kept { AreInputsKept inputs.old inputs.new }

    // Where no failed read ends it, no read failed, but of blocks that are passed over in an input that is copied.
    ensures faults { IsErrAnd result (λ e. e.error ≡ StoreError.Read)
        ⊎ AreEach IsSteadyInput inputs.old inputs.new }

    ensures count { writer.old.output.failures ≤ writer.new.output.failures }
    ensures steady { IsErrAnd result (λ e. e.error ≡ StoreError.Failed Cause.Write)
        ⊎ (writer.new.output.failures ≡ writer.old.output.failures) }
    ensures sound { IsStoreWriter writer.new }
{
    merge_by(alloc, writer, inputs, Stacking::Whole)
}

/// The same, but each input that is stacked is read and written in parts, by `StoreWriter::stack_in_parts`: as
/// many whole blocks at a time as this many bytes hold, at least one. So of such an input memory has one part and the
/// index. A refused read leaves what came of the input before.
pub fn merge_in_parts<W: TerminatingWrite, H: FileHandle>(
    alloc: Global,
    writer: &mut StoreWriter<W>,
    inputs: &mut [MergeInput<H>],
    part_bytes: usize,
) -> Result<(), MergeError>
    requires sets { AllByRecursion HasWholeSet inputs.old }

    // The lowest input of version 1 is named, and nothing is taken.
    ensures old_version { IfSome (first_old inputs.old) (λ place.
        (result ≡ Err (record { error = StoreError.OldVersion; input = place }))
        × (writer.new ≡ writer.old) × (inputs.new ≡ inputs.old)) }

    // Otherwise all came, or the first refusal of a call on the named input ended it.
    ensures merged { OnOk result (IsMerged inputs.old writer.old writer.new) }
    ensures ended { first_old inputs.old ≡ None
        → IfErr result (IsEnded BeginsStack inputs.old inputs.new writer.old writer.new) }

    // The whole data of each input that is stacked was read, once for each of its parts.
    ensures read { OnOk result (AreStackedBy (IsReadInParts part_bytes) inputs.old inputs.new) }

    // What follows, where the files are honest.
    ensures grown { OnOk result (AllByRecursion IsHonest inputs.old
        → taken writer.new ≡ taken writer.old ++ flat_map alive_slots inputs.old) }

    ensures begun { first_old inputs.old ≡ None → AllByRecursion IsHonest inputs.old
        → IfErr result (λ e. IsFailed e.error ⊎ HasBegun inputs.old e.input writer.old writer.new) }

    // After any refusal but `Failed` the writer is as failed as it was.
    ensures works { IfErr result (λ e. IsFailed e.error
        ⊎ (writer.new.output.failure ≡ writer.old.output.failure)) }

    // The inputs keep their stores and sets. Each was asked for no more bytes than its data has, stacked or copied.
    ensures kept { AreInputsKept inputs.old inputs.new }

    // Where no failed read ends it, no read failed, but of blocks that are passed over in an input that is copied.
    ensures faults { IsErrAnd result (λ e. e.error ≡ StoreError.Read)
        ⊎ AreEach IsSteadyInput inputs.old inputs.new }

    ensures count { writer.old.output.failures ≤ writer.new.output.failures }
    ensures steady { IsErrAnd result (λ e. e.error ≡ StoreError.Failed Cause.Write)
        ⊎ (writer.new.output.failures ≡ writer.old.output.failures) }
    ensures sound { IsStoreWriter writer.new }
{
    merge_by(alloc, writer, inputs, Stacking::InParts(part_bytes))
}

//! Copies the documents of a store one by one.
ghost use Rattle.std.specs.Prelude.{◌≡◌, ◌≤◌, ◌⊎◌, Ok, Err, OnOk, IfErr, IfSome, IsErrOf, length};
ghost use Rattle.store_reader.specs.Reading.{IsSameStore, num_docs, store_of};
ghost use Rattle.store_format.specs.Slots.{slots};
ghost use Rattle.store_reader.specs.Walking.{set_of, IsSteadyBetween};
ghost use Rattle.docstore.specs.Writer.{IsStoreWriter};
ghost use Rattle.store_merge.specs.Bringing.{IsCopied};
ghost use Rattle.store_merge.specs.Choice.{alive_of};
ghost use Rattle.store_merge.specs.Copying.{IsItemStored, IsRefused};
ghost use Rattle.store_merge.specs.Inputs.{IsAskedOnce};
ghost use Rattle.store_merge.specs.Refusals.{StopsAt};

use docstore::{
    AliveBitSet, Cause, FileHandle, OwnedBytes, StoreError, StoreReader, StoreWriter,
    TerminatingWrite, laws,
};
use std::alloc::Global;

// Takes one document of an iteration, or answers why it did not come.
fn take_document<W: TerminatingWrite>(
    writer: &mut StoreWriter<W>,
    document: Result<OwnedBytes, StoreError>,
) -> Result<(), StoreError>
    requires sound { IsStoreWriter writer.old }
    ensures taken { OnOk result (IsItemStored document writer.old writer.new) }
    ensures err { IfErr result (IsRefused document writer.old writer.new) }
    ensures count { writer.old.output.failures ≤ writer.new.output.failures }
    ensures steady { IsErrOf result (StoreError.Failed Cause.Write)
        ⊎ (writer.new.output.failures ≡ writer.old.output.failures) }
    ensures sound { IsStoreWriter writer.new }
{
    laws::documents_are_taken_in_order();
    let document = document?;
    writer.store_bytes(document.as_slice())
}

/// Takes each document that is alive, in the order of the ids; without a set each. The first refusal ends it.
pub fn copy_documents<W: TerminatingWrite, H: FileHandle>(
    alloc: Global,
    writer: &mut StoreWriter<W>,
    reader: &mut StoreReader<H>,
    alive: Option<&AliveBitSet>,
) -> Result<(), StoreError>
    requires set { IfSome alive (λ set. num_docs reader.old ≤ length set.now) }
    requires docs { num_docs reader.old ≡ length (slots (store_of reader.old)) }
    requires sound { IsStoreWriter writer.old }
    ensures copied { OnOk result (IsCopied reader.old.file.honest
        (alive_of reader.old (set_of alive.entry)) writer.old writer.new) }
    ensures stopped { IfErr result (StopsAt (set_of alive.entry) reader.old reader.new writer.old writer.new) }
    ensures same_store { IsSameStore reader.old reader.new }
    ensures asked { IsAskedOnce reader.old reader.new }
    ensures faults { IsErrOf result StoreError.Read
        ⊎ IsSteadyBetween (set_of alive.entry) reader.old reader.new 0 (num_docs reader.old) }
    ensures count { writer.old.output.failures ≤ writer.new.output.failures }
    ensures steady { IsErrOf result (StoreError.Failed Cause.Write)
        ⊎ (writer.new.output.failures ≡ writer.old.output.failures) }
    ensures sound { IsStoreWriter writer.new }
{
    // By its clause the blocks cover the data.
    reader.num_docs();
    for document in reader.iter_raw(alloc, alive) {
        take_document(writer, document)?;
    }
    Ok(())
}

//! Copies a whole store, before documents are appended to it.

ghost use Rattle.std.specs.Prelude.{◌≡◌, ◌≤◌, ◌⊎◌, [], IfOk, IfErr, IsErrAnd, OnOk};
ghost use Rattle.docstore.specs.Writer.{IsStoreWriter};
ghost use Rattle.docstore.specs.Writer.{IsSameFile};
ghost use Rattle.store_commands.specs.Appending.{CopiesStore};
ghost use Rattle.store_commands.specs.Merging.{IsMergedReader, IsReadIfStacked, IsSteadyMerge};
ghost use Rattle.store_commands.specs.Merging.{EndsMerge, IsOfOutput};

use crate::merging::{MergeFailure, merge_store};
use docstore::{FileHandle, StoreReader, StoreWriter, TerminatingWrite};
use std::alloc::Global;

/// Puts all documents of a store after those of a writer: block by block in parts of `part_bytes` bytes, or document by
/// document if it has few blocks. Where the file is honest, an Ok says that the writer's slots have grown by exactly
/// the store's. It returns the reader.
pub fn copy_store<W: TerminatingWrite, H: FileHandle>(
    alloc: Global,
    writer: &mut StoreWriter<W>,
    reader: StoreReader<H>,
    part_bytes: usize,
) -> Result<StoreReader<H>, MergeFailure<H>>
    ensures copied { IfOk result (CopiesStore writer.old writer.new) }
    ensures file { OnOk result (IsSameFile writer.old writer.new) }
    ensures reader { IfOk result (IsMergedReader reader) }
    ensures read { IfOk result (IsReadIfStacked part_bytes [] reader) }
    ensures faults { IfOk result (IsSteadyMerge [] reader) }
    ensures ended { IfErr result (EndsMerge [] reader writer.old writer.new) }
    ensures count { writer.old.output.failures ≤ writer.new.output.failures }
    ensures steady { IsErrAnd result IsOfOutput ⊎ (writer.new.output.failures ≡ writer.old.output.failures) }
    ensures sound { IsStoreWriter writer.new }
{
    match merge_store(alloc, writer, reader, &[], part_bytes) {
        Ok(reader) => Ok(reader),
        Err(failure) => Err(failure),
    }
}

//! Writes a store as a file of version 2.

ghost use Rattle.std.specs.Prelude.{◌≡◌, ◌≤◌, ◌⊎◌, ◌↔◌, ◌++◌, List, true, length, OnOk, IfErr, IsErrOf};
ghost use Rattle.store_base.specs.Outputs.{terminated_once};
ghost use Rattle.store_format.specs.StoreFile.{StoreBlock, file, IsStore};
ghost use Rattle.store_reader.specs.Parts.{number_of_parts};
ghost use Rattle.docstore.specs.Stacking.{AreRead};
ghost use Rattle.docstore.specs.StackingInParts.{IsReadInPieces, IsReadAtMost};
ghost use Rattle.tantivy_export.specs.Exporting.{IsCopied, AfterCopy, AfterExport};

use crate::file_end::write_end;
use crate::period::index_of;
use docstore::{
    Cause, DocStoreVersion, FileHandle, StoreError, StorePart, StoreReader, TerminatingWrite,
};
use std::alloc::Global;

/// Writes the store of a reader as a file of version 2 at the end of an output, and ends the output.
///
/// The file has the blocks as they come from the reader's file, damaged ones too, in their order; an index of period 8,
/// whatever the period of the store; and a footer of version 2. tantivy opens it.
///
/// The index is made first. Then the blocks are read and written a part at a time: as many whole blocks as `part_bytes`
/// bytes hold, at least one. So memory has one part and two indexes.
///
/// # Errors
///
/// - `OldVersion`: the store is of version 1, and its documents may be in an older form, which nothing translates.
///   Nothing is read and nothing written.
/// - `Read`, `Memory`: the output has the first blocks, and was not asked to end.
/// - `Failed(Write)`: a write failed, or the end of the output.
pub fn export_store<H: FileHandle, W: TerminatingWrite>(
    alloc: Global,
    reader: &mut StoreReader<H>,
    output: &mut W,
    part_bytes: usize,
) -> Result<(), StoreError>
    // Version 2 and period 8, of the blocks that came of the reader's file.
    ensures exported { OnOk result ((bs : List StoreBlock) × AreRead reader.old bs × IsStore 8 (file 8 2 bs) 2 bs
        × (W.content output.new ≡ W.content output.old ++ file 8 2 bs)) }
    ensures terminated { OnOk result (W.termination output.new
        ≡ terminated_once true (W.content output.new) (W.termination output.old)) }

    // An older form of documents is refused, and nothing else is refused so.
    ensures old_version { IsErrOf result StoreError.OldVersion ↔ (reader.old.version ≡ DocStoreVersion.V1) }
    ensures untouched { reader.old.version ≡ DocStoreVersion.V1
        → (output.new ≡ output.old) × (reader.new ≡ reader.old) }

    // Each other cause, and what it leaves.
    ensures err { IfErr result (AfterExport reader.old reader.new
        (record {
          content = W.content output.old;
          termination = W.termination output.old;
          failures = W.failures output.old;
        })
        (record {
          content = W.content output.new;
          termination = W.termination output.new;
          failures = W.failures output.new;
        })) }

    // The data was read once, in parts; of a store that is not exported no more than that.
    ensures read { OnOk result
        (IsReadInPieces (number_of_parts part_bytes reader.old.checkpoints) reader.old reader.new) }
    ensures kept { IsReadAtMost (number_of_parts part_bytes reader.old.checkpoints) reader.old reader.new }
    ensures reader { IsErrOf result StoreError.Read
        ⊎ (reader.new.file.failures ≡ reader.old.file.failures) }

    ensures count { W.failures output.old ≤ W.failures output.new }
{
    if reader.version() == DocStoreVersion::V1 {
        return Err(StoreError::OldVersion);
    }
    let index = index_of(alloc, reader)?;
    copy_blocks(alloc, reader, output, part_bytes)?;
    let offset = reader.space_usage().data_usage();
    write_end(index, offset, output)
}

// Writes the data of a store at the end of an output, a part of it at a time.
fn copy_blocks<H: FileHandle, W: TerminatingWrite>(
    alloc: Global,
    reader: &mut StoreReader<H>,
    output: &mut W,
    part_bytes: usize,
) -> Result<(), StoreError>
    ensures copied { OnOk result (IsCopied reader.old (length reader.old.checkpoints)
        (W.content output.old) (W.content output.new)) }
    ensures err { IfErr result (AfterCopy reader.old reader.new (W.content output.old) (W.content output.new)
        (W.failures output.old) (W.failures output.new)) }
    ensures read { OnOk result
        (IsReadInPieces (number_of_parts part_bytes reader.old.checkpoints) reader.old reader.new) }
    ensures kept { IsReadAtMost (number_of_parts part_bytes reader.old.checkpoints) reader.old reader.new }
    ensures reader { IsErrOf result StoreError.Read
        ⊎ (reader.new.file.failures ≡ reader.old.file.failures) }
    ensures termination { W.termination output.new ≡ W.termination output.old }
    ensures count { W.failures output.old ≤ W.failures output.new }
    ensures steady { IsErrOf result (StoreError.Failed Cause.Write)
        ⊎ (W.failures output.new ≡ W.failures output.old) }
{
    let mut next_block = 0;
    while let Some(part) = reader.read_part(alloc, next_block, part_bytes)? {
        let StorePart { blocks, bytes } = part;
        next_block = blocks.end;
        output.write_all(bytes.as_slice())?;
    }
    Ok(())
}

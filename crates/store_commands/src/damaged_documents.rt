//! Finds all damaged documents of a store.

ghost use Rattle.std.specs.Prelude.{◌≡◌, ◌<◌, ◌≤◌, ◌+◌, ◌-◌, ◌^◌, ◌||◌, ◌⊎◌, ℕ, IfOk, IfErr, OnOk, length};
ghost use Rattle.std.specs.Prelude.{IsErrOf, IsTrue};
ghost use Rattle.std.specs.List.{AllByRecursion};
ghost use Rattle.docstore.specs.StackingInParts.{IsReadInPieces, IsReadAtMost};
ghost use Rattle.store_base.specs.Counts.{HasRisen};
ghost use Rattle.store_reader.specs.Reading.{IsSameStore};
ghost use Rattle.store_commands.specs.Checks.{slots_in};
ghost use Rattle.store_commands.specs.Damaged.{damaged_from, is_damaged_in};
ghost use Rattle.store_commands.specs.LeftOut.{is_among, AreApartFrom, HasId};

use crate::block_documents::documents_with_room;
use crate::left_out::{IdSpan, in_order};
use docstore::{DocId, FileHandle, StoreError, StoreReader, block_read_index};
use std::alloc::Global;

// Adds the damaged documents of a block, whose first document has this id. Those that its table has no room for are
// added without a look.
fn add_damaged(
    spans: &mut Vec<IdSpan>,
    block: &[u8],
    first: DocId,
    documents: u32,
) -> Result<(), StoreError>
    requires few { first + documents < 2 ^ 32 }
    requires filled { AllByRecursion HasId spans.old.items }
    ensures added { OnOk result ((id : ℕ) → is_among spans.new.items id
        ≡ (is_among spans.old.items id || damaged_from first (slots_in block.now documents) id)) }
    ensures filled { OnOk result (AllByRecursion HasId spans.new.items) }
    ensures memory { IfErr result (λ e. e ≡ StoreError.Memory) }
{
    let with_room = documents_with_room(block, documents);
    for position in 0..with_room {
        if block_read_index(block, position).is_none() {
            let start = first + position;
            let end = start + 1;
            spans.push(IdSpan { start, end })?;
        }
    }
    if with_room < documents {
        let (start, end) = (first + with_room, first + documents);
        spans.push(IdSpan { start, end })?;
    }
    Ok(())
}

/// The damaged documents of a store, as ranges in order that do not touch. Each block is read once. Where the file is
/// honest, they are all damaged documents, and no others.
pub fn damaged_documents<H: FileHandle>(
    alloc: Global,
    reader: &mut StoreReader<H>,
) -> Result<Vec<IdSpan>, StoreError>
    ensures damaged { IsTrue reader.old.file.honest
        → IfOk result (λ spans. (id : ℕ) → is_among spans.items id ≡ is_damaged_in reader.old id) }
    ensures apart { IfOk result (λ spans. AreApartFrom 0 spans.items) }
    ensures causes { IfErr result (λ e. (e ≡ StoreError.Read) ⊎ (e ≡ StoreError.Memory)) }
    ensures failed { IsErrOf result StoreError.Read → HasRisen reader.old.file.failures reader.new.file.failures }
    ensures steady { IsErrOf result StoreError.Read
        ⊎ (reader.new.file.failures ≡ reader.old.file.failures) }
    ensures read { OnOk result (IsReadInPieces (length reader.old.checkpoints) reader.old reader.new) }
    ensures kept { IsReadAtMost (length reader.old.checkpoints) reader.old reader.new }
    ensures same_store { IsSameStore reader.old reader.new }
{
    // By its clause the blocks cover the data.
    reader.num_docs();
    let mut spans = Vec::new(alloc);
    let mut next_id = 0;
    while let Some(block) = reader.read_block(alloc, next_id)? {
        let documents = block.ids.end - block.ids.start;
        add_damaged(
            &mut spans,
            block.bytes.as_slice(),
            block.ids.start,
            documents,
        )?;
        next_id = block.ids.end;
    }
    Ok(in_order(alloc, spans)?)
}

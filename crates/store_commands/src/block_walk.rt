//! Goes over the documents of a store block by block. Each block is read once, and no document is copied.

ghost use Rattle.std.specs.Prelude.{◌≡◌, ◌≤◌, ◌-◌, [], ◌∷◌, IfErr, OnOk, IsTrue, length};
ghost use Rattle.docstore.specs.StackingInParts.{IsReadInPieces, IsReadAtMost};
ghost use Rattle.store_reader.specs.Reading.{IsSameStore, store_of};
ghost use Rattle.store_format.specs.Block.{slot};
ghost use Rattle.store_format.specs.Slots.{slots};
ghost use Rattle.store_commands.specs.Checks.{slots_in};
ghost use Rattle.store_commands.specs.Documents.{kept_by, numbered, numbered_from, TakesSlots};
ghost use Rattle.store_commands.specs.Giving.{RefusesSlot, EndsBlock, EndsGiving, HasTargetFailed};
ghost use Rattle.store_commands.specs.LeftOut.{AreApartFrom};

use crate::left_out::{IdSpan, span_with};
use docstore::{DataPart, DocId, FileHandle, StoreError, StoreReader, document_at};
use std::alloc::Global;

/// Takes documents, as an output that prints them does.
pub trait DocumentTarget {
    ghost use Rattle.std.specs.Prelude.{◌≡◌, ℕ, List, OnOk, OnErr};
    ghost use Rattle.store_base.specs.Counts.{HasRisen};

    /// What taking a document of this number does.
    ghost takes: { Self → ℕ → List ℕ → Self → Type 0 };

    /// What a document of this number leaves that isn't taken.
    ghost refuses: { Self → ℕ → List ℕ → Self → Type 0 };

    /// How often it failed. A count at its greatest value is taken to have risen.
    ghost failures: { Self → ℕ };

    /// Why a document isn't taken.
    type Error: Drop;

    /// Takes one document more, the one of this number.
    fn take(&mut self, doc_id: DocId, document: &[u8]) -> Result<(), Self::Error>
        ensures taken { OnOk result (takes self.old doc_id document.now self.new) }
        ensures refused { OnErr result (refuses self.old doc_id document.now self.new) }
        ensures fault { OnErr result (HasRisen (failures self.old) (failures self.new)) }
        ensures steady { OnOk result (failures self.new ≡ failures self.old) };
}

/// Why the documents of a store were not all given: the store's error, or the target's.
#[derive(Drop)]
pub enum GivingError<E: Drop> {
    Store(StoreError),
    Target(E),
}

impl<E: Drop> From<StoreError> for GivingError<E> {
    ghost use Rattle.std.specs.Prelude.{◌≡◌};
    ghost use Rattle.store_commands.specs.declared.block_walk.GivingError.TheVariants.{Store};

    ghost from_gives = { λ error e. e ≡ Store error };

    fn from(error: StoreError) -> GivingError<E> {
        GivingError::Store(error)
    }
}

// Gives the document at a position of a block.
fn give_document<T: DocumentTarget>(
    target: &mut T,
    block: &[u8],
    doc_id: DocId,
    position: u32,
) -> Result<(), GivingError<T::Error>>
    ensures given { OnOk result (TakesSlots T.takes ((doc_id, slot block.now position) ∷ []) target.old target.new) }
    ensures ended { IfErr result (RefusesSlot T.refuses doc_id (slot block.now position) target.old target.new) }
    ensures failed { IfErr result (HasTargetFailed (T.failures target.old) (T.failures target.new)) }
    ensures steady { OnOk result (T.failures target.new ≡ T.failures target.old) }
{
    let document = document_at(block, doc_id, position)?;
    match target.take(doc_id, document) {
        Ok(()) => Ok(()),
        Err(error) => Err(GivingError::Target(error)),
    }
}

// Gives the documents of a block, except those of the ranges.
fn give_block<T: DocumentTarget>(
    target: &mut T,
    block: &DataPart,
    left_out: &[IdSpan],
) -> Result<(), GivingError<T::Error>>
    requires order { block.now.ids.start ≤ block.now.ids.end }
    requires apart { AreApartFrom 0 left_out.now }
    ensures given { OnOk result (TakesSlots T.takes (numbered_from block.now.ids.start
        (slots_in block.now.bytes (block.now.ids.end - block.now.ids.start)) (kept_by left_out.now))
        target.old target.new) }
    ensures ended { IfErr result (EndsBlock T.takes T.refuses (kept_by left_out.now) block.now.ids.start
        block.now.bytes (block.now.ids.end - block.now.ids.start) target.old target.new) }
    ensures failed { IfErr result (HasTargetFailed (T.failures target.old) (T.failures target.new)) }
    ensures steady { OnOk result (T.failures target.new ≡ T.failures target.old) }
{
    let first = block.ids.start;
    let end = block.ids.end;
    let bytes = block.bytes.as_slice();
    let mut next_id = first;
    while next_id < end {
        if let Some(span) = span_with(left_out, next_id) {
            next_id = span.end;
            continue;
        }
        give_document(target, bytes, next_id, next_id - first)?;
        next_id += 1;
    }
    Ok(())
}

/// Gives the documents of a store in order, except those of the ranges, which are in order and do not touch. Where the
/// file is honest, an Ok says that each slot that is kept has a document, and that exactly these were given, each under
/// its number.
pub fn give_documents<H: FileHandle, T: DocumentTarget>(
    alloc: Global,
    reader: &mut StoreReader<H>,
    target: &mut T,
    left_out: &[IdSpan],
) -> Result<(), GivingError<T::Error>>
    requires { AreApartFrom 0 left_out.now }
    ensures given { IsTrue reader.old.file.honest → OnOk result (TakesSlots T.takes
        (numbered (slots (store_of reader.old)) (kept_by left_out.now)) target.old target.new) }
    ensures ended { IfErr result (EndsGiving T.takes T.refuses (kept_by left_out.now) reader.old reader.new
        target.old target.new) }
    ensures failed { IfErr result (HasTargetFailed (T.failures target.old) (T.failures target.new)) }
    ensures target { OnOk result (T.failures target.new ≡ T.failures target.old) }
    ensures steady { OnOk result (reader.new.file.failures ≡ reader.old.file.failures) }
    ensures read { OnOk result (IsReadInPieces (length reader.old.checkpoints) reader.old reader.new) }
    ensures kept { IsReadAtMost (length reader.old.checkpoints) reader.old reader.new }
    ensures same_store { IsSameStore reader.old reader.new }
{
    // By its clause the blocks cover the data.
    reader.num_docs();
    let mut next_id = 0;
    while let Some(block) = reader.read_block(alloc, next_id)? {
        give_block(target, &block, left_out)?;
        next_id = block.ids.end;
    }
    Ok(())
}

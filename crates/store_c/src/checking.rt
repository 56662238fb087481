//! The full check of a file, as C calls it.
ghost use Rattle.std.specs.Prelude.{◌≡◌, ◌≢◌, ◌↔◌, ℕ, Some, Err, MatchOption, slice_get};
ghost use Rattle.store_base.specs.declared.error.StoreError.TheVariants.{BadIndex, DamagedDocument};
ghost use Rattle.store_format.specs.Block.{damaged};
ghost use Rattle.store_format.specs.Slots.{slots};
ghost use Rattle.store_reader.specs.IndexChecks.{BreaksIndex};
ghost use Rattle.store_reader.specs.Opening.{IsSomeStore};
ghost use Rattle.store_reader.specs.Finding.{Finds, given};
ghost use Rattle.store_c.specs.Calls.{RefusesFile};
ghost use Rattle.store_c.specs.Checking.{AreWholeTo, IsSoundFile, IsFirstDamaged, IsIndexFault, IsPlaceOf};
ghost use Rattle.store_c.specs.declared.fault.Fault.{Fault as FaultOf};

use crate::DONE;
use crate::fault::{Fault, LAYER_COVER, LAYER_LIST};
use crate::opening::open;
use docstore::{DocId, FOOTER_LEN, StoreError, StoreFault, StoreSlice, find_fault};
use std::alloc::Global;
use store_format::footer_in;

// The number of a document that was given, if it is damaged.
fn damaged_id(document: Result<&[u8], StoreError>) -> Option<DocId>
    ensures { (id : ℕ) → given document.entry ≡ Err (DamagedDocument id) ↔ result ≡ Some id }
{
    match document {
        Err(StoreError::DamagedDocument(doc_id)) => Some(doc_id),
        _ => None,
    }
}

// The first document of a store that is damaged.
fn first_damaged(store: &StoreSlice<'_>) -> Option<DocId>
    ensures { (s : IsSomeStore store.now) → MatchOption result
        ((id : ℕ) → slice_get (slots s.blocks) id ≡ Some damaged → ⊥)
        (λ id. (slice_get (slots s.blocks) id ≡ Some damaged) × AreWholeTo s.blocks id) }
{
    let Ok(documents) = store.iter() else {
        return None;
    };
    for document in documents {
        let found = damaged_id(document);
        if found.is_some() {
            return found;
        }
    }
    None
}

// Where the index of a file is refused.
fn index_fault(alloc: Global, file: &[u8]) -> StoreFault
    requires { Finds file.now (Err BadIndex) }
    ensures { BreaksIndex file.now result.start result.index }
{
    let end = file.len() - FOOTER_LEN as usize;
    let Ok(footer) = footer_in(alloc, &file[end..]) else {
        unreachable!()
    };
    let start = footer.offset as usize;
    StoreFault {
        start,
        index: find_fault(&file[start..end], footer.period),
    }
}

// The numbers that C is given for it.
fn fault_at(broken: &StoreFault) -> Fault
    ensures place { IsPlaceOf broken.now.start broken.now.index result }
    ensures no_document { result.doc_id ≡ 0 }
{
    let (byte, layer) = match broken.index {
        None => (0, LAYER_COVER),
        Some(fault) => match fault.layer {
            None => (fault.byte, LAYER_LIST),
            Some(layer) => (fault.byte, u32::try_from(layer).unwrap_or(LAYER_LIST)),
        },
    };
    Fault {
        byte: broken.start.saturating_add(byte),
        layer,
        doc_id: 0,
    }
}

/// Checks the whole file: its footer, its index, that the blocks cover the data, and that each block says where each of
/// its documents lies. It takes no memory. It returns 0 if all of this is so, and otherwise the number of the first
/// error: 5 for the index, where `fault` says at which byte and in which layer, and 7 for a document, where `fault`
/// says which. The other numbers of a fault that is set are 0. Any other error leaves `fault`.
#[unsafe(no_mangle)]
pub extern "C" fn zevk_check(alloc: Global, file: &[u8], fault: &mut Fault) -> u32
    ensures done { result ≡ 0 ↔ IsSoundFile file.now }

    // Each refusal.
    ensures index { result ≡ 5 → IsIndexFault file.now fault.new }
    ensures damaged { result ≡ 7 → IsFirstDamaged file.now fault.new }
    ensures found { (at : FaultOf) → IsFirstDamaged file.now at → (result ≡ 7) × (fault.new ≡ at) }
    ensures refused { result ≢ 0 → result ≢ 7 → RefusesFile file.now result }
    ensures first { (number : ℕ) → RefusesFile file.now number → result ≡ number }

    ensures no_memory { result ≢ 10 }
    ensures kept { result ≢ 5 → result ≢ 7 → fault.new ≡ fault.old }
{
    let (store, _) = match open(alloc, file, &mut []) {
        Ok(opened) => opened,
        Err(error) => {
            if error == StoreError::BadIndex {
                *fault = fault_at(&index_fault(alloc, file));
            }
            return error.number();
        }
    };
    let Some(doc_id) = first_damaged(&store) else {
        return DONE;
    };
    *fault = Fault {
        byte: 0,
        layer: 0,
        doc_id,
    };
    StoreError::DamagedDocument(doc_id).number()
}

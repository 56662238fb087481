//! Opening a store whose file is a slice of bytes.
ghost use Rattle.std.specs.Prelude.{◌≡◌, ◌≢◌, IfOk, IfErr, Err};
ghost use Rattle.store_reader.specs.IndexChecks.{IsCheckedStore};
ghost use Rattle.store_reader.specs.Opening.{IsSomeStore};
ghost use Rattle.store_reader.specs.Finding.{Finds};

use docstore::{CheckedStore, Row, StoreError, StoreSlice};
use std::alloc::Global;

/// The store whose file these bytes are, whose whole index is checked, and how many blocks and documents it has. It
/// writes the rows of its blocks, without their guides, as `StoreSlice::check` does. It returns the first error of the
/// footer or the index; after `BadIndex` the rows may hold anything. It takes no memory.
pub(crate) fn open<'a>(
    alloc: Global,
    file: &'a [u8],
    rows: &mut [Row],
) -> Result<(StoreSlice<'a>, CheckedStore), StoreError>
    ensures store { IfOk result (λ x. x.0 ≡ file.entry.now) }
    ensures checked { IfOk result (λ x. IsCheckedStore file.entry.now x.1 rows.old rows.new) }
    ensures found { IfErr result (λ e. Finds file.entry.now (Err e)) }
    ensures refused { IfErr result (λ e. IsSomeStore file.entry.now → ⊥) }
    ensures causes { IfErr result (λ e. e ≢ StoreError.Memory) }
    ensures stays { IfErr result (λ e. e ≢ StoreError.BadIndex → rows.new ≡ rows.old) }
{
    let store = StoreSlice::new(alloc, file)?;
    match store.check(rows) {
        Ok(checked) => Ok((store, checked)),
        Err(_) => Err(StoreError::BadIndex),
    }
}

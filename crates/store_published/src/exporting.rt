//! Stores that are exported as files of version 2 and published in one call.

ghost use Rattle.std.specs.Prelude.{◌≡◌, ◌≢◌, ◌≤◌, ◌++◌, ℕ, List, [], length, IsTrue, IfOk, IfErr, OnOk, IfSome};
ghost use Rattle.std.specs.Prelude.{IsNone, Some, string_bytes};
ghost use Rattle.store_folder.specs.Moments.{ComesFrom, LeavesOnly};
ghost use Rattle.store_folder.specs.Folder.{Keeps, ElsewhereOfBoth, EntriesStayElsewhereOfBoth, FilesElsewhereOfBoth};
ghost use Rattle.store_folder.specs.Publishing.{part};
ghost use Rattle.store_reader.specs.Reading.{num_docs};
ghost use Rattle.store_reader.specs.Parts.{number_of_parts};
ghost use Rattle.docstore.specs.StackingInParts.{IsReadInPieces, IsReadAtMost};
ghost use Rattle.tantivy_export.specs.Exporting.{IsExportOf};
ghost use Rattle.store_published.specs.Filling.{AreNumbersOf, IsOldOrNew};
ghost use Rattle.store_folder.specs.Beside.{standing, Follows, TouchesOnly};
ghost use Rattle.store_published.specs.Outcome.{IsExportRefusal};

use crate::publishing::{FillError, NotWritten, Written, WrittenBeside};
use docstore::{DocStoreVersion, FileHandle, StoreError, StoreReader, laws};
use std::alloc::Global;
use std::io;
use std::marker::Brand;
use store_folder::{Beside, Folder, Origin, publish};
use tantivy_export::export_store;

// Why an export was not published: the failed call of the folder, if there is one.
fn export_error(error: StoreError, folder_error: Option<io::Error>) -> FillError<StoreError>
    ensures folder { IfSome folder_error (λ e. result ≡ FillError.Folder e) }
    ensures export { IsNone folder_error → result ≡ FillError.Filling error }
{
    match folder_error {
        Some(error) => FillError::Folder(error),
        None => FillError::Filling(error),
    }
}

// The numbers of an export of this many bytes: it has the documents and blocks of the store.
#[tactic(auto, using(crate::proofs::ExportLemmas::few_blocks))]
fn numbers_of<H: FileHandle>(reader: &StoreReader<H>, bytes: u64) -> Written
    ensures documents { result.documents ≡ num_docs reader.now }
    ensures blocks { result.blocks ≡ length reader.now.checkpoints }
    ensures bytes { result.bytes ≡ bytes }
{
    Written {
        documents: reader.num_docs(),
        blocks: u32::try_from(reader.num_blocks()).unwrap_or(u32::MAX),
        bytes,
    }
}

// Writes the export of a reader's store to a file beside the name that it is to have.
fn export_beside<F: Folder, K: Origin, H: FileHandle>(
    alloc: Global,
    folder: F,
    beside: String,
    reader: &mut StoreReader<H>,
    part_bytes: usize,
) -> Result<WrittenBeside<F>, NotWritten<F, StoreError>>
    requires first { Follows (IsTrue F.honest) K.name K.first
        (standing F.seen F.may_hold F.may_leave F.moment F.left_since
        F.entry_kept F.trusted F.handle F.failures folder) }
    requires name { K.name ≡ string_bytes beside }
    ensures exported { IfOk result (λ r. (content : List ℕ) × ((export : IsExportOf reader.old content)
        × AreNumbersOf content export.blocks r.written)
        × (IsTrue F.honest → F.seen r.folder K.name ≡ Some content)) }
    ensures trusted { IsTrue F.honest → IfOk result (λ r. F.trusted r.folder K.name) }
    ensures old_version { OnOk result (reader.old.version ≢ DocStoreVersion.V1) }
    ensures refused { IfErr result (λ e. IsExportRefusal reader.old reader.new
        K.first.failures (F.failures e.folder) e.error) }
    ensures read { OnOk result
        (IsReadInPieces (number_of_parts part_bytes reader.old.checkpoints) reader.old reader.new) }
    ensures reads { IsReadAtMost (number_of_parts part_bytes reader.old.checkpoints) reader.old reader.new }
    ensures follows { IfOk result (λ r. Follows (IsTrue F.honest) K.name K.first
        (standing F.seen F.may_hold F.may_leave F.moment F.left_since
        F.entry_kept F.trusted F.handle F.failures r.folder)) }
    ensures follows_err { IfErr result (λ e. Follows (IsTrue F.honest) K.name K.first
        (standing F.seen F.may_hold F.may_leave F.moment F.left_since
        F.entry_kept F.trusted F.handle F.failures e.folder)) }
{
    laws::stacked_slots_are_counted();
    let mut output = match Beside::<F, K>::create(alloc, folder, beside) {
        Ok(output) => output,
        Err((error, folder)) => {
            return Err(NotWritten {
                error: FillError::Folder(error),
                folder,
            });
        }
    };
    match export_store(alloc, reader, &mut output, part_bytes) {
        Ok(()) => {
            let written = numbers_of(reader, output.num_bytes());
            match output.finish() {
                Ok(folder) => Ok(WrittenBeside { folder, written }),
                Err((error, folder)) => Err(NotWritten {
                    error: FillError::Folder(error),
                    folder,
                }),
            }
        }
        Err(error) => {
            let (folder, folder_error) = output.give_up();
            Err(NotWritten {
                error: export_error(error, folder_error),
                folder,
            })
        }
    }
}

// The same in a folder that stays the caller's.
fn export_in<F: Folder, H: FileHandle>(
    alloc: Global,
    folder: &mut F,
    beside: String,
    reader: &mut StoreReader<H>,
    part_bytes: usize,
) -> Result<Written, FillError<StoreError>>
    ensures exported { IfOk result (λ written. (content : List ℕ) × ((export : IsExportOf reader.old content)
        × AreNumbersOf content export.blocks written)
        × (IsTrue F.honest → F.seen folder.new (string_bytes beside) ≡ Some content)) }
    ensures trusted { IsTrue F.honest → OnOk result (F.trusted folder.new (string_bytes beside)) }
    ensures old_version { OnOk result (reader.old.version ≢ DocStoreVersion.V1) }
    ensures count { F.failures folder.old ≤ F.failures folder.new }
    ensures refused { IfErr result (IsExportRefusal reader.old reader.new
        (F.failures folder.old) (F.failures folder.new)) }
    ensures read { OnOk result
        (IsReadInPieces (number_of_parts part_bytes reader.old.checkpoints) reader.old reader.new) }
    ensures reads { IsReadAtMost (number_of_parts part_bytes reader.old.checkpoints) reader.old reader.new }
    ensures touched { IsTrue F.honest → TouchesOnly (string_bytes beside)
        (standing F.seen F.may_hold F.may_leave F.moment F.left_since
        F.entry_kept F.trusted F.handle F.failures folder.old)
        (standing F.seen F.may_hold F.may_leave F.moment F.left_since
        F.entry_kept F.trusted F.handle F.failures folder.new) }
{
    match export_beside::<&mut F, Brand, H>(alloc, &mut *folder, beside, reader, part_bytes) {
        Ok(whole) => Ok(whole.written),
        // So taken apart, the folder is known to be given back.
        Err(
            NotWritten {
                error,
                folder: _lent,
            },
        ) => Err(error),
    }
}

/// Writes the store of a reader as a file of version 2, as `export_store` does, and publishes it under a name in a
/// folder. The file beside that name has `.part` after it.
///
/// After an Ok every crash leaves under the name exactly that file, and the numbers that are returned are its own. A
/// crash at any moment of the call, also of one that fails, leaves what was there before, or that file. No name but
/// these two is touched.
///
/// # Errors
///
/// What refused the export, as `FillError::Filling`; or the first call of the folder that failed.
pub fn publish_export<F: Folder, H: FileHandle>(
    alloc: Global,
    folder: &mut F,
    name: &str,
    reader: &mut StoreReader<H>,
    part_bytes: usize,
) -> Result<Written, FillError<StoreError>>
    ensures exported { IfOk result (λ written. (content : List ℕ) × ((export : IsExportOf reader.old content)
        × AreNumbersOf content export.blocks written)
        × (IsTrue F.honest → Keeps name.now (Some content) (F.may_leave folder.new))
        × (IsTrue F.honest → F.seen folder.new name.now ≡ Some content)) }

    // A store of version 1 is refused, and each other refusal has its cause.
    ensures old_version { OnOk result (reader.old.version ≢ DocStoreVersion.V1) }
    ensures count { F.failures folder.old ≤ F.failures folder.new }
    ensures refused { IfErr result (IsExportRefusal reader.old reader.new
        (F.failures folder.old) (F.failures folder.new)) }

    // The data was read once, in parts; of a store that is not exported no more than that.
    ensures read { OnOk result
        (IsReadInPieces (number_of_parts part_bytes reader.old.checkpoints) reader.old reader.new) }
    ensures reads { IsReadAtMost (number_of_parts part_bytes reader.old.checkpoints) reader.old reader.new }
    ensures any_moment { IsTrue F.honest → LeavesOnly F.moment F.left_since folder.old folder.new
        (IsOldOrNew (F.may_leave folder.old) (name.now ++ part) name.now (IsExportOf reader.old)) }

    // No other name was touched, and after an Ok the entry of every name is on the disk.
    ensures elsewhere { IsTrue F.honest
        → ElsewhereOfBoth (name.now ++ part) name.now (F.seen folder.old) (F.seen folder.new) }
    ensures files { IsTrue F.honest
        → FilesElsewhereOfBoth (name.now ++ part) name.now (F.may_hold folder.old) (F.may_hold folder.new) }
    ensures crash { IsTrue F.honest → ComesFrom (ElsewhereOfBoth (name.now ++ part) name.now)
        (F.may_leave folder.old) (F.may_leave folder.new) }
    ensures entries { IsTrue F.honest → EntriesStayElsewhereOfBoth (name.now ++ part) name.now
        (F.entry_kept folder.old) (F.entry_kept folder.new) }
    ensures kept { IsTrue F.honest → OnOk result ((n : List ℕ) → F.entry_kept folder.new n) }

    // After an Ok no sync of the file has failed, and of the others as before.
    ensures moved { IsTrue F.honest → OnOk result (F.trusted folder.new name.now) }
    ensures trust { IsTrue F.honest → EntriesStayElsewhereOfBoth (name.now ++ part) name.now
        (F.trusted folder.old) (F.trusted folder.new) }
{
    let beside = match format!(in alloc; "{name}.part") {
        Ok(beside) => beside,
        Err(error) => return Err(FillError::Folder(error.into())),
    };
    let file = match String::from_str(alloc, beside.as_str()) {
        Ok(file) => file,
        Err(error) => return Err(FillError::Folder(error.into())),
    };
    let written = export_in(alloc, folder, file, reader, part_bytes)?;
    match publish(folder, beside.as_str(), name) {
        Ok(()) => Ok(written),
        Err(error) => Err(FillError::Folder(error)),
    }
}

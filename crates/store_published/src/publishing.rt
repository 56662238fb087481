//! Stores that are filled and published in one call.

ghost use Rattle.std.specs.Prelude.{
  ◌≡◌,
  ◌≢◌,
  ◌≤◌,
  ◌+◌,
  ◌^◌,
  ℕ,
  List,
  [],
  ◌++◌,
  IsTrue,
  IfOk,
  IfErr,
  IsOk,
  OnOk,
  Some,
  string_bytes,
};
ghost use Rattle.docstore.specs.Laws.{taken};
ghost use Rattle.store_folder.specs.Moments.{ComesFrom, LeavesOnly};
ghost use Rattle.store_folder.specs.Folder.{Keeps, ElsewhereOfBoth, EntriesStayElsewhereOfBoth, FilesElsewhereOfBoth};
ghost use Rattle.store_folder.specs.Publishing.{part};
ghost use Rattle.store_folder.specs.Beside.{standing, Follows, TouchesOnly};
ghost use Rattle.docstore.specs.Writer.{blocks_in};
ghost use Rattle.store_published.specs.Filling.{IsStoreOf, AreNumbersOf, IsOldOrNew};
ghost use Rattle.store_published.specs.Outcome.{IsFillFault, IsRefusal};

use crate::filling::Filling;
use docstore::{CloseError, Compressor, StoreError, StoreWriter, laws};
use std::alloc::Global;
use std::io;
use std::marker::Brand;
use store_folder::{Beside, Folder, Origin, publish};

/// What a store has that was published.
#[derive(Clone, Copy)]
pub struct Written {
    pub documents: u32,
    pub blocks: u32,
    pub bytes: u64,
}

/// Why a store was not published.
#[derive(Drop)]
pub enum FillError<E: Drop> {
    /// Not all came that was to fill it.
    Filling(E),
    /// A call of the folder failed, or there was no memory for it.
    Folder(io::Error),
    /// The writer failed, and no call of the folder.
    Store(StoreError),
}

/// A folder in which a store was written beside its name, and what the store has.
#[derive(Drop)]
pub(crate) struct WrittenBeside<F> {
    pub(crate) folder: F,
    pub(crate) written: Written,
}

/// Why a store was not written, and the folder.
#[derive(Drop)]
pub(crate) struct NotWritten<F, E: Drop> {
    pub(crate) error: FillError<E>,
    pub(crate) folder: F,
}

// Why a store was not written whose writer was not closed. A filling that ended early while the writer worked comes
// before what its close met.
fn close_error<F: Folder, K: Origin, E: Drop>(
    filled: Result<(), E>,
    had_failed: bool,
    error: StoreError,
    output: Beside<F, K>,
) -> (FillError<E>, F)
    ensures follows { Follows (IsTrue F.honest) K.name K.first
        (standing F.seen F.may_hold F.may_leave F.moment F.left_since
        F.entry_kept F.trusted F.handle F.failures result.1) }
    ensures fault { IsFillFault K.first.failures (F.failures result.1) filled result.0 }
{
    let (folder, folder_error) = output.give_up();
    if !had_failed {
        if let Err(error) = filled {
            return (FillError::Filling(error), folder);
        }
    }
    match folder_error {
        Some(error) => (FillError::Folder(error), folder),
        None => (FillError::Store(error), folder),
    }
}

// Writes what is left of a store to its output.
fn end_store<F: Folder, K: Origin, E: Drop>(
    writer: StoreWriter<Beside<F, K>>,
    filled: Result<(), E>,
) -> Result<(Beside<F, K>, Written), (FillError<E>, F)>
    ensures filled { OnOk result (IsOk filled) }
    ensures stored { IfOk result (λ r. writer.output.before ≡ [] → (store : IsStoreOf (λ slots. slots ≡ taken writer)
        (λ blocks. blocks ≡ blocks_in writer) writer.output.period r.0.content)
        × AreNumbersOf r.0.content store.blocks r.1) }
    ensures follows { IfErr result (λ e. Follows (IsTrue F.honest) K.name K.first
        (standing F.seen F.may_hold F.may_leave F.moment F.left_since
        F.entry_kept F.trusted F.handle F.failures e.1)) }
    ensures fault { IfErr result (λ e. IsFillFault K.first.failures (F.failures e.1) filled e.0) }
{
    laws::written_documents_are_found();
    laws::ids_are_given_in_order();
    let had_failed = writer.has_failed();
    let (documents, blocks) = (writer.num_docs(), writer.num_blocks());
    match writer.close() {
        Ok(output) => match filled {
            Ok(()) => {
                let bytes = output.num_bytes();
                Ok((
                    output,
                    Written {
                        documents,
                        blocks,
                        bytes,
                    },
                ))
            }
            Err(error) => Err((FillError::Filling(error), output.give_up().0)),
        },
        Err(CloseError { error, output }) => Err(close_error(filled, had_failed, error, output)),
    }
}

// Fills a store in a file beside the name that it is to have.
fn write_beside<F: Folder, K: Origin, S: Filling>(
    alloc: Global,
    folder: F,
    beside: String,
    block_size: usize,
    period: u8,
    filling: &mut S,
) -> Result<WrittenBeside<F>, NotWritten<F, S::Error>>
    requires least { 2 ≤ period }
    requires most { period ≤ 64 }
    requires first { Follows (IsTrue F.honest) K.name K.first
        (standing F.seen F.may_hold F.may_leave F.moment F.left_since
        F.entry_kept F.trusted F.handle F.failures folder) }
    requires name { K.name ≡ string_bytes beside }
    ensures stored { IfOk result (λ r. (content : List ℕ)
        × ((store : IsStoreOf (S.brings filling.old filling.new) (S.cuts filling.old block_size) period content)
        × AreNumbersOf content store.blocks r.written)
        × (IsTrue F.honest → F.seen r.folder K.name ≡ Some content)) }
    ensures trusted { IsTrue F.honest → IfOk result (λ r. F.trusted r.folder K.name) }
    ensures follows { IfOk result (λ r. Follows (IsTrue F.honest) K.name K.first
        (standing F.seen F.may_hold F.may_leave F.moment F.left_since
        F.entry_kept F.trusted F.handle F.failures r.folder)) }
    ensures follows_err { IfErr result (λ e. Follows (IsTrue F.honest) K.name K.first
        (standing F.seen F.may_hold F.may_leave F.moment F.left_since
        F.entry_kept F.trusted F.handle F.failures e.folder)) }
    ensures refused { IfErr result (λ e. IsRefusal (S.refuses filling.old filling.new block_size)
        K.first.failures (F.failures e.folder) e.error) }
{
    let output = match Beside::<F, K>::create(alloc, folder, beside) {
        Ok(output) => output,
        Err((error, folder)) => {
            return Err(NotWritten {
                error: FillError::Folder(error),
                folder,
            });
        }
    };
    let mut writer = StoreWriter::with_period(alloc, output, Compressor::None, block_size, period);
    let filled = filling.fill(&mut writer);
    match end_store(writer, filled) {
        Ok((output, written)) => match output.finish() {
            Ok(folder) => Ok(WrittenBeside { folder, written }),
            Err((error, folder)) => Err(NotWritten {
                error: FillError::Folder(error),
                folder,
            }),
        },
        Err((error, folder)) => Err(NotWritten { error, folder }),
    }
}

// The same in a folder that stays the caller's.
fn write_in<F: Folder, S: Filling>(
    alloc: Global,
    folder: &mut F,
    beside: String,
    block_size: usize,
    period: u8,
    filling: &mut S,
) -> Result<Written, FillError<S::Error>>
    requires least { 2 ≤ period }
    requires most { period ≤ 64 }
    ensures stored { IfOk result (λ written. (content : List ℕ)
        × ((store : IsStoreOf (S.brings filling.old filling.new) (S.cuts filling.old block_size) period content)
        × AreNumbersOf content store.blocks written)
        × (IsTrue F.honest → F.seen folder.new (string_bytes beside) ≡ Some content)) }
    ensures trusted { IsTrue F.honest → OnOk result (F.trusted folder.new (string_bytes beside)) }
    ensures touched { IsTrue F.honest → TouchesOnly (string_bytes beside)
        (standing F.seen F.may_hold F.may_leave F.moment F.left_since
        F.entry_kept F.trusted F.handle F.failures folder.old)
        (standing F.seen F.may_hold F.may_leave F.moment F.left_since
        F.entry_kept F.trusted F.handle F.failures folder.new) }
    ensures count { F.failures folder.old ≤ F.failures folder.new }
    ensures refused { IfErr result (IsRefusal (S.refuses filling.old filling.new block_size)
        (F.failures folder.old) (F.failures folder.new)) }
{
    match write_beside::<&mut F, Brand, S>(
        alloc,
        &mut *folder,
        beside,
        block_size,
        period,
        filling,
    ) {
        Ok(whole) => Ok(whole.written),
        // So taken apart, the folder is known to be given back.
        Err(
            NotWritten {
                error,
                folder: _lent,
            },
        ) => Err(error),
    }
}

/// Fills a store and publishes it under a name in a folder. The file beside that name has `.part` after it.
///
/// After an Ok every crash leaves under the name exactly the file of a store of what was brought. A crash at any moment
/// of the call, also of one that fails, leaves what was there before, or such a file. No name but these two is touched.
///
/// # Errors
///
/// What ended the filling, the first call of the folder that failed, or the writer's error.
pub fn publish_store<F: Folder, S: Filling>(
    alloc: Global,
    folder: &mut F,
    name: &str,
    block_size: usize,
    period: u8,
    filling: &mut S,
) -> Result<Written, FillError<S::Error>>
    requires least { 2 ≤ period }
    requires most { period ≤ 64 }
    ensures stored { IfOk result (λ written. (content : List ℕ)
        × ((store : IsStoreOf (S.brings filling.old filling.new) (S.cuts filling.old block_size) period content)
        × AreNumbersOf content store.blocks written)
        × (IsTrue F.honest → Keeps name.now (Some content) (F.may_leave folder.new))
        × (IsTrue F.honest → F.seen folder.new name.now ≡ Some content)) }
    ensures any_moment { IsTrue F.honest → LeavesOnly F.moment F.left_since folder.old folder.new
        (IsOldOrNew (F.may_leave folder.old) (name.now ++ part) name.now
        (IsStoreOf (S.brings filling.old filling.new) (S.cuts filling.old block_size) period)) }

    // No other name was touched, and after an Ok the entry of every name is on the disk.
    ensures elsewhere { IsTrue F.honest
        → ElsewhereOfBoth (name.now ++ part) name.now (F.seen folder.old) (F.seen folder.new) }
    ensures files { IsTrue F.honest
        → FilesElsewhereOfBoth (name.now ++ part) name.now (F.may_hold folder.old) (F.may_hold folder.new) }
    ensures crash { IsTrue F.honest → ComesFrom (ElsewhereOfBoth (name.now ++ part) name.now)
        (F.may_leave folder.old) (F.may_leave folder.new) }
    ensures entries { IsTrue F.honest → EntriesStayElsewhereOfBoth (name.now ++ part) name.now
        (F.entry_kept folder.old) (F.entry_kept folder.new) }
    ensures kept { IsTrue F.honest → OnOk result ((n : List ℕ) → F.entry_kept folder.new n) }

    // After an Ok no sync of the file has failed, and of the others as before.
    ensures moved { IsTrue F.honest → OnOk result (F.trusted folder.new name.now) }
    ensures trust { IsTrue F.honest → EntriesStayElsewhereOfBoth (name.now ++ part) name.now
        (F.trusted folder.old) (F.trusted folder.new) }
    ensures count { F.failures folder.old ≤ F.failures folder.new }
    ensures refused { IfErr result (IsRefusal (S.refuses filling.old filling.new block_size)
        (F.failures folder.old) (F.failures folder.new)) }
{
    let beside = match format!(in alloc; "{name}.part") {
        Ok(beside) => beside,
        Err(error) => return Err(FillError::Folder(error.into())),
    };
    let file = match String::from_str(alloc, beside.as_str()) {
        Ok(file) => file,
        Err(error) => return Err(FillError::Folder(error.into())),
    };
    let written = write_in(alloc, folder, file, block_size, period, filling)?;
    match publish(folder, beside.as_str(), name) {
        Ok(()) => Ok(written),
        Err(error) => Err(FillError::Folder(error)),
    }
}

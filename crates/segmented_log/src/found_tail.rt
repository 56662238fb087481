//! The tail that an opening finds is looked at before it is synced.

ghost use Rattle.std.specs.Prelude.{◌≡◌, ℕ, List, Some, IsTrue, IfOk, IfErr, IsErrOf};
ghost use Rattle.std.specs.Result.{IsErrAnd};
ghost use Rattle.store_folder.specs.Folder.{bytes_of};
ghost use Rattle.log_tail.specs.Tail.{first_of, IsTail};
ghost use Rattle.segmented_log.specs.Names.{tail_name};
ghost use Rattle.segmented_log.specs.Opening.{HasDamage, HasDamagedTail, CanSyncTail};
ghost use Rattle.segmented_log.specs.Causes.{IsFault, IsFailure};

use crate::error::LogError;
use crate::names::TAIL;
use crate::tail::{Cut, is_too_much};
use log_tail::batches::find_records;
use log_tail::tail::first_number;
use std::alloc::Global;
use store_folder::{Folder, ReadableFolder};

/// What is seen of a tail: the number of its first record, and whether all its bytes are sound batches.
#[derive(Clone, Copy)]
pub(crate) struct FoundTail {
    pub(crate) first: u64,
    pub(crate) is_whole: bool,
}

// Where there is no tail.
const NO_TAIL: FoundTail = FoundTail {
    first: 0,
    is_whole: false,
};

// What is seen of a tail of these bytes.
fn look_at(alloc: Global, bytes: &[u8]) -> Result<FoundTail, LogError>
    ensures first { IfOk result (λ t. IsTail bytes.now → t.first ≡ first_of bytes.now) }
    ensures tail { IfOk result (λ t. IsTrue t.is_whole → IsTail bytes.now) }
    ensures whole { IfOk result (λ t. IsTrue t.is_whole → HasDamage bytes.now → ⊥) }
    ensures kind { IfErr result (λ e. e ≡ LogError.Memory) }
{
    let Some(first) = first_number(bytes) else {
        return Ok(NO_TAIL);
    };
    let end = find_records(alloc, bytes)?.end;
    Ok(FoundTail {
        first,
        is_whole: !is_too_much(Cut::Nothing, bytes, first, end),
    })
}

/// What is seen of a folder's tail.
pub(crate) fn find_tail<F: ReadableFolder>(alloc: Global, folder: &F) -> Result<FoundTail, LogError>
    ensures first { IsTrue F.honest → IfOk result (λ t. (bytes : List ℕ) → F.seen folder.now tail_name ≡ Some bytes
        → IsTail bytes → t.first ≡ first_of bytes) }
    ensures whole { IsTrue F.honest → IfOk result (λ t. IsTrue t.is_whole → HasDamagedTail (F.seen folder.now) → ⊥) }
    ensures tail { IsTrue F.honest → IfOk result (λ t. IsTrue t.is_whole → (bytes : List ℕ)
        × (F.seen folder.now tail_name ≡ Some bytes) × IsTail bytes) }
    ensures failed { IsTrue F.is_readable → IsErrAnd result IsFailure → ⊥ }
    ensures kind { IfErr result IsFault }
{
    match folder.read(alloc, TAIL)? {
        Some(bytes) => look_at(alloc, &bytes),
        None => Ok(NO_TAIL),
    }
}

/// Whether a sync of a folder's tail, which was read, can be asked for: it is on the disk already, or it is whole. A
/// torn one would then be known to be on the disk, and the next opening would take its end for damage.
pub(crate) fn can_sync_tail<F: Folder>(
    alloc: Global,
    folder: &F,
    found: &Option<Vec<u8>>,
) -> Result<bool, LogError>
    requires { IsTrue F.honest → bytes_of found.now ≡ F.seen folder.now tail_name }
    ensures whole { IsTrue F.honest → IfOk result (λ can. IsTrue can
        → CanSyncTail (F.seen folder.now) (F.may_hold folder.now)) }
    ensures kind { IfErr result (λ e. e ≡ LogError.Memory) }
{
    if folder.is_synced(TAIL) {
        return Ok(true);
    }
    match found {
        Some(bytes) => Ok(look_at(alloc, bytes)?.is_whole),
        None => Ok(true),
    }
}

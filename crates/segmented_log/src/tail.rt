//! The tail of a log that is opened: its torn end is cut off, or it is made.

ghost use Rattle.std.specs.Prelude.{◌≡◌, ◌≢◌, ◌⊎◌, ◌≤◌, ◌++◌, false, ℕ, List, [], Some, None, length, take, drop};
ghost use Rattle.std.specs.Prelude.{IsTrue, IfOk, IfErr, OnOk, IsErrOf};
ghost use Rattle.std.specs.Result.{IsErrAnd};
ghost use Rattle.store_base.specs.Counts.{HasRisen};
ghost use Rattle.store_folder.specs.Moments.{ComesFrom, LeavesOnly};
ghost use Rattle.store_folder.specs.Folder.{ElsewhereOfBoth};
ghost use Rattle.store_folder.specs.Publishing.{part};
ghost use Rattle.log_tail.specs.Tail.{first_of, IsTail};
ghost use Rattle.log_tail.specs.Heads.{is_damaged, rest_of};
ghost use Rattle.segmented_log.specs.Names.{tail_name};
ghost use Rattle.segmented_log.specs.Opening.{IsSyncedButTail, IsOldOrSeen, IsTailOf, HasDamage};
ghost use Rattle.segmented_log.specs.Settled.{IsReadTail, TailIsKept};
ghost use Rattle.segmented_log.specs.Causes.{IsOfTails, IsFault, IsFailure};

use crate::error::LogError;
use crate::tail_file::replace_tail;
use log_tail::batches::find_records;
use log_tail::heads::is_damaged;
use log_tail::tail::first_number;
use log_tail::{Place, new_tail};
use std::alloc::Global;
use store_folder::Folder;

/// A tail in memory, as it is on the disk.
#[derive(Drop)]
pub(crate) struct Tail {
    pub(crate) bytes: Vec<u8>,
    pub(crate) first: u64,
    pub(crate) places: Vec<Place>,
}

/// What may be cut off a tail: bytes that are no whole batch.
#[derive(Clone, Copy, PartialEq, Eq)]
pub(crate) enum Cut {
    /// Nothing, as the tail was on the disk.
    Nothing,
    /// A batch that was not finished.
    Unfinished,
    /// Bytes that were whole, too.
    Damage,
}

/// Whether more would be cut off than may be, where the whole batches end at this place.
pub(crate) fn is_too_much(cut: Cut, bytes: &[u8], first: u64, end: usize) -> bool
    requires first { first ≡ first_of bytes.now }
    requires within { end ≤ length bytes.now }
    requires rest { drop end bytes.now ≡ rest_of bytes.now }
    ensures damaged { IsTrue result → HasDamage bytes.now }
    ensures sound { result ≡ false → cut ≢ Cut.Damage → is_damaged bytes.now ≡ false }
    ensures whole { result ≡ false → cut ≡ Cut.Nothing → rest_of bytes.now ≡ [] }
{
    match cut {
        Cut::Nothing => is_damaged(bytes, first, end) || end < bytes.len(),
        Cut::Unfinished => is_damaged(bytes, first, end),
        Cut::Damage => false,
    }
}

/// A tail without the bytes at its end that are no whole batch, and whether these are more than may be cut off.
#[derive(Drop)]
pub(crate) struct WholeTail {
    pub(crate) tail: Tail,
    pub(crate) is_damaged: bool,
}

/// The tail of these bytes, without those at its end that are no whole batch.
pub(crate) fn whole_tail(alloc: Global, bytes: Vec<u8>, cut: Cut) -> Result<WholeTail, LogError>
    ensures tail { IfOk result (λ w. IsReadTail w.tail.bytes.items w.tail.first w.tail.places.items) }
    ensures same { IfOk result (λ w. IsTailOf (Some bytes.items) w.tail.bytes.items) }
    ensures front { IfOk result (λ w. w.tail.bytes.items ≡ take (length w.tail.bytes.items) bytes.items) }
    ensures damaged { IfOk result (λ w. IsTrue w.is_damaged → HasDamage bytes.items) }
    ensures sound { cut ≢ Cut.Damage → IfOk result (λ w. w.is_damaged ≡ false → is_damaged bytes.items ≡ false) }
    ensures whole { cut ≡ Cut.Nothing → IfOk result (λ w. w.is_damaged ≡ false → rest_of bytes.items ≡ []) }
    ensures no_log { IsErrOf result LogError.NoLog → IsTail bytes.items → ⊥ }
    ensures kind { IfErr result (λ e. (e ≡ LogError.NoLog) ⊎ (e ≡ LogError.Memory)) }
{
    let Some(first) = first_number(&bytes) else {
        return Err(LogError::NoLog);
    };
    let found = find_records(alloc, &bytes)?;
    let is_damaged = is_too_much(cut, &bytes, first, found.end);
    let mut whole = bytes;
    whole.truncate(found.end);
    Ok(WholeTail {
        tail: Tail {
            bytes: whole,
            first,
            places: found.places,
        },
        is_damaged,
    })
}

/// The tail of these bytes. What may be cut off at its end is, in memory and on the disk. A tail that is not kept on
/// the disk is replaced.
pub(crate) fn repair_tail<F: Folder>(
    alloc: Global,
    folder: &mut F,
    bytes: Vec<u8>,
    is_kept: bool,
    cut: Cut,
) -> Result<Tail, LogError>
    requires synced { IsTrue F.honest → IsSyncedButTail (F.seen folder.old) (F.may_leave folder.old) }
    requires file { IsTrue F.honest → F.seen folder.old tail_name ≡ Some bytes.items }
    requires kept { IsTrue F.honest → IsTrue is_kept → TailIsKept (F.may_hold folder.old) (F.may_leave folder.old)
        (F.entry_kept folder.old) (F.trusted folder.old) bytes.items }
    ensures tail { IfOk result (λ t. IsReadTail t.bytes.items t.first t.places.items) }
    ensures kept { IsTrue F.honest → IfOk result (λ t. TailIsKept (F.may_hold folder.new) (F.may_leave folder.new)
        (F.entry_kept folder.new) (F.trusted folder.new) t.bytes.items) }
    ensures crash { IsTrue F.honest → ComesFrom (ElsewhereOfBoth (tail_name ++ part) tail_name)
        (F.may_leave folder.old) (F.may_leave folder.new) }

    // A crash at any moment leaves what it could leave before, or the same log.
    ensures any_moment { IsTrue F.honest → LeavesOnly F.moment F.left_since folder.old folder.new
        (IsOldOrSeen (F.may_leave folder.old) (F.seen folder.old)) }
    ensures elsewhere { IsTrue F.honest → ElsewhereOfBoth (tail_name ++ part) tail_name
        (F.seen folder.old) (F.seen folder.new) }
    ensures same { IfOk result (λ t. IsTailOf (Some bytes.items) t.bytes.items) }
    ensures no_log { IsErrOf result LogError.NoLog → IsTail bytes.items → ⊥ }
    ensures damaged { IsErrOf result LogError.DamagedTail → HasDamage bytes.items }

    // No bytes are cut off that were written whole.
    ensures sound { cut ≢ Cut.Damage → OnOk result (is_damaged bytes.items ≡ false) }
    ensures whole { cut ≡ Cut.Nothing → OnOk result (rest_of bytes.items ≡ []) }
    ensures failures { F.failures folder.old ≤ F.failures folder.new }
    ensures failed { IsErrAnd result IsFailure → HasRisen (F.failures folder.old) (F.failures folder.new) }
    ensures kind { IfErr result IsOfTails }
{
    let len = bytes.len();
    let WholeTail { tail, is_damaged } = whole_tail(alloc, bytes, cut)?;
    if is_damaged {
        return Err(LogError::DamagedTail);
    }
    if is_kept && tail.bytes.len() == len {
        return Ok(tail);
    }
    replace_tail(folder, &tail.bytes)?;
    Ok(tail)
}

/// The tail of a new log, which is put into a folder that has no log.
pub(crate) fn begin_tail<F: Folder>(alloc: Global, folder: &mut F) -> Result<Tail, LogError>
    requires synced { IsTrue F.honest → IsSyncedButTail (F.seen folder.old) (F.may_leave folder.old) }
    requires none { IsTrue F.honest → F.seen folder.old tail_name ≡ None }
    ensures tail { IfOk result (λ t. IsReadTail t.bytes.items t.first t.places.items) }
    ensures kept { IsTrue F.honest → IfOk result (λ t. TailIsKept (F.may_hold folder.new) (F.may_leave folder.new)
        (F.entry_kept folder.new) (F.trusted folder.new) t.bytes.items) }
    ensures crash { IsTrue F.honest → ComesFrom (ElsewhereOfBoth (tail_name ++ part) tail_name)
        (F.may_leave folder.old) (F.may_leave folder.new) }

    // A crash at any moment leaves no log, or the new one.
    ensures any_moment { IsTrue F.honest → LeavesOnly F.moment F.left_since folder.old folder.new
        (IsOldOrSeen (F.may_leave folder.old) (F.seen folder.old)) }
    ensures elsewhere { IsTrue F.honest → ElsewhereOfBoth (tail_name ++ part) tail_name
        (F.seen folder.old) (F.seen folder.new) }
    ensures empty { IfOk result (λ t. IsTailOf None t.bytes.items) }
    ensures failures { F.failures folder.old ≤ F.failures folder.new }
    ensures failed { IsErrAnd result IsFailure → HasRisen (F.failures folder.old) (F.failures folder.new) }
    ensures kind { IfErr result IsFault }
{
    let bytes = new_tail(alloc, 0)?;
    replace_tail(folder, &bytes)?;
    Ok(Tail {
        bytes,
        first: 0,
        places: Vec::new(alloc),
    })
}

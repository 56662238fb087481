//! A damaged tail is cut off, and what is cut off is kept.

ghost use Rattle.std.specs.Prelude.{◌≡◌, ◌≤◌, false, ℕ, List, Some, None, length, drop, map, string_bytes, IsTrue};
ghost use Rattle.std.specs.Prelude.{IfOk, IfErr, IfSome, IfNone, OnOk};
ghost use Rattle.std.specs.List.{Contains};
ghost use Rattle.store_folder.specs.Moments.{LeavesOnly};
ghost use Rattle.store_folder.specs.Folder.{Keeps, AreNames};
ghost use Rattle.log_tail.specs.Tail.{first_of};
ghost use Rattle.log_tail.specs.Heads.{is_damaged, rest_of};
ghost use Rattle.segmented_log.specs.Names.{tail_name, cut_name, is_among};
ghost use Rattle.segmented_log.specs.Log.{KeepsLog};
ghost use Rattle.segmented_log.specs.Opening.{IsOfLog, IsSyncedButTail, IsAsBefore, IsOldOrSeen, HasSoundTail};
ghost use Rattle.segmented_log.specs.Causes.{IsFault, IsOfTails};

use crate::error::LogError;
use crate::found_log::{FoundLog, find_log};
use crate::names::{cut_file, name_beside};
use crate::tail::{Cut, repair_tail};
use log_tail::batches::find_records;
use log_tail::heads::is_damaged;
use log_tail::tail::first_number;
use std::alloc::Global;
use std::io::ErrorKind;
use store_folder::{Folder, ReadableFolder, replace};

// Whether a name is among these.
fn has_name(names: &[String], name: &String) -> bool
    ensures { result ≡ is_among (map string_bytes names.now) (string_bytes name.now) }
{
    for known in names {
        if name.as_str() == known.as_str() {
            return true;
        }
    }
    false
}

// The first name for what is cut off that is not among these.
#[tactic(auto, using(crate::proofs::RepairLemmas::not_among))]
fn free_name(alloc: Global, names: &[String]) -> Result<String, LogError>
    ensures cut { IfOk result (λ name. (n : ℕ) × (string_bytes name ≡ cut_name n)) }
    ensures free { IfOk result (λ name. Contains (map string_bytes names.now) (string_bytes name) → ⊥) }
    ensures kind { IfErr result IsFault }
{
    for number in 0..=names.len() as u64 {
        let name = cut_file(alloc, number)?;
        if !has_name(names, &name) {
            return Ok(name);
        }
    }
    Err(LogError::Failed(ErrorKind::AlreadyExists.into()))
}

// Keeps bytes that are cut off, in a file of this name.
fn keep_cut<F: Folder>(
    alloc: Global,
    folder: &mut F,
    name: &String,
    bytes: &[u8],
) -> Result<(), LogError>
    requires { (n : ℕ) × (string_bytes name.now ≡ cut_name n) }
    ensures kept { IsTrue F.honest
        → OnOk result (Keeps (string_bytes name.now) (Some bytes.now) (F.may_leave folder.new)) }
    ensures seen { IsTrue F.honest → (n : List ℕ) → IsOfLog n → F.seen folder.new n ≡ F.seen folder.old n }
    ensures crash { IsTrue F.honest → (c : List ℕ → _) → F.may_leave folder.new c
        → IsAsBefore (F.may_leave folder.old) c }
    ensures any_moment { IsTrue F.honest
        → LeavesOnly F.moment F.left_since folder.old folder.new (IsAsBefore (F.may_leave folder.old)) }
    ensures failures { F.failures folder.old ≤ F.failures folder.new }
    ensures kind { IfErr result IsFault }
{
    let beside = name_beside(alloc, name)?;
    replace(folder, beside.as_str(), name.as_str(), bytes)?;
    Ok(())
}

// Keeps the bytes of a tail from this place on, where its whole batches end, and cuts them off. Returns the name of the
// file that has them.
fn cut_off<F: Folder>(
    alloc: Global,
    folder: &mut F,
    names: &[String],
    bytes: Vec<u8>,
    end: usize,
) -> Result<String, LogError>
    requires within { end ≤ length bytes.items }
    requires rest { drop end bytes.items ≡ rest_of bytes.items }
    requires synced { IsTrue F.honest → IsSyncedButTail (F.seen folder.old) (F.may_leave folder.old) }
    requires file { IsTrue F.honest → F.seen folder.old tail_name ≡ Some bytes.items }
    ensures kept { IsTrue F.honest → IfOk result (λ name.
        Keeps (string_bytes name) (Some (rest_of bytes.items)) (F.may_leave folder.new)) }
    ensures free { IfOk result (λ name. Contains (map string_bytes names.now) (string_bytes name) → ⊥) }
    ensures log { IsTrue F.honest → OnOk result ((c : List ℕ → _) → F.may_leave folder.new c
        → KeepsLog (F.seen folder.old) c) }
    ensures any_moment { IsTrue F.honest → LeavesOnly F.moment F.left_since folder.old folder.new
        (IsOldOrSeen (F.may_leave folder.old) (F.seen folder.old)) }
    ensures kind { IfErr result IsOfTails }
{
    let name = free_name(alloc, names)?;
    keep_cut(alloc, folder, &name, &bytes[end..])?;
    let _ = repair_tail(alloc, folder, bytes, false, Cut::Damage)?;
    Ok(name)
}

// Where the whole batches of a tail end, if it has more bytes.
fn whole_end(alloc: Global, bytes: &[u8]) -> Result<Option<usize>, LogError>
    ensures within { IfOk result (λ cut. IfSome cut (λ end. end ≤ length bytes.now)) }
    ensures rest { IfOk result (λ cut. IfSome cut (λ end. drop end bytes.now ≡ rest_of bytes.now)) }
    ensures whole { IfOk result (λ cut. IfNone cut (length (rest_of bytes.now) ≡ 0)) }
    ensures sound { IfOk result (λ cut. IfNone cut (is_damaged bytes.now ≡ false)) }
    ensures kind { IfErr result IsOfTails }
{
    let Some(first) = first_number(bytes) else {
        return Err(LogError::NoLog);
    };
    let end = find_records(alloc, bytes)?.end;
    if end < bytes.len() {
        return Ok(Some(end));
    }
    if is_damaged(bytes, first, end) {
        return Err(LogError::DamagedTail);
    }
    Ok(None)
}

/// Cuts off the end of the tail of a log's folder that is no whole batch, and keeps it in a file whose name it returns.
/// `None` where the tail is whole. The records before it stay. Those of the bytes that are cut off are gone: the next
/// record of the log gets the number of the first of them.
///
/// Errors: `NoLog` where the folder has no tail; `DamagedTail` where it has whole batches alone, and the first head
/// names another first number, so nothing can be cut off; `Memory` and `Failed`, after which the folder is as it was,
/// or has the bytes in a file of their own, and maybe no more in the tail.
pub fn repair<F: ReadableFolder>(alloc: Global, folder: &mut F) -> Result<Option<String>, LogError>
    // After an Ok each crash leaves the bytes in a file that is new, and the log that was there.
    ensures kept { IsTrue F.honest → IfOk result (λ cut. IfSome cut (λ name. (bytes : List ℕ)
        → F.seen folder.old tail_name ≡ Some bytes
        → Keeps (string_bytes name) (Some (rest_of bytes)) (F.may_leave folder.new))) }
    ensures new { IsTrue F.honest → IfOk result (λ cut. IfSome cut (λ name.
        F.seen folder.old (string_bytes name) ≡ None)) }
    ensures log { IsTrue F.honest → IfOk result (λ cut. IfSome cut (λ _. (c : List ℕ → _)
        → F.may_leave folder.new c → KeepsLog (F.seen folder.old) c)) }

    // Nothing is cut off a tail that is whole, and sound.
    ensures whole { IsTrue F.honest → IfOk result (λ cut. IfNone cut ((bytes : List ℕ)
        → F.seen folder.old tail_name ≡ Some bytes → length (rest_of bytes) ≡ 0)) }
    ensures sound { IsTrue F.honest → IfOk result (λ cut. IfNone cut (HasSoundTail (F.seen folder.old))) }

    // A crash at any moment leaves what it could leave before, or the same log.
    ensures any_moment { IsTrue F.honest → LeavesOnly F.moment F.left_since folder.old folder.new
        (IsOldOrSeen (F.may_leave folder.old) (F.seen folder.old)) }
    ensures kind { IfErr result IsOfTails }
{
    let FoundLog { names, tail, .. } = find_log(alloc, folder)?;
    let Some(bytes) = tail else {
        return Err(LogError::NoLog);
    };
    let Some(end) = whole_end(alloc, &bytes)? else {
        return Ok(None);
    };
    let name = cut_off(alloc, folder, &names, bytes, end)?;
    Ok(Some(name))
}

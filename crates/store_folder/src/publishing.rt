//! Publishing a file: it is written beside its name, synced, renamed, and then the folder is synced.

ghost use Rattle.std.specs.Prelude.{◌≡◌, ◌≢◌, ◌≤◌, ℕ, List, All, IsTrue, IsSome, OnOk, OnErr, Some, map};
ghost use Rattle.store_folder.specs.Calls.{doing_of, publishing, replacing, IsApart};
ghost use Rattle.store_base.specs.Counts.{HasRisen};
ghost use Rattle.store_folder.specs.Moments.{ComesFrom, LeavesOnly};
ghost use Rattle.store_folder.specs.Folder.{ElsewhereOfBoth, EntriesStayElsewhereOfBoth, FilesElsewhereOfBoth, Keeps};
ghost use Rattle.store_folder.specs.Publishing.{IsOldOrWhole};

use crate::calls::{FolderCall, carry_out};
use crate::folder::Folder;
use std::io;

// The calls that give the name to the file beside it.
fn publish_calls<'a>(beside: &'a str, name: &'a str) -> [FolderCall<'a>; 3]
    ensures calls { map doing_of result ≡ publishing beside.now name.now }
    ensures apart { beside.now ≢ name.now → All (λ call. IsApart (doing_of call)) result }
{
    [
        FolderCall::SyncFile(beside),
        FolderCall::Rename(beside, name),
        FolderCall::Sync,
    ]
}

/// Gives the name to the file beside it: syncs that file, renames it, and syncs the folder.
///
/// A crash at any moment leaves under the name what was there before, or the whole file. After an Ok each crash leaves
/// the whole file. No name but these two changes.
pub fn publish<F: Folder>(folder: &mut F, beside: &str, name: &str) -> io::Result<()>
    requires apart { beside.now ≢ name.now }
    requires there { IsTrue F.honest → IsSome (F.seen folder.old beside.now) }
    requires trusted { IsTrue F.honest → F.trusted folder.old beside.now }

    // After an Ok, each crash leaves the whole file.
    ensures published { IsTrue F.honest → OnOk result
        (Keeps name.now (F.seen folder.old beside.now) (F.may_leave folder.new)) }
    ensures seen { IsTrue F.honest → OnOk result (F.seen folder.new name.now ≡ F.seen folder.old beside.now) }
    ensures file { IsTrue F.honest → OnOk result ((bytes : List ℕ)
        → F.may_hold folder.new name.now bytes → F.seen folder.old beside.now ≡ Some bytes) }
    ensures files { IsTrue F.honest
        → FilesElsewhereOfBoth beside.now name.now (F.may_hold folder.old) (F.may_hold folder.new) }

    // A crash at any moment of the call, also of one that fails, leaves the old file or the whole new one.
    ensures any_moment { IsTrue F.honest → LeavesOnly F.moment F.left_since folder.old folder.new
        (IsOldOrWhole (F.may_leave folder.old) beside.now name.now (F.seen folder.old beside.now)) }
    ensures elsewhere { IsTrue F.honest
        → ElsewhereOfBoth beside.now name.now (F.seen folder.old) (F.seen folder.new) }
    ensures crash { IsTrue F.honest
        → ComesFrom (ElsewhereOfBoth beside.now name.now) (F.may_leave folder.old) (F.may_leave folder.new) }

    // After an Ok the entry of every name is on the disk, and after an error those of the other names are there still.
    ensures kept { IsTrue F.honest → OnOk result ((n : List ℕ) → F.entry_kept folder.new n) }
    ensures entries { IsTrue F.honest → EntriesStayElsewhereOfBoth beside.now name.now
        (F.entry_kept folder.old) (F.entry_kept folder.new) }

    // After an Ok no sync of the file has failed, and of the others as before.
    ensures moved { IsTrue F.honest → OnOk result (F.trusted folder.new name.now) }
    ensures trust { IsTrue F.honest → EntriesStayElsewhereOfBoth beside.now name.now
        (F.trusted folder.old) (F.trusted folder.new) }

    // It fails only where a call of the folder failed.
    ensures count { F.failures folder.old ≤ F.failures folder.new }
    ensures fault { OnErr result (HasRisen (F.failures folder.old) (F.failures folder.new)) }
{
    carry_out(folder, &publish_calls(beside, name))
}

// The calls that make a file of these bytes beside the name, and give it the name. They lend the bytes.
fn replace_calls<'a>(beside: &'a str, name: &'a str, bytes: &'a [u8]) -> [FolderCall<'a>; 5]
    ensures calls { map doing_of result ≡ replacing beside.now name.now bytes.now }
    ensures apart { beside.now ≢ name.now → All (λ call. IsApart (doing_of call)) result }
{
    let [sync, rename, sync_folder] = publish_calls(beside, name);
    [
        FolderCall::Create(beside),
        FolderCall::Append(beside, bytes),
        sync,
        rename,
        sync_folder,
    ]
}

/// Replaces the file of this name, or makes it, with these bytes. They are written to the file beside, which is made or
/// taken over, and then published.
///
/// A crash at any moment leaves under the name what was there before, or the whole file. After an Ok each crash leaves
/// the whole file. No name but these two changes.
pub fn replace<F: Folder>(folder: &mut F, beside: &str, name: &str, bytes: &[u8]) -> io::Result<()>
    requires { beside.now ≢ name.now }
    ensures published { IsTrue F.honest → OnOk result (Keeps name.now (Some bytes.now) (F.may_leave folder.new)) }
    ensures seen { IsTrue F.honest → OnOk result (F.seen folder.new name.now ≡ Some bytes.now) }
    ensures file { IsTrue F.honest → OnOk result ((all : List ℕ)
        → F.may_hold folder.new name.now all → all ≡ bytes.now) }
    ensures files { IsTrue F.honest
        → FilesElsewhereOfBoth beside.now name.now (F.may_hold folder.old) (F.may_hold folder.new) }
    ensures any_moment { IsTrue F.honest → LeavesOnly F.moment F.left_since folder.old folder.new
        (IsOldOrWhole (F.may_leave folder.old) beside.now name.now (Some bytes.now)) }
    ensures elsewhere { IsTrue F.honest
        → ElsewhereOfBoth beside.now name.now (F.seen folder.old) (F.seen folder.new) }
    ensures crash { IsTrue F.honest
        → ComesFrom (ElsewhereOfBoth beside.now name.now) (F.may_leave folder.old) (F.may_leave folder.new) }

    // After an Ok the entry of every name is on the disk, and after an error those of the other names are there still.
    ensures kept { IsTrue F.honest → OnOk result ((n : List ℕ) → F.entry_kept folder.new n) }
    ensures entries { IsTrue F.honest → EntriesStayElsewhereOfBoth beside.now name.now
        (F.entry_kept folder.old) (F.entry_kept folder.new) }

    // After an Ok no sync of the file has failed, and of the others as before.
    ensures moved { IsTrue F.honest → OnOk result (F.trusted folder.new name.now) }
    ensures trust { IsTrue F.honest → EntriesStayElsewhereOfBoth beside.now name.now
        (F.trusted folder.old) (F.trusted folder.new) }
    ensures count { F.failures folder.old ≤ F.failures folder.new }
    ensures fault { OnErr result (HasRisen (F.failures folder.old) (F.failures folder.new)) }
{
    carry_out(folder, &replace_calls(beside, name, bytes))
}
